// A record put into the buffer that holds a day file, request E13. Parts are moved to the right only: a new header makes room for itself after
// the others, the record goes after the records, and the index is built anew behind it.
#![tactic(auto)]

ghost use Rattle.std.specs.Prelude.{◌≡◌, ◌+◌, ◌-◌, ◌*◌, ◌≤◌, length, take};
ghost use Rattle.paper.specs.Strings.{digits};
ghost use Rattle.paper.specs.DayFile.{read_day};
ghost use Rattle.laws.specs.Placing.{placed};
ghost use Rattle.day_put.specs.Written.{record_with};
ghost use Rattle.day_grow.specs.Grown.{Rows, last_written, Ready, grown_file};

// A record put after those that stand from one place to another, with the index after it, and their count, which stands before them, mended.
fn put_last(
    out: &mut [u8],
    records: usize,
    first: usize,
    at: usize,
    number: usize,
    stretch: u64,
    sealed: &[u8],
)
    requires { Rows (take at out.old) first records × (4 ≤ first) × (at + 11 + length sealed.now + 4 + 4 * records ≤ 65536) × (at + 11 + length sealed.now + 4 + 4 * records ≤ length out.old) × (stretch ≤ 64) }
    ensures { out.new ≡ placed (first - 4) (digits 256 4 (records + 1)) (placed at (last_written (take at out.old) first records (record_with number stretch sealed.now)) out.old) }
{
    day_put::put_record(out, at, number, stretch as usize, sealed);
    day_place::put_index(out, first, records + 1, at + 7 + sealed.len());
    numbers::put::<4>(out, first - 4, records + 1);
}

// The grown file put first in the buffer that holds the file.
pub fn put_grown(
    out: &mut [u8],
    size: usize,
    headers: usize,
    records: usize,
    first: usize,
    number: usize,
    header: &[u8],
    stretch: u64,
    sealed: &[u8],
)
    requires { Ready out.old size headers records first number header.now stretch sealed.now }
    ensures { out.new ≡ placed 0 (grown_file (read_day (take size out.old)) number header.now stretch sealed.now) out.old }
{
    let end = first - 4;
    let last = size - 4 - 4 * records;
    if number < headers {
        put_last(out, records, first, last, number, stretch, sealed);
    } else {
        let more = 2 + header.len();
        day_place::move_bytes(out, end + more, end, last - end);
        builder::put(out, end, header);
        numbers::put::<4>(out, 0, headers + 1);
        put_last(
            out,
            records,
            first + more,
            last + more,
            number,
            stretch,
            sealed,
        );
    }
}
