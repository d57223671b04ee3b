// The parts of a day file put at their places, request E1: its headers, its records and its index.
#![tactic(auto)]

ghost use Rattle.std.specs.Prelude.{true, ◌≡◌, ◌+◌, ◌*◌, ◌<◌, ◌≤◌, length};
ghost use Rattle.paper.specs.DayFile.{write_record, write_places, present, headers_of, records_of};
ghost use Rattle.laws.specs.Placing.{placed};
ghost use Rattle.day_fit.specs.Fits.{records_right};
ghost use Rattle.day_put.specs.Written.{record_with, headers_written, records_written, places_by, total};

// The headers put at a place, each after its two-byte length. The place after them is returned.
pub fn put_headers(lengths: &[u64], headers: &[u8], out: &mut [u8], start: usize) -> usize
    requires { (present (headers_of lengths.now headers.now) ≡ true) × (start + 2 * length lengths.now + length headers.now ≤ length out.old) }
    ensures { (result ≡ start + length (headers_written (headers_of lengths.now headers.now))) × (out.new ≡ placed start (headers_written (headers_of lengths.now headers.now)) out.old) }
{
    let mut at = start;
    let mut rest = headers;
    for n in lengths {
        let (header, more) = rest.split_at(*n as usize);
        at = builder::put(out, at, header);
        rest = more;
    }
    at
}

// A record put at a place.
pub fn put_record(out: &mut [u8], at: usize, number: usize, stretch: usize, sealed: &[u8])
    requires { (stretch < 256) × (at + 7 + length sealed.now ≤ length out.old) }
    ensures { out.new ≡ placed at (write_record (record_with number stretch sealed.now)) out.old }
{
    numbers::put::<2>(out, at, number);
    out[at + 2] = stretch as u8;
    numbers::put::<4>(out, at + 3, sealed.len());
    slices::copy(out, at + 7, sealed);
}

// The records put at a place. The place after them is returned. The lists come as such from the C interface.
pub fn put_records(
    headers: usize,
    numbers: &[u64],
    stretches: &[u64],
    sizes: &[u64],
    sealed: &[u8],
    out: &mut [u8],
    start: usize,
) -> usize
    requires { (records_right headers numbers.now stretches.now sizes.now sealed.now ≡ true) × (start + 7 * length sizes.now + length sealed.now ≤ length out.old) }
    ensures { (result ≡ start + length (records_written (records_of headers numbers.now stretches.now sizes.now sealed.now))) × (out.new ≡ placed start (records_written (records_of headers numbers.now stretches.now sizes.now sealed.now)) out.old) }
{
    let mut at = start;
    let mut rest = sealed;
    for (i, n) in sizes.iter().enumerate() {
        let (part, more) = rest.split_at(*n as usize);
        put_record(out, at, numbers[i] as usize, stretches[i] as usize, part);
        at += 7 + part.len();
        rest = more;
    }
    at
}

// The places of records of these sealed lengths put at a place, where the first stands at another.
pub fn put_places(sizes: &[u64], first: usize, out: &mut [u8], start: usize)
    requires { (first + total sizes.now ≤ 65536) × (start + 4 * length sizes.now ≤ length out.old) }
    ensures { out.new ≡ placed start (write_places (places_by first sizes.now)) out.old }
{
    let mut place = first;
    for (i, n) in sizes.iter().enumerate() {
        numbers::put::<4>(out, start + 4 * i, place);
        place += 7 + *n as usize;
    }
}
