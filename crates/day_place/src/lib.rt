// What both edits of a day file do within its buffer, request E13: bytes moved to an earlier or a later place, and the index of the records that stand
// there.
#![tactic(auto)]

ghost use Rattle.std.specs.Prelude.{[], ◌∷◌, ◌++◌, ◌≡◌, ◌+◌, ◌*◌, ◌<◌, ◌≤◌, length, take, drop};
ghost use Rattle.paper.specs.Strings.{digits};
ghost use Rattle.paper.specs.DayFile.{write_places};
ghost use Rattle.laws.specs.Placing.{placed};
ghost use Rattle.day_place.specs.Walked.{end_of, places_of};

// n bytes put at another place, which may overlap their own, and every other byte kept.
pub fn move_bytes(out: &mut [u8], to: usize, from: usize, n: usize)
    requires { (from + n ≤ length out.old) × (to + n ≤ length out.old) }
    ensures { out.new ≡ placed to (take n (drop from out.old)) out.old }
{
    out.copy_within(from..from + n, to);
}

// The places of so many records, which stand from one place to another, put after a number of bytes that follow them.
fn put_places(out: &mut [u8], first: usize, records: usize, at: usize)
    requires { (end_of (take at out.old) first records ≡ at) × (at + 4 + 4 * records ≤ length out.old) × (at ≤ 65536) }
    ensures { out.new ≡ placed (at + 4) (write_places (places_of (take at out.old) first records)) out.old }
{
    let mut place = first;
    for i in 0..records {
        numbers::put::<4>(out, at + 4 + 4 * i, place);
        place = day_steps::entry_at(&out[..at], place).end;
    }
}

// The index of so many records, which stand from one place to another, put right after them.
pub fn put_index(out: &mut [u8], first: usize, records: usize, at: usize)
    requires { (end_of (take at out.old) first records ≡ at) × (at + 4 + 4 * records ≤ length out.old) × (at ≤ 65536) }
    ensures { out.new ≡ placed at (digits 256 4 records ++ write_places (places_of (take at out.old) first records)) out.old }
{
    put_places(out, first, records, at);
    numbers::put::<4>(out, at, records);
}
