// Marks over the headers of a day file, request E12: where every 64th header stands. Whoever looks for the headers of all records then passes
// at most 63 headers for each, and not all that stand before it.
#![tactic(auto)]

ghost use Rattle.std.specs.Prelude.{◌≡◌, ◌<◌};
ghost use Rattle.paper.specs.DayFile.{read_day};
ghost use Rattle.day_find.specs.Finds.{headers_in, records_in, found_in, FoundWithin};
ghost use Rattle.day_marks.specs.Marks.{marks_of};

use day_find::Found;

// The marks of a file that reads and has so many headers, in one walk over these. It has at most 13,104, so there are at most 205 marks.
pub fn marks(file: &[u8], headers: usize) -> [u32; 205]
    requires { headers ≡ headers_in (read_day file.now) }
    ensures { result ≡ marks_of (read_day file.now) }
{
    let mut marks = [0; 205];
    let mut at = 4;
    for (i, mark) in marks.iter_mut().enumerate() {
        *mark = at as u32;
        at = day_find::place_from(file, (64 * i).min(headers), at, (64 * i + 64).min(headers));
    }
    marks
}

// Record k as `day_find::find` finds it, from the last mark that is not after its header.
pub fn find(file: &[u8], marks: &[u32; 205], records: usize, k: usize) -> Found
    requires { (records ≡ records_in (read_day file.now)) × (k < records) × (marks.now ≡ marks_of (read_day file.now)) }
    ensures value { result ≡ found_in (read_day file.now) k }
    ensures within { FoundWithin result file.now }
{
    let e = day_find::entry_of(file, records, k);
    let i = e.header / 64;
    day_find::find_from(file, records, k, 64 * i, marks[i] as usize)
}
