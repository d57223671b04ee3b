// Reading a day file, request E1: whether it reads. It is walked where it lies, and nothing kept grows with it.
#![tactic(auto)]

ghost use Rattle.std.specs.Prelude.{◌≡◌, ◌*◌, ◌≤◌, length, drop};
ghost use Rattle.paper.specs.DayFile.{read_records, read_day};
ghost use Rattle.day.specs.Checks.{right_index, checked_as};

const LONGEST_FILE: usize = 65536;

// How many headers and records a file that reads has, and where its first record stands.
#[derive(Clone, Copy)]
pub struct Day {
    pub headers: usize,
    pub records: usize,
    pub first: usize,
}

// Whether so many records read from a place on, and what follows them is exactly their index. Its entries are the file's last bytes, so each
// is looked at beside its record.
fn records_right(file: &[u8], headers: usize, records: usize, first: usize) -> bool
    requires { (first ≤ length file.now) × (length file.now ≤ 65536) × (4 * records ≤ length file.now) }
    ensures { result ≡ right_index first (read_records headers records (drop first file.now)) }
{
    let entries = file.len() - 4 * records;
    let mut at = first;
    for k in 0..records {
        let place = entries + 4 * k;
        let Some(e) = day_steps::record_at(file, headers, at) else {
            return false;
        };
        if numbers::read::<4>(file, place) != at {
            return false;
        }
        at = e.end;
    }
    file.len() - at == 4 + 4 * records && numbers::read::<4>(file, at) == records
}

// What a file that reads has, in one pass over it.
pub fn check(file: &[u8]) -> Option<Day>
    ensures { result ≡ checked_as (read_day file.now) }
{
    if file.len() < 4 || LONGEST_FILE < file.len() {
        return None;
    }
    let headers = numbers::read::<4>(file, 0);
    let end = day_steps::headers_end(file, headers)?;
    if file.len() - end < 4 {
        return None;
    }
    let records = numbers::read::<4>(file, end);
    let first = end + 4;
    if 4 * records <= file.len() && records_right(file, headers, records, first) {
        Some(Day {
            headers,
            records,
            first,
        })
    } else {
        None
    }
}
