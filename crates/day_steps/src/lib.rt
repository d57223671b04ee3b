// One step of a walk over a day file, request E1: a header or a record at a place, and the place after the headers.
// The file is walked where it lies: no byte of it is copied.
#![tactic(auto)]

ghost use Rattle.std.specs.Prelude.{◌≡◌, ◌+◌, ◌<◌, ◌≤◌, length};
ghost use Rattle.day_steps.specs.Walks.{entry_at, HeaderStep, RecordStep, HeadersWalk};

use header::Place;

const LONGEST_STRETCH: u64 = 64;

// A record: its header's number, its stretch, and where its sealed bytes start and end. The next record stands at their end.
#[derive(Clone, Copy)]
pub struct Entry {
    pub header: usize,
    pub stretch: u64,
    pub start: usize,
    pub end: usize,
}

// The header whose two length bytes stand at a place, where it reads.
fn header_at(file: &[u8], at: usize) -> Option<Place>
    requires { at ≤ length file.now }
    ensures { HeaderStep result file.now at }
{
    if file.len() - at < 2 {
        return None;
    }
    let size = numbers::read::<2>(file, at);
    let start = at + 2;
    if file.len() - start < size {
        return None;
    }
    let end = start + size;
    if header::read(&file[start..end]).is_ok() {
        Some(Place { start, end })
    } else {
        None
    }
}

// The fields of the record at a place of a file.
pub fn entry_at(file: &[u8], at: usize) -> Entry
    requires { (at + 7 ≤ length file.now) × (length file.now ≤ 65536) }
    ensures { (result ≡ entry_at file.now at) × (result.header < 65536) }
{
    let start = at + 7;
    Entry {
        header: numbers::read::<2>(file, at),
        stretch: u64::from(file[at + 2]),
        start,
        end: start + numbers::read::<4>(file, at + 3),
    }
}

// The record at a place of a file that has so many headers, where it is within the layout.
pub fn record_at(file: &[u8], headers: usize, at: usize) -> Option<Entry>
    requires { (at ≤ length file.now) × (length file.now ≤ 65536) }
    ensures { RecordStep result file.now headers at }
{
    if file.len() - at < 7 {
        return None;
    }
    let e = entry_at(file, at);
    if e.end <= file.len() && e.header < headers && e.stretch <= LONGEST_STRETCH {
        Some(e)
    } else {
        None
    }
}

// The place after so many headers, where each of them reads.
pub fn headers_end(file: &[u8], headers: usize) -> Option<usize>
    requires { 4 ≤ length file.now }
    ensures { HeadersWalk result file.now headers }
{
    let mut at = 4;
    for _ in 0..headers {
        at = header_at(file, at)?.end;
    }
    Some(at)
}
