// Where a header or a record of a day file that reads stands, request E1. No byte of the file is copied.
#![tactic(auto)]

ghost use Rattle.std.specs.Prelude.{◌≡◌, ◌<◌, ◌≤◌};
ghost use Rattle.paper.specs.DayFile.{read_day};
ghost use Rattle.day_find.specs.Finds.{headers_in, records_in, entry_in, length_place, found_in, FoundWithin};

use day_steps::Entry;

// The number of records comes beside the file into each function here, and no type ties the two: one that the check makes would ask more of
// those who call `place_from` and `day_marks::marks`, which answer also for a file that does not read.

// Where a record's header and its sealed bytes start and end, and its stretch.
#[derive(Clone, Copy)]
pub struct Found {
    pub header_start: usize,
    pub header_end: usize,
    pub stretch: u64,
    pub start: usize,
    pub end: usize,
}

// The fields of record k of a file that reads and has so many records, by the index.
pub fn entry_of(file: &[u8], records: usize, k: usize) -> Entry
    requires { (records ≡ records_in (read_day file.now)) × (k < records) }
    ensures { (result ≡ entry_in (read_day file.now) k) × (result.header < headers_in (read_day file.now)) }
{
    let place = numbers::read::<4>(file, file.len() - 4 * records + 4 * k);
    day_steps::entry_at(file, place)
}

// Where a header's two length bytes stand, in a file that reads, from the place of those of header `from` on: the headers between the two are
// passed one by one. Past the last header this is the place after all of them.
pub fn place_from(file: &[u8], from: usize, at: usize, number: usize) -> usize
    requires { (at ≡ length_place (read_day file.now) from) × (from ≤ number) × (number ≤ headers_in (read_day file.now)) }
    ensures { result ≡ length_place (read_day file.now) number }
{
    let mut place = at;
    for _ in from..number {
        place += 2 + numbers::read::<2>(file, place);
    }
    place
}

// Record k of a file that reads and has so many records: its place by the index, and then a walk to its own header from the place of header
// `from`, which is not after it.
pub fn find_from(file: &[u8], records: usize, k: usize, from: usize, at: usize) -> Found
    requires { (records ≡ records_in (read_day file.now)) × (k < records) × (at ≡ length_place (read_day file.now) from) × (from ≤ (entry_in (read_day file.now) k).header) }
    ensures value { result ≡ found_in (read_day file.now) k }
    ensures within { FoundWithin result file.now }
{
    let e = entry_of(file, records, k);
    let place = place_from(file, from, at, e.header);
    let header_start = place + 2;
    let header_end = header_start + numbers::read::<2>(file, place);
    Found {
        header_start,
        header_end,
        stretch: e.stretch,
        start: e.start,
        end: e.end,
    }
}

// Record k of a file that reads and has so many records, by a walk over all headers before its own.
pub fn find(file: &[u8], records: usize, k: usize) -> Found
    requires { (records ≡ records_in (read_day file.now)) × (k < records) }
    ensures value { result ≡ found_in (read_day file.now) k }
    ensures within { FoundWithin result file.now }
{
    find_from(file, records, k, 0, 4)
}
