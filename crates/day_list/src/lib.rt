// Where every header and every record of a day file stands, request E1.
#![tactic(auto)]

ghost use Rattle.std.specs.Prelude.{[], ◌∷◌, ◌≡◌, ◌+◌, ◌*◌, ◌≤◌, length};
ghost use Rattle.paper.specs.DayFile.{read_day, listing};
ghost use Rattle.laws.specs.Placing.{placed};
ghost use Rattle.day_find.specs.Finds.{headers_in, records_in};
ghost use Rattle.day_list.specs.Lists.{headers_listed, record_place, records_listed, listing_as};

use answer::Refusal;

// How many headers and records of a file are listed.
#[derive(Clone, Copy, Debug, PartialEq, Eq)]
pub struct Listed {
    pub headers: usize,
    pub records: usize,
}

// For each header of a file that reads its start and its end, put first in a list.
fn list_headers(file: &[u8], headers: usize, places: &mut [u64])
    requires { (headers ≡ headers_in (read_day file.now)) × (2 * headers ≤ length places.old) }
    ensures { places.new ≡ placed 0 (headers_listed (read_day file.now) headers) places.old }
{
    let mut at = 4;
    for i in 0..headers {
        let start = at + 2;
        let end = start + numbers::read::<2>(file, at);
        places[2 * i..2 * i + 2].copy_from_slice(&[start as u64, end as u64]);
        at = end;
    }
}

// For each record of a file that reads its header's number, its stretch, and the start and the end of its sealed bytes, put at a place of a
// list.
fn list_records(file: &[u8], records: usize, first: usize, places: &mut [u64], base: usize)
    requires { (records ≡ records_in (read_day file.now)) × (first ≡ record_place (read_day file.now) 0) × (base + 4 * records ≤ length places.old) }
    ensures { places.new ≡ placed base (records_listed (read_day file.now) records) places.old }
{
    let mut at = first;
    for i in 0..records {
        let e = day_steps::entry_at(file, at);
        let own = [e.header as u64, e.stretch, e.start as u64, e.end as u64];
        places[base + 4 * i..base + 4 * i + 4].copy_from_slice(&own);
        at = e.end;
    }
}

// Where every header and every record of a file stands, after one check of it: 9, then 6 for a list that is too short. Nothing is written before
// the answer is settled.
pub fn list(file: &[u8], places: &mut [u64]) -> Result<Listed, Refusal>
    ensures { listing_as result places.new ≡ listing file.now places.old }
{
    let Some(day) = day::check(file) else {
        return Err(Refusal::NoRecord);
    };
    if places.len() < 2 * day.headers + 4 * day.records {
        return Err(Refusal::NoRoom);
    }
    list_headers(file, day.headers, places);
    list_records(file, day.records, day.first, places, 2 * day.headers);
    Ok(Listed {
        headers: day.headers,
        records: day.records,
    })
}
