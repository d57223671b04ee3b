// Reading headers: where the strings of a header stand, and whether a header reads. Document 01, "Headers".
#![tactic(auto)]

ghost use Rattle.std.specs.Prelude.{◌≡◌, ◌<◌};
ghost use Rattle.paper.specs.Document01.{reading};
ghost use Rattle.header.specs.Places.{entry_at, Within, count_of, Few, read_as};

pub use answer::BadEntry;

// A string's start and end in the header.
#[derive(Clone, Copy, Debug, PartialEq, Eq)]
pub struct Place {
    pub start: usize,
    pub end: usize,
}

// The entry whose two length bytes, high byte first, stand at a place of h. The tests subtract, since a sum with at could wrap.
#[tactic(auto, unfolding(crate::specs::Places::entry_at))]
pub fn entry(h: &[u8], at: usize) -> Option<Place>
    ensures value { result ≡ entry_at h.now at }
    ensures within { Within result h.now }
{
    if h.len() < at || h.len() - at < 2 {
        return None;
    }
    let size = usize::from(u16::from_be_bytes([h[at], h[at + 1]]));
    let start = at + 2;
    if 1024 < size || h.len() - start < size {
        return None;
    }
    Some(Place {
        start,
        end: start + size,
    })
}

// How many strings a header's first byte says that it has: from 1 to 16.
#[tactic(auto, using(crate::proofs::Counts::count_first, crate::proofs::Counts::count_none))]
pub fn count(h: &[u8]) -> Result<usize, BadEntry>
    ensures value { result ≡ count_of h.now }
    ensures few { Few result h.now }
{
    match h.first() {
        Some(n) if (1..=16).contains(n) => Ok(usize::from(*n)),
        _ => Err(BadEntry(0)),
    }
}

// Whether a header reads: a count from 1 to 16, then that many strings, and no byte after the last. The first entry that is bad is told.
pub fn read(h: &[u8]) -> Result<usize, BadEntry>
    ensures { result ≡ read_as (reading h.now) }
{
    let n = count(h)?;
    let mut at = 1;
    for k in 1..=n {
        let Some(place) = entry(h, at) else {
            return Err(BadEntry(k));
        };
        at = place.end;
    }
    if at != h.len() {
        return Err(BadEntry(17));
    }
    Ok(n)
}
