// The decimal mark of a header's locale, request E12.
#![tactic(auto)]

ghost use Rattle.std.specs.Prelude.{◌≡◌};
ghost use Rattle.paper.specs.Document01.{reading};
ghost use Rattle.paper.specs.Pause.{mark_of};
ghost use Rattle.pause_unit.specs.Answers.{read_as};
ghost use Rattle.pause_mark.specs.Marks.{mark_as};

use answer::Refusal;

// The decimal mark of a locale: comma for de, fr and it; point for en. No locale is a secret, and what it is may show in the time that this takes.
#[tactic(auto, using(crate::proofs::Locales::same_two), unfolding(paper::specs::Pause::mark_of))]
fn mark_of(name: &[u8]) -> Option<u8>
    ensures { result ≡ read_as (mark_of name.now) }
{
    match name {
        b"de" | b"fr" | b"it" => Some(b','),
        b"en" => Some(b'.'),
        _ => None,
    }
}

// A log header's strings: nonce, host, collector and locale.
const ITEMS: usize = 4;

// The decimal mark of a header: that of the fourth of exactly four strings; 3 where it does not read, 15 where its locale is not in the table.
// In a header that reads every entry is there.
pub fn header_mark(header: &[u8]) -> Result<u8, Refusal>
    ensures { result ≡ mark_as (reading header.now) }
{
    let n = header::read(header)?;
    if n != ITEMS {
        return Err(Refusal::NoLocale);
    }
    let mut at = 1;
    for _ in 0..3usize {
        let Some(place) = header::entry(header, at) else {
            return Err(Refusal::NoLocale);
        };
        at = place.end;
    }
    let Some(place) = header::entry(header, at) else {
        return Err(Refusal::NoLocale);
    };
    mark_of(&header[place.start..place.end]).ok_or(Refusal::NoLocale)
}
