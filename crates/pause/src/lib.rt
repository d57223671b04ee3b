// The pause of a record, request E12: its text under the decimal mark of its header's locale.
#![tactic(auto)]

ghost use Rattle.std.specs.Prelude.{◌≡◌};
ghost use Rattle.paper.specs.Document01.{reading, told};
ghost use Rattle.paper.specs.Pause.{pausing};
ghost use Rattle.answer.specs.Outcomes.{place_in};
ghost use Rattle.pause.specs.Fields.{field_of};

use answer::Refusal;

// A text under a header: its microseconds, or the first that holds of 3, which tells the header's bad entry, 15 and 16.
pub fn read_field(header: &[u8], text: &[u8]) -> Result<u64, Refusal>
    ensures value { field_of result ≡ pausing header.now text.now }
    ensures place { place_in result ≡ (told (reading header.now)).place }
{
    let mark = pause_mark::header_mark(header)?;
    pause_text::read_text(mark, text).ok_or(Refusal::NoPause)
}
