// Opening a record of a day file by its number, request E1: 9, or opening as document 01 has it.
#![tactic(auto)]

ghost use Rattle.std.specs.Prelude.{◌≡◌};
ghost use Rattle.paper.specs.DayFile.{opening_record};
ghost use Rattle.answer.specs.Outcomes.{outcome};

use answer::{Refusal, StretchBytes};

// Opening record k: 9 where the file does not read or has no such record, else opening as document 01 has it.
pub fn open(key: &[u8], file: &[u8], k: usize, out: &mut [u8]) -> Result<usize, Refusal>
    ensures { outcome result out.new ≡ opening_record key.now file.now k out.old }
{
    let Some(day) = day::check(file) else {
        return Err(Refusal::NoRecord);
    };
    if day.records <= k {
        return Err(Refusal::NoRecord);
    }
    let f = day_find::find(file, day.records, k);
    record::open(
        key,
        &file[f.header_start..f.header_end],
        StretchBytes(f.stretch),
        &file[f.start..f.end],
        out,
    )
}
