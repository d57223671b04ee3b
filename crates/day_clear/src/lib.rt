// Clearing records out of a day file within its buffer, request E13: whether the file and the list are right, and the answer.
#![tactic(auto)]

ghost use Rattle.std.specs.Prelude.{◌≡◌};
ghost use Rattle.paper.specs.DayEdits.{rising_from, clearing};
ghost use Rattle.answer.specs.Outcomes.{outcome};

use answer::Refusal;

// Whether a list is strictly rising and each number below the count of records.
fn rising(dropped: &[u64], records: usize) -> bool
    ensures { result ≡ rising_from 0 records dropped.now }
{
    let mut low: u64 = 0;
    for n in dropped {
        if *n < low || records as u64 <= *n {
            return false;
        }
        low = *n + 1;
    }
    true
}

// Clearing: 9, then 17 for a list that is not strictly rising or names a record that is absent. Nothing is written before the answer is settled.
pub fn clear(buffer: &mut [u8], size: u64, dropped: &[u64]) -> Result<usize, Refusal>
    ensures { outcome result buffer.new ≡ clearing buffer.old size dropped.now }
{
    if (buffer.len() as u64) < size {
        return Err(Refusal::NoRecord);
    }
    let end = size as usize;
    let Some(day) = day::check(&buffer[..end]) else {
        return Err(Refusal::NoRecord);
    };
    if !rising(dropped, day.records) {
        return Err(Refusal::BadList);
    }
    Ok(day_pack::put_cleared(buffer, end, day.headers, day.records, day.first, dropped))
}
