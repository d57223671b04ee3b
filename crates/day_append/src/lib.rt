// Appending a record to a day file within its buffer, request E13: whether it is within the layout, how long the file grows, and the answer.
#![tactic(auto)]

ghost use Rattle.std.specs.Prelude.{◌≡◌, ◌+◌, ◌≤◌, length};
ghost use Rattle.paper.specs.DayEdits.{append_fits, appending};
ghost use Rattle.answer.specs.Outcomes.{outcome};
ghost use Rattle.day_append.specs.Appended.{capped, taken};

use answer::Refusal;

const LONGEST_FILE: usize = 65536;

// Whether an append is within the layout, where the file has so many headers.
fn fits(headers: usize, number: u64, header: &[u8], stretch: u64) -> bool
    ensures { result ≡ append_fits number header.now stretch headers }
{
    (number < headers as u64 || (number == headers as u64 && header::read(header).is_ok()))
        && stretch <= 64
}

// The length of the grown file, where the file has so many bytes and headers; 65,537 for all that is longer.
fn grown_size(size: usize, headers: usize, number: u64, header: &[u8], sealed: &[u8]) -> usize
    requires { size ≤ 65536 }
    ensures { result ≡ capped (size + taken number header.now headers + 11 + length sealed.now) }
{
    let taken = if number < headers as u64 {
        0
    } else {
        header.len().saturating_add(2)
    };
    taken
        .saturating_add(sealed.len())
        .saturating_add(size + 11)
        .min(65537)
}

// Appending: 9, then 6 for a grown file that is above the buffer or above 65,536 bytes. Nothing is written before the answer is settled.
pub fn append(
    buffer: &mut [u8],
    size: u64,
    number: u64,
    header: &[u8],
    stretch: u64,
    sealed: &[u8],
) -> Result<usize, Refusal>
    ensures { outcome result buffer.new ≡ appending buffer.old size number header.now stretch sealed.now }
{
    if (buffer.len() as u64) < size {
        return Err(Refusal::NoRecord);
    }
    let end = size as usize;
    let Some(day) = day::check(&buffer[..end]) else {
        return Err(Refusal::NoRecord);
    };
    if !fits(day.headers, number, header, stretch) {
        return Err(Refusal::NoRecord);
    }
    let n = grown_size(end, day.headers, number, header, sealed);
    if LONGEST_FILE < n {
        return Err(Refusal::NoRoom);
    }
    if buffer.len() < n {
        return Err(Refusal::NoRoom);
    }
    day_grow::put_grown(
        buffer,
        end,
        day.headers,
        day.records,
        day.first,
        number as usize,
        header,
        stretch,
        sealed,
    );
    Ok(n)
}
