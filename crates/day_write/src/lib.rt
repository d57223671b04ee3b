// Writing a day file, request E1: what the writer answers for the lists that a caller hands over, and how long the file is.
#![tactic(auto)]

ghost use Rattle.std.specs.Prelude.{◌≡◌, ◌<◌, ◌≤◌};
ghost use Rattle.paper.specs.DayFile.{headers_of, day_from, writing};
ghost use Rattle.answer.specs.Outcomes.{outcome};
ghost use Rattle.day_write.specs.Settled.{size_of, settled_for};

use answer::Refusal;

// The length of the file of so many headers, of so many bytes, and so many records, of so many sealed bytes; 65,537 for all that is longer.
fn size(headers: usize, joined: usize, records: usize, sealed: usize) -> usize
    ensures { (result ≤ 65536 → result ≡ size_of headers joined records sealed) × (65536 < result → 65536 < size_of headers joined records sealed) }
{
    if headers > 65536 || joined > 65536 || records > 65536 || sealed > 65536 {
        65537
    } else {
        12 + 2 * headers + joined + 11 * records + sealed
    }
}

// What the writer answers for a room of so many bytes: 9, then 4, then 6, else the file's length.
fn settled(
    lengths: &[u64],
    headers: &[u8],
    numbers: &[u64],
    stretches: &[u64],
    sizes: &[u64],
    sealed: &[u8],
    room: usize,
) -> Result<usize, Refusal>
    ensures { result ≡ settled_for (day_from (headers_of lengths.now headers.now) numbers.now stretches.now sizes.now sealed.now) room }
{
    if !day_fit::headers_fit(lengths, headers) {
        return Err(Refusal::NoRecord);
    }
    if !day_fit::records_fit(lengths.len(), numbers, stretches, sizes, sealed) {
        return Err(Refusal::NoRecord);
    }
    let n = size(lengths.len(), headers.len(), sizes.len(), sealed.len());
    if 65536 < n {
        return Err(Refusal::TooLong);
    }
    if room < n {
        return Err(Refusal::NoRoom);
    }
    Ok(n)
}

// A day file of the lists that a caller hands over. Nothing is written before the answer is settled.
pub fn write(
    lengths: &[u64],
    headers: &[u8],
    numbers: &[u64],
    stretches: &[u64],
    sizes: &[u64],
    sealed: &[u8],
    out: &mut [u8],
) -> Result<usize, Refusal>
    ensures { outcome result out.new ≡ writing lengths.now headers.now numbers.now stretches.now sizes.now sealed.now out.old }
{
    let length = settled(
        lengths,
        headers,
        numbers,
        stretches,
        sizes,
        sealed,
        out.len(),
    )?;
    numbers::put::<4>(out, 0, lengths.len());
    let end = day_put::put_headers(lengths, headers, out, 4);
    numbers::put::<4>(out, end, sizes.len());
    let first = end + 4;
    let index = day_put::put_records(lengths.len(), numbers, stretches, sizes, sealed, out, first);
    numbers::put::<4>(out, index, sizes.len());
    day_put::put_places(sizes, first, out, index + 4);
    Ok(length)
}
