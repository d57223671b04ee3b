// Answers 1 to 6 of document 01, "Answer numbers", settled before any cipher is needed: from the key, the header and the lengths.
#![tactic(auto)]

ghost use Rattle.std.specs.Prelude.{◌≡◌};
ghost use Rattle.settle.specs.Settled.{settled_by, settled_common, settled_sealing, settled_opening};

use answer::{Refusal, StretchBytes};

// Tests 1, 2 and 3, which sealing and opening share.
#[tactic(auto, using(crate::proofs::Settles::common_2))]
fn settled(key: &[u8], header: &[u8], stretch: StretchBytes) -> Result<(), Refusal>
    ensures { settled_by result ≡ settled_common key.now header.now stretch.0 }
{
    if key.len() != 48 {
        return Err(Refusal::KeyLength);
    }
    if 64 < stretch.0 {
        return Err(Refusal::LongStretch);
    }
    header::read(header)?;
    Ok(())
}

// Tests 1 to 4 and 6 for a text of so many bytes and an output of so many. The fourth subtracts, since a sum could wrap.
pub fn settled_sealing(
    key: &[u8],
    header: &[u8],
    stretch: StretchBytes,
    text: usize,
    room: usize,
) -> Result<(), Refusal>
    ensures { settled_by result ≡ settled_sealing key.now header.now stretch.0 text room }
{
    settled(key, header, stretch)?;
    let t = stretch.0 as usize;
    if 65536 - t < text {
        return Err(Refusal::TooLong);
    }
    if room < text + t {
        return Err(Refusal::NoRoom);
    }
    Ok(())
}

// Tests 1 to 6 for a sealed string of so many bytes and an output of so many.
#[tactic(auto, using(crate::proofs::Settles::opening_4))]
pub fn settled_opening(
    key: &[u8],
    header: &[u8],
    stretch: StretchBytes,
    sealed: usize,
    room: usize,
) -> Result<(), Refusal>
    ensures { settled_by result ≡ settled_opening key.now header.now stretch.0 sealed room }
{
    settled(key, header, stretch)?;
    let t = stretch.0 as usize;
    if 65536 < sealed {
        return Err(Refusal::TooLong);
    }
    if sealed < t {
        return Err(Refusal::ShortSealed);
    }
    if room < sealed {
        return Err(Refusal::NoRoom);
    }
    Ok(())
}
