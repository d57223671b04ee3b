// Sealing and opening, the latter in both its forms: document 01, "Answer numbers". No call asks anything of its caller.
#![tactic(auto)]

ghost use Rattle.std.specs.Prelude.{◌≡◌};
ghost use Rattle.paper.specs.Document01.{sealing, opening, opened_part};
ghost use Rattle.answer.specs.Outcomes.{outcome_at};

use answer::{Refusal, StretchBytes};

// Sealing: the length of the sealed string. Nothing is written before the answer is settled.
pub fn seal(
    key: &[u8],
    header: &[u8],
    stretch: StretchBytes,
    text: &[u8],
    out: &mut [u8],
) -> Result<usize, Refusal>
    ensures { outcome_at result out.new ≡ sealing key.now header.now stretch.0 text.now out.old }
{
    settle::settled_sealing(key, header, stretch, text.len(), out.len())?;
    let k = key::key_of(key);
    let delta = hash::delta(k, stretch.bits(), header);
    let length = text.len() + stretch.0 as usize;
    cipher::encrypt(k, delta, text, &mut out[..length]);
    Ok(length)
}

// The answer to a string that does not open. A call, and not a value: of two values the compiler takes one by whether the check held, with no
// branch, and whoever looks up the refusal's number then reads at an address that depends on a secret (`rust/tests/secrets.rs`).
#[cold]
#[inline(never)]
fn does_not_open() -> Result<usize, Refusal>
    ensures { result ≡ Err Refusal.DoesNotOpen }
{
    Err(Refusal::DoesNotOpen)
}

// Opening, the numbered form: the length of the text. Nothing is written before answers 1 to 6 are settled.
pub fn open(
    key: &[u8],
    header: &[u8],
    stretch: StretchBytes,
    sealed: &[u8],
    out: &mut [u8],
) -> Result<usize, Refusal>
    ensures { outcome_at result out.new ≡ opening key.now header.now stretch.0 sealed.now out.old }
{
    settle::settled_opening(key, header, stretch, sealed.len(), out.len())?;
    let k = key::key_of(key);
    let delta = hash::delta(k, stretch.bits(), header);
    let n = sealed.len();
    let t = stretch.0 as usize;
    if cipher::decrypt(k, delta, t, sealed, &mut out[..n]) {
        Ok(n - t)
    } else {
        does_not_open()
    }
}

// Opening, the second form: the text as the part of out that holds it, which is empty after any refusal.
pub fn open_part<'a>(
    key: &[u8],
    header: &[u8],
    stretch: StretchBytes,
    sealed: &[u8],
    out: &'a mut [u8],
) -> &'a mut [u8]
    ensures { (result.ref_ptr ≡ out.entry.ref_ptr) × (result.now ≡ opened_part key.now header.now stretch.0 sealed.now out.old) }
{
    let n = open(key, header, stretch, sealed, &mut *out).unwrap_or(0);
    &mut out[..n]
}
