// Building the log header. Document 01, "Headers", and request E2.
#![tactic(auto)]

ghost use Rattle.std.specs.Prelude.{[], ◌∷◌, ◌≡◌, ◌+◌, ◌≤◌, length};
ghost use Rattle.paper.specs.Document01.{write_strings, log_header, building_log_header};
ghost use Rattle.answer.specs.Outcomes.{outcome};
ghost use Rattle.laws.specs.Placing.{placed};
ghost use Rattle.builder.specs.Building.{too_long, settled_as};

use answer::Refusal;

// Whether an item is longer than a string of a header may be.
fn too_long(nonce: &[u8], host: &[u8], collector: &[u8], locale: &[u8]) -> bool
    ensures { result ≡ too_long nonce.now host.now collector.now locale.now }
{
    1024 < nonce.len() || 1024 < host.len() || 1024 < collector.len() || 1024 < locale.len()
}

// How many bytes a string takes with its length in front.
fn room(s: &[u8]) -> usize
    requires { length s.now ≤ 1024 }
    ensures { (result ≡ length (write_strings (s.now ∷ []))) × (result ≤ 1026) }
{
    2 + s.len()
}

// The length of the log header, its count byte included.
fn log_length(nonce: &[u8], host: &[u8], collector: &[u8], locale: &[u8]) -> usize
    requires { (length nonce.now ≤ 1024) × (length host.now ≤ 1024) × (length collector.now ≤ 1024) × (length locale.now ≤ 1024) }
    ensures { result ≡ length (log_header nonce.now host.now collector.now locale.now) }
{
    1 + room(nonce) + room(host) + room(collector) + room(locale)
}

// A string put at a place of out with its length in front, high byte first. The place after it is returned.
pub fn put(out: &mut [u8], at: usize, s: &[u8]) -> usize
    requires { at + 2 + length s.now ≤ length out.old }
    ensures { (result ≡ at + length (write_strings (s.now ∷ []))) × (out.new ≡ placed at (write_strings (s.now ∷ [])) out.old) }
{
    let size = s.len();
    numbers::put::<2>(out, at, size);
    slices::copy(out, at + 2, s);
    at + 2 + size
}

// The log header put first in out: the count, and all four items, one without bytes as a string of length 0 (request E2).
fn put_log(nonce: &[u8], host: &[u8], collector: &[u8], locale: &[u8], out: &mut [u8])
    requires { length (log_header nonce.now host.now collector.now locale.now) ≤ length out.old }
    ensures { out.new ≡ placed 0 (log_header nonce.now host.now collector.now locale.now) out.old }
{
    out[0] = 4;
    let second = put(out, 1, nonce);
    let third = put(out, second, host);
    let fourth = put(out, third, collector);
    put(out, fourth, locale);
}

// The log header's length, or what the builder refuses for a room of so many bytes: an item that is too long, then a room that is too short.
fn settled(
    nonce: &[u8],
    host: &[u8],
    collector: &[u8],
    locale: &[u8],
    bytes: usize,
) -> Result<usize, Refusal>
    ensures { result ≡ settled_as nonce.now host.now collector.now locale.now bytes }
{
    if too_long(nonce, host, collector, locale) {
        return Err(Refusal::LongItem);
    }
    let size = log_length(nonce, host, collector, locale);
    if bytes < size {
        return Err(Refusal::NoRoom);
    }
    Ok(size)
}

// The log header: its length. Nothing is written before the answer is settled.
pub fn log_header(
    nonce: &[u8],
    host: &[u8],
    collector: &[u8],
    locale: &[u8],
    out: &mut [u8],
) -> Result<usize, Refusal>
    ensures { outcome result out.new ≡ building_log_header nonce.now host.now collector.now locale.now out.old }
{
    let size = settled(nonce, host, collector, locale, out.len())?;
    put_log(nonce, host, collector, locale, out);
    Ok(size)
}
