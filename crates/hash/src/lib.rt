// AEZ-hash and AEZ-prf of Figure 6 of the AEZ paper: what a record is bound to, and the sealed string of the empty text.
#![tactic(auto)]

ghost use Rattle.std.specs.Prelude.{◌≡◌, ◌≤◌, length};
ghost use Rattle.paper.specs.Figure6.{E, prf_from};
ghost use Rattle.paper.specs.Document01.{read_header};
ghost use Rattle.key.specs.Meaning.{blocks};
ghost use Rattle.hash.specs.Delta.{delta_of};
ghost use Rattle.hash.specs.Fitted.{fitted};

use answer::StretchBits;

// Lines 300 to 307: Δ of the tweak that holds the stretch and the strings of a header, or zero for a header that does not read. One walk
// tests the entries and hashes their strings, each of which is lent from where it begins in the header.
pub fn delta(k: key::Key, stretch: StretchBits, h: &[u8]) -> [u8; 16]
    ensures { result ≡ delta_of (E (blocks k)) stretch.0 (read_header h.now) }
{
    let Ok(count) = header::count(h) else {
        return [0; 16];
    };
    let b = k.base();
    let m = k.multiples();
    let mut sum = strings::Sum::nothing();
    let bits = block::number(stretch.0);
    sum.add_string(k, b, &m, 1, &bits);
    let mut at = 1;
    for i in 0..count {
        let Some(place) = header::entry(h, at) else {
            return [0; 16];
        };
        sum.add_string(k, b, &m, i as u32 + 2, &h[place.start..place.end]);
        at = place.end;
    }
    let ends = at == h.len();
    if ends { sum.hashed(b) } else { [0; 16] }
}

// As many bytes of y as s has room for, at the front of s.
#[tactic(auto, unfolding(crate::specs::Fitted::fitted))]
fn put_front(s: &mut [u8], y: [u8; 16])
    ensures { s.new ≡ fitted s.old y }
{
    let n = s.len().min(16);
    s[..n].copy_from_slice(&y[..n]);
}

// Line 312: out is filled with the blocks E(Δ), E(Δ ⊕ [1]), .., the last one cut.
pub fn prf(k: key::Key, delta: [u8; 16], out: &mut [u8])
    requires { length out.old ≤ 64 }
    ensures { out.new ≡ prf_from (E (blocks k)) delta (length out.old) }
{
    let b = k.base();
    let m = k.multiples();
    for i in 0..out.len().div_ceil(16) {
        let number = block::number(i as u64);
        let y = tbc::e(b, &m, pairs::Pair::PRF, block::xor(delta, number));
        put_front(&mut out[16 * i..], y);
    }
}
