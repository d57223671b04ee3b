// Encrypting and decrypting under a Delta: which strings go to the prf, to AEZ-tiny and to AEZ-core.
// Lines 100 to 115 and 200 to 202 of Figure 5 of the AEZ paper; document 01, "Which branch".
#![tactic(auto)]

ghost use Rattle.std.specs.Prelude.{◌≡◌, ◌-◌, ◌≤◌, length, replicate};
ghost use Rattle.paper.specs.Figure6.{E};
ghost use Rattle.key.specs.Meaning.{blocks};
ghost use Rattle.cipher.specs.Under.{ciphered, encrypt_under, decrypt_under, opens, leaves};

use wide::Way;

// Lines 200 to 202, either way.
fn cipher_in_place(k: key::Key, delta: [u8; 16], way: Way, s: &mut [u8])
    requires { (1 ≤ length s.old) × (length s.old ≤ 65536) }
    ensures { s.new ≡ ciphered way (E (blocks k)) delta s.old }
{
    if s.len() >= 32 {
        wide::core_in_place(k, delta, way, s)
    } else {
        match way {
            Way::Encipher => tiny::encipher(k, delta, s),
            Way::Decipher => tiny::decipher(k, delta, s),
        }
    }
}

// Lines 100 to 103, put into out, which is longer than the text by the stretch.
pub fn encrypt(k: key::Key, delta: [u8; 16], text: &[u8], out: &mut [u8])
    requires { (length text.now ≤ length out.old) × (length out.old ≤ 65536) × (length out.old - length text.now ≤ 64) }
    ensures { out.new ≡ encrypt_under (E (blocks k)) delta (length out.old - length text.now) text.now }
{
    if text.is_empty() {
        hash::prf(k, delta, out)
    } else {
        let n = text.len();
        slices::copy(out, 0, text);
        out[n..].fill(0);
        cipher_in_place(k, delta, Way::Encipher, out)
    }
}

// Lines 112 and 113: a sealed string of the stretch's length, which only the empty text can seal to. out, as long, ends as zeros, whether the
// check held or not.
fn decrypt_empty(k: key::Key, delta: [u8; 16], sealed: &[u8], out: &mut [u8]) -> bool
    requires { (length sealed.now ≡ length out.old) × (length out.old ≤ 64) }
    ensures { (result ≡ opens (decrypt_under (E (blocks k)) delta (length sealed.now) sealed.now)) × (out.new ≡ replicate (length out.old) 0) }
{
    hash::prf(k, delta, out);
    let right = slices::same_bytes(sealed, out);
    out.fill(0);
    right
}

// Lines 110 to 115, put into out, which is as long as the sealed string: the text and as many zeros as the stretch, or zeros where the
// check fails. Whether it held is returned.
pub fn decrypt(k: key::Key, delta: [u8; 16], stretch: usize, sealed: &[u8], out: &mut [u8]) -> bool
    requires { (length sealed.now ≡ length out.old) × (length out.old ≤ 65536) × (stretch ≤ length out.old) × (stretch ≤ 64) }
    ensures { (result ≡ opens (decrypt_under (E (blocks k)) delta stretch sealed.now)) × (out.new ≡ leaves (decrypt_under (E (blocks k)) delta stretch sealed.now) stretch (length sealed.now)) }
{
    let n = sealed.len();
    if n == stretch {
        return decrypt_empty(k, delta, sealed, out);
    }
    slices::copy(out, 0, sealed);
    cipher_in_place(k, delta, Way::Decipher, out);
    // Every byte is compared, whatever is found (`slices`), so that the time does not tell where they differ.
    if slices::same_bytes(&out[n - stretch..], &[0u8; 64][..stretch]) {
        return true;
    }
    out.fill(0);
    false
}
