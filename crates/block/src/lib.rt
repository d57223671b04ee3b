// Blocks of 16 bytes: sums, padding, numbers. The AEZ paper's section 7, NOTATION, and document 01, "Blocks".
#![tactic(auto)]

ghost use Rattle.std.specs.Prelude.{◌≡◌, ◌<◌, length};
ghost use Rattle.paper.specs.Strings.{◌⊕◌, pad10*, number};

use std::array;

// a ⊕ b. Columns, rows and groups have the same of their own: one line each, and the contract of each says what its words mean.
pub fn xor(a: [u8; 16], b: [u8; 16]) -> [u8; 16]
    ensures { result ≡ a ⊕ b }
{
    array::from_fn(|i| a[i] ^ b[i])
}

// s10*, for a string of less than 16 bytes.
pub fn pad(s: &[u8]) -> [u8; 16]
    requires { length s.now < 16 }
    ensures { result ≡ pad10* s.now }
{
    let mut r = [0; 16];
    r[..s.len()].copy_from_slice(s);
    r[s.len()] = 128;
    r
}

// n as a block, high byte first.
pub fn number(n: u64) -> [u8; 16]
    ensures { result ≡ number n }
{
    u128::from(n).to_be_bytes()
}
