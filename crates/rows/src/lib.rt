// The steps of an AES round on a row of FIPS 197's state, of many blocks at once: 64 bytes on bit planes, eight words of which word p has
// bit p of each byte (`circuit/specs/Planes`).
#![tactic(auto)]

ghost use Rattle.std.specs.Prelude.{◌≡◌, ◌<◌};
ghost use Rattle.rows.specs.Rows.{turned_row, xor_row, doubled_row, mixed_row};

use std::array::from_fn;

// A row on planes.
pub type Row = [u64; 8];

// A row turned right by n bits.
pub fn turned(a: Row, n: u32) -> Row
    requires n_nonzero { 0 < n }
    requires n_bound { n < 64 }
    ensures { result ≡ turned_row a n }
{
    from_fn(|p| a[p].rotate_right(n))
}

// a ⊕ b, as `block::xor` has it of bytes: one function for both would say of neither what its words mean.
fn xor(a: Row, b: Row) -> Row
    ensures { result ≡ xor_row a b }
{
    from_fn(|p| a[p] ^ b[p])
}

// Each byte of a row by 2: the planes move up by one, and the highest goes to the planes of 1b.
fn doubled(a: Row) -> Row
    ensures { result ≡ doubled_row a }
{
    let h = a[7];
    [h, a[0] ^ h, a[1], a[2] ^ h, a[3] ^ h, a[4], a[5], a[6]]
}

// MixColumns for row a, with the rows b, c and d below it. 2(a ⊕ b) ⊕ b is 2a ⊕ 3b.
#[tactic(auto, unfolding(crate::specs::Rows::mixed_row))]
pub fn mixed(a: Row, b: Row, c: Row, d: Row) -> Row
    ensures { result ≡ mixed_row a b c d }
{
    xor(xor(doubled(xor(a, b)), b), xor(c, d))
}
