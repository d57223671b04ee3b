// A block as four columns of the state of FIPS 197, section 3.4, each one number of 32 bits: made of a block, made a block again, summed and
// doubled. Sums and doubles are the AEZ paper's, section 7, NOTATION.
#![tactic(auto)]

ghost use Rattle.std.specs.Prelude.{◌≡◌, ◌<◌};
ghost use Rattle.paper.specs.Strings.{◌⊕◌};
ghost use Rattle.paper.specs.Section7.{double};
ghost use Rattle.columns.specs.Columns.{column, columns_of, block_of};

use std::array;

// A block of columns.
pub type Columns = [u32; 4];

// The column of four bytes.
pub fn column(a: u8, b: u8, c: u8, d: u8) -> u32
    ensures { result ≡ column a b c d }
{
    u32::from_be_bytes([a, b, c, d])
}

// The columns of a block.
pub fn of_block(x: [u8; 16]) -> Columns
    ensures { result ≡ columns_of x }
{
    array::from_fn(|c| column(x[4 * c], x[4 * c + 1], x[4 * c + 2], x[4 * c + 3]))
}

// The block of four columns.
pub fn to_block(s: Columns) -> [u8; 16]
    ensures { result ≡ block_of s }
{
    array::from_fn(|i| s[i / 4].to_be_bytes()[i % 4])
}

// a ⊕ b, as `block::xor` has it of bytes: one function for both would say of neither what its words mean.
pub fn xor(a: Columns, b: Columns) -> Columns
    ensures { result ≡ columns_of (block_of a ⊕ block_of b) }
{
    array::from_fn(|i| a[i] ^ b[i])
}

// 2·x: each column shifted left, with the first bit of the next; the first bit of all brings 135 into the last.
pub fn double(x: Columns) -> Columns
    ensures { result ≡ columns_of (double (block_of x)) }
{
    let [a, b, c, d] = x;
    [
        (a << 1) ^ (b >> 31),
        (b << 1) ^ (c >> 31),
        (c << 1) ^ (d >> 31),
        (d << 1) ^ ((a >> 31) * 135),
    ]
}
