// The AES round of FIPS 197, and AES4 and AES10 of the AEZ paper's section 7. The last round keeps its MixColumns.
// The state is on crossed words (`sub_bytes`) for all rounds: it is crossed once before them and once after them, and not for each SubBytes.
#![tactic(auto)]

ghost use Rattle.std.specs.Prelude.{◌≡◌, ◌≤◌, length};
ghost use Rattle.paper.specs.Fips197.{bit, MixColumns};
ghost use Rattle.paper.specs.Section7.{aesenc, AES};
ghost use Rattle.laws.proofs.WordBits.{word_of};
ghost use Rattle.columns.specs.Columns.{columns_of, block_of};
ghost use Rattle.sub_bytes.specs.Planes.{crossed_bytes};
ghost use Rattle.aes.specs.Steps.{picked_bit, shifted_word, below_words, doubled_words, keys_of};

use columns::Columns;
use std::array::from_fn;

// The bits of b where m has a 1, and those of a elsewhere.
fn picked(a: u32, b: u32, m: u32) -> u32
    ensures { result ≡ word_of 32 (picked_bit m (bit a) (bit b)) }
{
    a ^ ((b ^ a) & m)
}

// ShiftRows of a crossed word: a half-byte of row r is turned by r places. Rows 1 and 3 are turned by one, then rows 2 and 3 by two.
fn shifted(x: u32) -> u32
    ensures { result ≡ shifted_word x }
{
    let a = picked(x, x >> 1, 0x0077_0077);
    let b = picked(a, x << 3, 0x0088_0088);
    let c = picked(b, b >> 2, 0x0000_3333);
    picked(c, b << 2, 0x0000_cccc)
}

// The row below, in the place of each row.
fn below(t: Columns) -> Columns
    ensures { result ≡ below_words t }
{
    from_fn(|w| t[w].rotate_left(8))
}

// Each byte by 2: bit 7, the high half-bytes of the last word, comes into bits 0, 1, 3 and 4.
fn doubled(p: Columns) -> Columns
    ensures { result ≡ doubled_words p }
{
    let lost = (p[3] >> 4) & 0x0f0f_0f0f;
    [
        lost ^ (((p[3] << 4) ^ p[3]) & 0xf0f0_f0f0),
        p[0] ^ lost,
        p[1],
        p[2] ^ lost,
    ]
}

// MixColumns: a byte becomes 2 of itself and the one below it, and the three below it. 2(a ⊕ b) ⊕ b is 2a ⊕ 3b.
fn mixed(t: Columns) -> Columns
    ensures { crossed_bytes result ≡ MixColumns (crossed_bytes t) }
{
    let pairs = columns::xor(t, below(t));
    let triples = columns::xor(t, below(pairs));
    columns::xor(doubled(pairs), below(triples))
}

// One round: SubBytes, ShiftRows, MixColumns, and the key added.
fn aesenc(s: Columns, k: &Columns) -> Columns
    ensures { crossed_bytes result ≡ aesenc (crossed_bytes s) (crossed_bytes k.now) }
{
    let t = sub_bytes::sub_bytes(s);
    let m = mixed(from_fn(|w| shifted(t[w])));
    columns::xor(m, *k)
}

// The first key added, and a round for each that follows it: AES4 under five keys, AES10 under eleven. Both share this one loop, so that the
// compiler puts the round into its body and the state stays in registers. The first key is columns, for it is added before the state is
// crossed; the others are crossed already: a caller has them for many blocks. The block is columns and stays so: a caller that goes on from
// it spares both conversions.
pub fn aes_columns(k: &[Columns], x: Columns) -> Columns
    requires { 1 ≤ length k.now }
    ensures { result ≡ columns_of (AES (keys_of k.now) (block_of x)) }
{
    let first = sub_bytes::crossed(columns::xor(x, k[0]));
    let last = k[1..].iter().fold(first, aesenc);
    sub_bytes::crossed(last)
}

// The same of a block of bytes.
pub fn aes(k: &[Columns], x: [u8; 16]) -> [u8; 16]
    requires { 1 ≤ length k.now }
    ensures { result ≡ AES (keys_of k.now) x }
{
    columns::to_block(aes_columns(k, columns::of_block(x)))
}
