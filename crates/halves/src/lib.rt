// The halves of a string of at most 31 bytes, Figure 5 of the AEZ paper, lines 214 and 217.
// A half of n bytes is n half-bytes. It is kept as a block of columns, which has them at its front and zeros behind them.
#![tactic(auto)]

ghost use Rattle.std.specs.Prelude.{◌≡◌, ◌+◌, ◌-◌, ◌*◌, ◌≤◌, ◌<◌, length, take, drop, get_or};
ghost use Rattle.paper.specs.Strings.{◌and◌};
ghost use Rattle.paper.specs.Figure5.{halves, joined};
ghost use Rattle.columns.specs.Columns.{columns_of, block_of};
ghost use Rattle.halves.specs.HalfBytes.{half_bytes, byte_of, whole_bytes};
ghost use Rattle.halves.specs.Blocks.{front, blocks_of, packed_both, firsts, front_column};

use columns::Columns;
use std::array::from_fn;

// L and R.
#[derive(Clone, Copy)]
pub struct Halves {
    pub l: Columns,
    pub r: Columns,
}

// Half-byte j of s.
fn half_byte(s: &[u8], j: usize) -> u8
    requires { j < 2 * length s.now }
    ensures { result ≡ get_or (half_bytes s.now) j 0 }
{
    let b = s[j / 2];
    if j % 2 == 0 { b / 16 } else { b % 16 }
}

// The byte of two half-bytes.
fn byte_of(h: u8, l: u8) -> u8
    ensures { result ≡ byte_of h l }
{
    h % 16 * 16 + l % 16
}

// The block of the 32 half-bytes of s from a place on.
fn part(s: &[u8], at: usize) -> [u8; 16]
    requires { (at ≤ 32) × (at + 32 ≤ 2 * length s.now) }
    ensures { result ≡ whole_bytes (take 32 (drop at (half_bytes s.now))) }
{
    from_fn(|i| byte_of(half_byte(s, at + 2 * i), half_byte(s, at + (2 * i + 1))))
}

// The half-bytes of a block.
fn unpack(x: [u8; 16]) -> [u8; 32]
    ensures { result ≡ half_bytes x }
{
    from_fn(|i| half_byte(&x, i))
}

// The bytes of the half-bytes h put into s.
fn put_bytes(s: &mut [u8], h: &[u8])
    requires { length h.now ≡ length s.old + length s.old }
    ensures { s.new ≡ whole_bytes h.now }
{
    for i in 0..s.len() {
        s[i] = byte_of(h[2 * i], h[2 * i + 1]);
    }
}

// The column whose first h half-bytes are ones.
fn front_column(h: usize) -> u32
    ensures { result ≡ front_column h }
{
    if 8 <= h {
        0xffff_ffff
    } else {
        0xffff_ffff ^ (0xffff_ffff >> ((4 * h) as u32))
    }
}

// The bits of a half of n half-bytes.
pub fn front(n: usize) -> Columns
    requires { n ≤ 31 }
    ensures { result ≡ columns_of (front n) }
{
    from_fn(|c| front_column(n.saturating_sub(8 * c)))
}

// a and b, bit by bit.
pub fn and(a: Columns, b: Columns) -> Columns
    ensures { result ≡ columns_of (block_of a and block_of b) }
{
    from_fn(|i| a[i] & b[i])
}

// Line 214: L and R of s, for the bits of a half of s.
pub fn halves_of(s: &[u8], bits: Columns) -> Halves
    requires { (length s.now ≤ 31) × (bits ≡ columns_of (front (length s.now))) }
    ensures { blocks_of result ≡ packed_both (halves (length s.now) (half_bytes s.now)) }
{
    let n = s.len();
    let mut x = [0u8; 32];
    slices::copy(&mut x, 0, s);
    let first = part(&x, 0);
    let second = part(&x, n);
    let a = columns::of_block(first);
    let l = and(a, bits);
    let r = columns::of_block(second);
    Halves { l, r }
}

// Line 217: R ‖ L put into s.
pub fn put_joined(t: Halves, s: &mut [u8])
    requires { length s.old ≤ 31 }
    ensures { s.new ≡ whole_bytes (joined (firsts (length s.old) (blocks_of t))) }
{
    let n = s.len();
    let columns_r = t.r;
    let columns_l = t.l;
    let block_r = columns::to_block(columns_r);
    let block_l = columns::to_block(columns_l);
    let r = unpack(block_r);
    let l = unpack(block_l);
    let mut h = [0u8; 64];
    slices::copy(&mut h, 0, &r[..n]);
    slices::copy(&mut h, n, &l[..n]);
    let m = n + n;
    put_bytes(s, &h[..m]);
}
