// Sixteen blocks at once on bit planes: their bits are moved there and back. On planes a round of AES works on all blocks by the same few
// operations on words, and no address depends on a byte.
#![tactic(auto)]

ghost use Rattle.std.specs.Prelude.{[], map, ◌≡◌, ◌<◌, get_or};
ghost use Rattle.paper.specs.Fips197.{bit};
ghost use Rattle.laws.proofs.WordBits.{word_of};
ghost use Rattle.levels.specs.Levels.{turned};
ghost use Rattle.columns.specs.Columns.{block_of};
ghost use Rattle.planes.specs.Planes.{plane_blocks, joined_bit, group_words, columns_in, group_of, spread_bit, copied, up_to};

use columns::Columns;
use std::array::from_fn;

// Sixteen blocks on planes: word 4 p + j has bit p of each byte of row 3 - j.
pub type Planes = [u64; 32];

// The column x, and above it the column y.
fn joined(x: u32, y: u32) -> u64
    ensures { result ≡ word_of 64 (joined_bit (bit x) (bit y)) }
{
    u64::from(x) ^ (u64::from(y) << 32)
}

// The words of sixteen blocks: word 4 i + 2 c + e has column c of block 2 i + e, and above it column c + 2. `array::from_fn` by that formula is
// slower: the compiler does not unroll its 32 turns.
fn words(g: &[Columns; 16]) -> Planes
    ensures { result ≡ group_words g.now }
{
    let mut r = [0; 32];
    for i in 0..8 {
        let x = g[2 * i];
        let y = g[2 * i + 1];
        r[4 * i] = joined(x[0], x[2]);
        r[4 * i + 1] = joined(y[0], y[2]);
        r[4 * i + 2] = joined(x[1], x[3]);
        r[4 * i + 3] = joined(y[1], y[3]);
    }
    r
}

// The columns of a block, by the two words that have them.
fn columns_in(x: u64, y: u64) -> Columns
    ensures { result ≡ columns_in x y }
{
    [
        (x & 0xffff_ffff) as u32,
        (y & 0xffff_ffff) as u32,
        (x >> 32) as u32,
        (y >> 32) as u32,
    ]
}

// The sixteen blocks of their words. (By `array::from_fn` the closure would need its contract written out, since it makes an array.)
fn blocks(w: Planes) -> [Columns; 16]
    ensures { result ≡ group_of w }
{
    let mut r = [[0; 4]; 16];
    for b in 0..16 {
        let at = b / 2 * 4 + b % 2;
        r[b] = columns_in(w[at], w[at + 2]);
    }
    r
}

// Sixteen blocks on planes. The first equation says which blocks stand there, and the second which words they make.
pub fn of_blocks(g: &[Columns; 16]) -> Planes
    ensures { (plane_blocks result ≡ map (λ b. block_of (get_or g.now b [])) (up_to 16)) × (result ≡ turned (group_words g.now)) }
{
    let mut w = words(g);
    levels::turn(&mut w);
    w
}

// The sixteen blocks that stand on planes, and which columns they are.
pub fn to_blocks(q: Planes) -> [Columns; 16]
    ensures { (map block_of result ≡ plane_blocks q) × (result ≡ group_of (turned q)) }
{
    let mut w = q;
    levels::turn(&mut w);
    blocks(w)
}

// Bit n of x and of y and the bits that stand 32 above them, each sixteen times.
fn spread(x: u64, y: u64, n: usize) -> u64
    requires { n < 32 }
    ensures { result ≡ word_of 64 (spread_bit (bit x) (bit y) n) }
{
    let low = (x >> n) & 0x0000_0001_0000_0001;
    let high = (y >> n) & 0x0000_0001_0000_0001;
    (low ^ (high << 16)) * 65535
}

// One block in each of the sixteen places. A key serves all blocks of a group: this takes a quarter of the time of sixteen copies.
pub fn copies(s: Columns) -> Planes
    ensures { (plane_blocks result ≡ map (λ b. block_of s) (up_to 16)) × (result ≡ copied s) }
{
    let x = joined(s[0], s[2]);
    let y = joined(s[1], s[3]);
    from_fn(|i| spread(x, y, 8 * (i % 4) + i / 4))
}
