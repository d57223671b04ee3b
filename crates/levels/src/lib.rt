// 32 words turned over in place, by levels of exchanges: on the way of sixteen blocks to bit planes, and back (`planes`).
#![tactic(auto)]

ghost use Rattle.std.specs.Prelude.{◌≡◌, ◌<◌, length};
ghost use Rattle.paper.specs.Fips197.{bit};
ghost use Rattle.laws.proofs.WordBits.{word_of};
ghost use Rattle.laws.proofs.Exchange.{lower, upper};
ghost use Rattle.levels.specs.Levels.{near, far, turned};

use std::array::from_fn;

// The bits of a where m has a 1 change places with those of b that stand n above them.
fn exchanged(a: u64, b: u64, n: u32, m: u64) -> (u64, u64)
    requires { n < 64 }
    ensures { (result.0 ≡ word_of 64 (lower n m (bit a) (bit b))) × (result.1 ≡ word_of 64 (upper n m (bit a) (bit b))) }
{
    let t = ((b >> n) ^ a) & m;
    (a ^ t, b ^ (t << n))
}

// Four words, of which those that stand 2 apart exchange bits, and then neighbours.
fn near_four(x: [u64; 4]) -> [u64; 4]
    ensures { result ≡ near 4 x }
{
    let (a2, a0) = exchanged(x[2], x[0], 16, 0x0000_ffff_0000_ffff);
    let (a3, a1) = exchanged(x[3], x[1], 16, 0x0000_ffff_0000_ffff);
    let (b1, b0) = exchanged(a1, a0, 8, 0x00ff_00ff_00ff_00ff);
    let (b3, b2) = exchanged(a3, a2, 8, 0x00ff_00ff_00ff_00ff);
    [b0, b1, b2, b3]
}

// Eight words likewise: 4 apart, 2 apart, neighbours.
fn far_eight(x: [u64; 8]) -> [u64; 8]
    ensures { result ≡ far 8 1 x }
{
    let (a4, a0) = exchanged(x[4], x[0], 4, 0x0f0f_0f0f_0f0f_0f0f);
    let (a5, a1) = exchanged(x[5], x[1], 4, 0x0f0f_0f0f_0f0f_0f0f);
    let (a6, a2) = exchanged(x[6], x[2], 4, 0x0f0f_0f0f_0f0f_0f0f);
    let (a7, a3) = exchanged(x[7], x[3], 4, 0x0f0f_0f0f_0f0f_0f0f);
    let (b2, b0) = exchanged(a2, a0, 2, 0x3333_3333_3333_3333);
    let (b3, b1) = exchanged(a3, a1, 2, 0x3333_3333_3333_3333);
    let (b6, b4) = exchanged(a6, a4, 2, 0x3333_3333_3333_3333);
    let (b7, b5) = exchanged(a7, a5, 2, 0x3333_3333_3333_3333);
    let (c1, c0) = exchanged(b1, b0, 1, 0x5555_5555_5555_5555);
    let (c3, c2) = exchanged(b3, b2, 1, 0x5555_5555_5555_5555);
    let (c5, c4) = exchanged(b5, b4, 1, 0x5555_5555_5555_5555);
    let (c7, c6) = exchanged(b7, b6, 1, 0x5555_5555_5555_5555);
    [c0, c1, c2, c3, c4, c5, c6, c7]
}

// The levels between words that stand 2 and 1 apart, four neighbours in a turn.
fn near(w: &mut [u64])
    requires { length w.old ≡ 32 }
    ensures { w.new ≡ near 32 w.old }
{
    for i in 0..w.len() / 4 {
        let y = near_four(from_fn(|p| w[4 * i + p]));
        // (`copy_from_slice` is slower: it goes by way of the stack)
        for p in 0..4 {
            w[4 * i + p] = y[p];
        }
    }
}

// The levels between words that stand 16, 8 and 4 apart, eight words 4 apart in a turn.
fn far(w: &mut [u64])
    requires { length w.old ≡ 32 }
    ensures { w.new ≡ far 32 4 w.old }
{
    for i in 0..w.len() / 8 {
        let y = far_eight(from_fn(|p| w[i + 4 * p]));
        for p in 0..8 {
            w[i + 4 * p] = y[p];
        }
    }
}

// The words turned over, in place: bit 32 h + 8 c + d of word 4 a + b changes places with bit 32 h + 8 b + a of word 4 d + c. In a level words
// that stand a power of 2 apart exchange bits: one binary digit of the word's number changes places with the one of the bit's number that
// stands for n. After five levels all five have. The length is left to where this is called from, so that the compiler makes vectors of
// `far`.
pub fn turn(w: &mut [u64])
    requires { length w.old ≡ 32 }
    ensures { w.new ≡ turned w.old }
{
    near(w);
    far(w);
}
