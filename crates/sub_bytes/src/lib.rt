// SubBytes of FIPS 197 by a fixed sequence of operations and with no table: no address depends on a byte of the state. The state is four
// crossed words (`specs/Planes`), which `crossed` makes of four columns, and of which it makes columns again. Their half-bytes are planes,
// eight words of which word j has bit j of each byte; there the circuit of Boyar and Peralta works on all bytes at once (`circuit`).
#![tactic(auto)]

ghost use Rattle.std.specs.Prelude.{◌≡◌, ◌<◌};
ghost use Rattle.paper.specs.Fips197.{bit, SubBytes};
ghost use Rattle.laws.proofs.WordBits.{word_of};
ghost use Rattle.laws.proofs.Exchange.{lower, upper};
ghost use Rattle.sub_bytes.specs.Planes.{crossed, joined_bit, plane_bytes, planes_of, crossed_bytes};

use columns::Columns;
use std::array::from_fn;

// The bits of a where m has a 1 change places with those of b that stand n above them. `levels` has the same on words of 64 bits: one for both
// would have to be generic over four operators and what each of them gives, and that is no plainer.
fn exchanged(a: u32, b: u32, n: u32, m: u32) -> (u32, u32)
    requires { n < 32 }
    ensures { (result.0 ≡ word_of 32 (lower n m (bit a) (bit b))) × (result.1 ≡ word_of 32 (upper n m (bit a) (bit b))) }
{
    let t = ((b >> n) ^ a) & m;
    (a ^ t, b ^ (t << n))
}

// Four words turned over in each half-byte: bit w of a half-byte of word v and bit v of that half-byte of word w change places. First single
// bits go over, between words 0 and 1 and between 2 and 3; then pairs of bits, between 0 and 2 and between 1 and 3. Of columns this makes
// crossed words, and of crossed words columns (`proofs/States`).
pub fn crossed(s: Columns) -> Columns
    ensures { result ≡ crossed s }
{
    let (p1, p0) = exchanged(s[1], s[0], 1, 0x5555_5555);
    let (p3, p2) = exchanged(s[3], s[2], 1, 0x5555_5555);
    let (u2, u0) = exchanged(p2, p0, 2, 0x3333_3333);
    let (u3, u1) = exchanged(p3, p1, 2, 0x3333_3333);
    [u0, u1, u2, u3]
}

// The planes of a state on crossed words.
fn planes(w: Columns) -> [u64; 8]
    ensures { result ≡ planes_of w }
{
    let [a, b, c, d] = w.map(u64::from);
    [a, b, c, d, a >> 4, b >> 4, c >> 4, d >> 4]
}

// The low half-bytes of a, and those of b as the high ones.
fn joined(a: u32, b: u32) -> u32
    ensures { result ≡ word_of 32 (joined_bit (bit a) (bit b)) }
{
    a ^ (((b << 4) ^ a) & 0xf0f0_f0f0)
}

// The lower halves of the planes, in which the bytes stand.
fn low_halves(q: [u64; 8]) -> [u32; 8]
    ensures { plane_bytes result ≡ plane_bytes q }
{
    from_fn(|j| (q[j] % 4294967296) as u32)
}

// The crossed words of a state on planes.
fn words(q: [u32; 8]) -> Columns
    ensures { crossed_bytes result ≡ plane_bytes q }
{
    from_fn(|w| joined(q[w], q[w + 4]))
}

// Each byte of a state on crossed words by the S-box.
pub fn sub_bytes(w: Columns) -> Columns
    ensures { crossed_bytes result ≡ SubBytes (crossed_bytes w) }
{
    let q = planes(w);
    let r = circuit::circuit(q);
    words(low_halves(r))
}
