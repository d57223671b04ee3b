// AEZ-tiny of Figure 5 of the AEZ paper, lines 210 to 218: strings of 1 to 31 bytes, enciphered and deciphered in place.
// m is everywhere 0·J to 7·J, taken out of the key once.
#![tactic(auto)]

ghost use Rattle.std.specs.Prelude.{◌≡◌, ◌*◌, ◌≤◌, length};
ghost use Rattle.paper.specs.Strings.{◌⊕◌};
ghost use Rattle.paper.specs.Section7.{◌·◌};
ghost use Rattle.paper.specs.Figure6.{row, E};
ghost use Rattle.paper.specs.Figure5.{tiny_index, encipher_tiny, decipher_tiny};
ghost use Rattle.columns.specs.Columns.{columns_of};
ghost use Rattle.pairs.specs.Meaning.{pair_of};
ghost use Rattle.tbc.specs.Meaning.{base, OfJ, masked0};
ghost use Rattle.key.specs.Meaning.{blocks};
ghost use Rattle.tiny.specs.OnBytes.{mark, last_bytes};

use columns::Columns;

// Line 214: the index pair of the rounds for n bytes.
fn pair_for(n: usize) -> pairs::Pair
    ensures { result ≡ pair_of (row 0) (tiny_index (8 * n)) }
{
    if 16 <= n {
        pairs::Pair::TINY
    } else {
        pairs::Pair::TINY_SHORT
    }
}

// Line 216: the 1 bit of R10*, for n half-bytes R.
fn mark(n: usize) -> Columns
    requires { n ≤ 31 }
    ensures { result ≡ columns_of (mark n) }
{
    let mut x = [0u32; 4];
    x[n / 8] = 0x8000_0000 >> ((4 * (n % 8)) as u32);
    x
}

// Line 216: the keys of AES4 for the turns on n bytes. What is the same in each turn, Delta and the 1 bit of R10*, is in the first.
fn keys_for(k: tbc::Base, m: &[u32; 32], delta: [u8; 16], n: usize) -> [Columns; 5]
    requires { (n ≤ 31) × OfJ k m.now }
    ensures { result ≡ masked0 k (columns_of ((delta ⊕ mark n) ⊕ tiny_index (8 * n) · (base k).J)) }
{
    let p = pair_for(n);
    let fixed = columns::xor(columns::of_block(delta), mark(n));
    tbc::keys_adding(k, m, p, fixed)
}

// Line 217, its `if`: the first bit of a string of less than 16 bytes.
fn last_step(k: tbc::Base, m: &[u32; 32], delta: [u8; 16], s: &mut [u8])
    requires { (1 ≤ length s.old) × OfJ k m.now }
    ensures { s.new ≡ last_bytes (E (base k)) delta s.old }
{
    let short = s.len() < 16;
    if short {
        let mut x = [0; 16];
        slices::copy(&mut x, 0, s);
        x[0] |= 128;
        let e = tbc::e(k, m, pairs::Pair::TINY_LAST, block::xor(delta, x));
        s[0] ^= e[0] & 128;
    }
}

// Lines 210 to 218.
pub fn encipher(k: key::Key, delta: [u8; 16], s: &mut [u8])
    requires { (1 ≤ length s.old) × (length s.old ≤ 31) }
    ensures { s.new ≡ encipher_tiny (E (blocks k)) delta s.old }
{
    let b = k.base();
    let m = k.multiples();
    let n = s.len();
    let keys = keys_for(b, &m, delta, n);
    let bits = halves::front(n);
    let t = turns::turns_up(&keys, bits, n, halves::halves_of(s, bits));
    halves::put_joined(t, s);
    last_step(b, &m, delta, s);
}

// Lines 210 to 218 when deciphering: the `if` of line 217 comes first, and the turns count down. With another order of steps and another
// definition, `decipher_tiny`, one function for both would be no plainer.
pub fn decipher(k: key::Key, delta: [u8; 16], s: &mut [u8])
    requires { (1 ≤ length s.old) × (length s.old ≤ 31) }
    ensures { s.new ≡ decipher_tiny (E (blocks k)) delta s.old }
{
    let b = k.base();
    let m = k.multiples();
    let n = s.len();
    last_step(b, &m, delta, s);
    let keys = keys_for(b, &m, delta, n);
    let bits = halves::front(n);
    let t = turns::turns_down(&keys, bits, n, halves::halves_of(s, bits));
    halves::put_joined(t, s);
}
