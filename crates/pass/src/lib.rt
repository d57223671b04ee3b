// The passes of AEZ-core over the pairs of blocks: lines 226, 232 and 233 of Figure 5 of the AEZ paper, for one pair and for up to
// sixteen at a time. m is everywhere 0·J to 7·J, and keys the keys of a group.
#![tactic(auto)]

ghost use Rattle.std.specs.Prelude.{◌++◌, ◌≡◌, ◌+◌, ◌-◌, ◌*◌, ◌/◌, ◌<◌, ◌≤◌, length};
ghost use Rattle.paper.specs.Strings.{◌⊕◌, join};
ghost use Rattle.paper.specs.Section7.{two_to};
ghost use Rattle.paper.specs.Figure6.{row, k0, k1, k2, E};
ghost use Rattle.columns.specs.Columns.{columns_of, block_of};
ghost use Rattle.pairs.specs.Meaning.{first, row_of, Plain};
ghost use Rattle.tbc.specs.Meaning.{base, OfJ};
ghost use Rattle.groups.specs.Groups.{each, entry, AES4s, key_for, EndsInZero, Holds};
ghost use Rattle.pass.specs.Pairs.{first_x, first_pair, second_y, second_pair, summand, new_pair, pair_sum, paired, WholePairs, part_sum, part_paired, xors, taken, HoldsBeside, HoldsFor};

use columns::Columns;
use groups::Group;

// The two passes over the pairs of blocks: line 226, and lines 232 and 233, which take the sum S.
#[derive(Clone, Copy)]
pub enum Pass {
    First,
    Second([u8; 16]),
}

// A place of a pass: the number b of a pair, and the power of L for it, which the pass carries along. k and m are the key's.
#[derive(Clone, Copy)]
struct Place<'a> {
    k: tbc::Base,
    m: &'a [u32; 32],
    b: u32,
    power: Columns,
    ghost of_j: { OfJ k m.now },
    ghost from1: { 1 ≤ b },
    ghost carried: { power ≡ columns_of (two_to ((b - 1) / 8) (base k).L) },
}

impl Place<'_> {
    // The power of L for b + n.
    fn power_after(&self, n: u32) -> Columns
        requires { (self.now.b ≤ 65536) × (n ≤ 16) }
        ensures { result ≡ columns_of (two_to ((self.now.b + n - 1) / 8) (base self.now.k).L) }
    {
        let mut power = self.power;
        for at in self.b..self.b + n {
            // In two steps: a call's result laid in an array that changes is not covered by the check.
            let next = masks::next_power(at, power);
            power = next;
        }
        power
    }

    // E(x) at the pair (i, b), p being that of row i, which is 1 or 2.
    fn e(&self, p: pairs::Pair, x: [u8; 16]) -> [u8; 16]
        requires { (1 ≤ first p.row) × (first p.row ≤ 2) }
        ensures { result ≡ E (base self.now.k) (row_of p) self.now.b x }
    {
        tbc::e_running(self.k, self.m, p.at(self.b), self.power, x)
    }
}

// a ⊕ E(x) at the pair p.
pub fn added(k: tbc::Base, m: &[u32; 32], p: pairs::Pair, a: [u8; 16], x: [u8; 16]) -> [u8; 16]
    requires { (Plain (row_of p) p.number) × OfJ k m.now }
    ensures { result ≡ a ⊕ E (base k) (row_of p) p.number x }
{
    block::xor(a, tbc::e(k, m, p, x))
}

// Two blocks put into a part of 32 bytes.
pub fn put_two(part: &mut [u8], a: [u8; 16], b: [u8; 16])
    requires { length part.old ≡ 32 }
    ensures { part.new ≡ a ++ b }
{
    slices::store(part, 0, a);
    slices::store(part, 16, b);
}

// Line 226: a pair M_i M'_i becomes W_i X_i, and X_i is returned.
fn first_pair(at: &Place, part: &mut [u8]) -> [u8; 16]
    requires { length part.old ≡ 32 }
    ensures { (result ≡ first_x (E (base at.now.k)) at.now.b part.old) × (part.new ≡ first_pair (E (base at.now.k)) at.now.b part.old) }
{
    let left = slices::load(part, 0);
    let right = slices::load(part, 16);
    let w = block::xor(left, at.e(pairs::Pair::A_I, right));
    let x = added(at.k, at.m, pairs::Pair::A, right, w);
    put_two(part, w, x);
    x
}

// Lines 232 and 233: a pair W_i X_i becomes C_i C'_i, and Y_i is returned.
fn second_pair(at: &Place, sum: [u8; 16], part: &mut [u8]) -> [u8; 16]
    requires { length part.old ≡ 32 }
    ensures { (result ≡ second_y (E (base at.now.k)) sum at.now.b part.old) × (part.new ≡ second_pair (E (base at.now.k)) sum at.now.b part.old) }
{
    let s = at.e(pairs::Pair::AA_I, sum);
    let y = block::xor(slices::load(part, 0), s);
    let z = block::xor(slices::load(part, 16), s);
    let second = added(at.k, at.m, pairs::Pair::A, y, z);
    let first = block::xor(z, at.e(pairs::Pair::A_I, second));
    put_two(part, first, second);
    y
}

// One pair of a pass; what it adds to the pass's sum is returned.
fn one_pair(at: &Place, pass: Pass, part: &mut [u8]) -> [u8; 16]
    requires { length part.old ≡ 32 }
    ensures { (result ≡ summand (E (base at.now.k)) pass at.now.b part.old) × (part.new ≡ new_pair (E (base at.now.k)) pass at.now.b part.old) }
{
    match pass {
        Pass::First => first_pair(at, part),
        Pass::Second(sum) => second_pair(at, sum, part),
    }
}

// Pairs of blocks put into a part: the blocks of a at the left, those of b at the right. By index, since after a loop over the part's chunks
// a proof knows its length alone.
fn put_pairs(part: &mut [u8], a: &Group, b: &Group)
    requires { WholePairs part.old }
    ensures { part.new ≡ join (length part.old / 32) (λ i. block_of (entry a.now (i - 1)) ++ block_of (entry b.now (i - 1))) }
{
    for i in 0..part.len() / 32 {
        let at = 32 * i;
        let left = columns::to_block(a[i]);
        let right = columns::to_block(b[i]);
        put_two(&mut part[at..at + 32], left, right);
    }
}

// a ⊕ E(x) at the pair (0, 0), block by block.
fn added_each(keys: &groups::Keys, a: &Group, x: &Group) -> Group
    requires { EndsInZero keys.now }
    ensures { result ≡ xors a.now (AES4s (λ i. k0 (key_for keys.now i)) x.now) }
{
    groups::xor(a, &groups::under0(keys, x))
}

// a ⊕ E(x) at the pairs (1, b), (1, b + 1) and so on, block by block. masks are the masks of these numbers.
fn added_at_each(keys: &groups::Keys, masks: &Group, a: &Group, x: &Group) -> Group
    requires { EndsInZero keys.now }
    ensures { result ≡ xors a.now (AES4s (λ i. k1 (key_for keys.now i)) (xors x.now masks.now)) }
{
    groups::xor(a, &groups::under1(keys, &groups::xor(x, masks)))
}

// E(S) at the pairs (2, b), (2, b + 1) and so on. masks are the masks of these numbers.
fn sum_at_each(keys: &groups::Keys, masks: &Group, sum: [u8; 16]) -> Group
    ensures { result ≡ AES4s (λ i. k2 (key_for keys.now i)) (xors (each (λ i. columns_of sum)) masks.now) }
{
    let sums = [columns::of_block(sum); 16];
    groups::under2(keys, &groups::xor(&sums, masks))
}

// Line 226 for the pairs of a part: they become W_i X_i, and the sum of the X_i is returned. The first pair's number is b.
fn first_group(at: &Place, keys: &groups::Keys, part: &mut [u8]) -> [u8; 16]
    requires { (at.now.b ≤ 65536) × WholePairs part.old × Holds (base at.now.k) keys.now }
    ensures { (result ≡ part_sum (first_x (E (base at.now.k))) at.now.b part.old) × (part.new ≡ part_paired (first_pair (E (base at.now.k))) at.now.b part.old) }
{
    let left = groups::load(part, 0, 32);
    let right = groups::load(part, 16, 32);
    let masks = groups::masks(at.m, at.b, at.power);
    let w = added_at_each(keys, &masks, &left, &right);
    let x = added_each(keys, &right, &w);
    put_pairs(part, &w, &x);
    groups::sum(&x, part.len() / 32)
}

// Lines 232 and 233 likewise: the pairs W_i X_i become C_i C'_i, and the sum of the Y_i is returned.
fn second_group(at: &Place, keys: &groups::Keys, sum: [u8; 16], part: &mut [u8]) -> [u8; 16]
    requires { (at.now.b ≤ 65536) × WholePairs part.old × Holds (base at.now.k) keys.now }
    ensures { (result ≡ part_sum (second_y (E (base at.now.k)) sum) at.now.b part.old) × (part.new ≡ part_paired (second_pair (E (base at.now.k)) sum) at.now.b part.old) }
{
    let masks = groups::masks(at.m, at.b, at.power);
    let s = sum_at_each(keys, &masks, sum);
    let y = groups::xor(&groups::load(part, 0, 32), &s);
    let z = groups::xor(&groups::load(part, 16, 32), &s);
    let second = added_each(keys, &y, &z);
    let first = added_at_each(keys, &masks, &z, &second);
    put_pairs(part, &first, &second);
    groups::sum(&y, part.len() / 32)
}

// The pairs of a part as a group; what they add to the pass's sum is returned.
fn one_group(at: &Place, keys: &groups::Keys, pass: Pass, part: &mut [u8]) -> [u8; 16]
    requires { (at.now.b ≤ 65536) × WholePairs part.old × Holds (base at.now.k) keys.now }
    ensures { (result ≡ part_sum (summand (E (base at.now.k)) pass) at.now.b part.old) × (part.new ≡ part_paired (new_pair (E (base at.now.k)) pass) at.now.b part.old) }
{
    match pass {
        Pass::First => first_group(at, keys, part),
        Pass::Second(sum) => second_group(at, keys, sum, part),
    }
}

// The pairs of a part: one by itself, more as a group.
fn some_pairs(at: &Place, keys: &groups::Keys, pass: Pass, part: &mut [u8]) -> [u8; 16]
    requires { (at.now.b ≤ 65536) × WholePairs part.old × HoldsBeside part.old (base at.now.k) keys.now }
    ensures { (result ≡ part_sum (summand (E (base at.now.k)) pass) at.now.b part.old) × (part.new ≡ part_paired (new_pair (E (base at.now.k)) pass) at.now.b part.old) }
{
    if part.len() == 32 {
        one_pair(at, pass, part)
    } else {
        one_group(at, keys, pass, part)
    }
}

// Fewer pairs than this are taken one by one: a group costs about as much as three or four single blocks, however few of its blocks are
// asked for. The definition `fewest` is the same number.
const FEWEST: usize = 4;

// How many of the pairs that are left a turn of a pass takes.
fn taken(left: usize) -> usize
    ensures { result ≡ taken left }
{
    if left < FEWEST { 1 } else { left.min(16) }
}

// A pass over every pair, up to sixteen at a time: the first makes W_1 X_1 .. W_m X_m of M_1 M'_1 .. M_m M'_m and returns the sum of the
// X_i, the second makes C_1 C'_1 .. C_m C'_m of that, by the sum S, and returns the sum of the Y_i. The rest stays. The keys on planes are
// read where there are pairs for a group.
pub fn all_pairs(
    k: tbc::Base,
    m: &[u32; 32],
    keys: &groups::Keys,
    pass: Pass,
    s: &mut [u8],
) -> [u8; 16]
    requires { (32 ≤ length s.old) × (length s.old ≤ 65536) × OfJ k m.now × HoldsFor (length s.old) (base k) keys.now }
    ensures { (result ≡ pair_sum (summand (E (base k)) pass) s.old) × (s.new ≡ paired (new_pair (E (base k)) pass) s.old) }
{
    let mut total = [0u8; 16];
    let mut power = k.power();
    let mut b: u32 = 1;
    let mut at: usize = 0;
    // A turn's part is as long as `taken` says, so there is no range for a `for`; and after a loop over chunks that are lent to be written, a
    // proof knows the string's length alone.
    while 64 <= s.len() - at {
        let n = taken((s.len() - at) / 32 - 1);
        let end = at + 32 * n;
        let place = Place { k, m, b, power };
        let x = some_pairs(&place, keys, pass, &mut s[at..end]);
        // The sum and the power in two steps each, as in `power_after`.
        let more = block::xor(total, x);
        total = more;
        let next = place.power_after(n as u32);
        power = next;
        b += n as u32;
        at = end;
    }
    total
}
