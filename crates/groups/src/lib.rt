// Sixteen blocks at a time: sums, the masks of E for numbers that follow each other, and AES4 under the lists of keys of Figure 6 of the
// AEZ paper.
#![tactic(auto)]

ghost use Rattle.std.specs.Prelude.{◌≡◌, ◌+◌, ◌-◌, ◌*◌, ◌≤◌, ◌<◌, length};
ghost use Rattle.paper.specs.Strings.{◌⊕◌, sum};
ghost use Rattle.paper.specs.Figure6.{k0, k1, k2};
ghost use Rattle.columns.specs.Columns.{columns_of, block_of};
ghost use Rattle.tbc.specs.Meaning.{base};
ghost use Rattle.groups.specs.Groups.{each, entry, loaded, AES4s, mask_from, five_keys, key_for, EndsInZero, Holds, keys_of};

use columns::Columns;
use planes::Planes;

// Sixteen blocks of columns.
pub type Group = [Columns; 16];

// I, J and L on planes, and the zero key, with which k0 and k1 of lines 402 and 403 end.
pub type Keys = [Planes; 4];

// a ⊕ b, block by block.
pub fn xor(a: &Group, b: &Group) -> Group
    ensures { result ≡ each (λ i. columns_of (block_of (entry a.now i) ⊕ block_of (entry b.now i))) }
{
    let mut r = [[0; 4]; 16];
    for i in 0..16 {
        r[i] = columns::xor(a[i], b[i]);
    }
    r
}

// The block at a place, or zeros where s ends before it does.
fn one_block(s: &[u8], at: usize) -> Columns
    requires { at ≤ 65536 }
    ensures { result ≡ loaded s.now at }
{
    if s.len() < at + 16 {
        [0; 4]
    } else {
        columns::of_block(slices::load(s, at))
    }
}

// Blocks that stand `step` bytes apart, from `at` on. Where s ends before a block does, the group has zeros.
pub fn load(s: &[u8], at: usize, step: usize) -> Group
    requires { (1 ≤ step) × (step ≤ 32) × (at ≤ 32) × (length s.now ≤ 65536) }
    ensures { result ≡ each (λ i. loaded s.now (at + i * step)) }
{
    let mut r = [[0; 4]; 16];
    for i in 0..16 {
        r[i] = one_block(s, at + i * step);
    }
    r
}

// The sum of the first n blocks.
pub fn sum(g: &Group, n: usize) -> [u8; 16]
    requires { n ≤ 16 }
    ensures { result ≡ sum n (λ i. block_of (entry g.now (i - 1))) }
{
    let mut total = [0; 4];
    for block in &g[..n] {
        // (a call's result cannot yet be laid in an array that is there already: it goes by way of a new one)
        let more = columns::xor(total, *block);
        total = more;
    }
    columns::to_block(total)
}

// The masks of the numbers b to b + 15. power is the power of L for b.
pub fn masks(m: &[u32; 32], b: u32, power: Columns) -> Group
    requires { (1 ≤ b) × (b + 16 < 4294967296) }
    ensures { result ≡ each (λ i. columns_of (mask_from m.now b power i)) }
{
    let mut r = [[0; 4]; 16];
    let mut p = power;
    for i in 0..16 {
        r[i as usize] = masks::running_mask(m, b + i, p);
        // (as in `sum`)
        let next = masks::next_power(b + i, p);
        p = next;
    }
    r
}

// I, J and L on planes, for every block of a group, and zero. The first equation says which keys these are, and the second which words they make.
pub fn keys(k: tbc::Base) -> Keys
    ensures { (Holds (base k) result) × (result ≡ keys_of (base k)) }
{
    let [i, j, l] = k.blocks();
    [
        planes::copies(i),
        planes::copies(j),
        planes::copies(l),
        [0; 32],
    ]
}

// AES4 of each block, on planes. The first key is zero: masks are added before.
fn aes4(k1: &Planes, k2: &Planes, k3: &Planes, k4: &Planes, g: &Group) -> Group
    ensures { result ≡ AES4s (five_keys k1.now k2.now k3.now k4.now) g.now }
{
    let q = planes::of_blocks(g);
    let r = sixteen::rounds4(k1, k2, k3, k4, q);
    planes::to_blocks(r)
}

// AES4 of each block under k0, k1 and k2 of lines 402 and 403. The three differ in the list of keys alone, and each writes out its own.
pub fn under0(k: &Keys, g: &Group) -> Group
    requires { EndsInZero k.now }
    ensures { result ≡ AES4s (λ i. k0 (key_for k.now i)) g.now }
{
    aes4(&k[0], &k[1], &k[2], &k[3], g)
}

pub fn under1(k: &Keys, g: &Group) -> Group
    requires { EndsInZero k.now }
    ensures { result ≡ AES4s (λ i. k1 (key_for k.now i)) g.now }
{
    aes4(&k[1], &k[2], &k[0], &k[3], g)
}

pub fn under2(k: &Keys, g: &Group) -> Group
    ensures { result ≡ AES4s (λ i. k2 (key_for k.now i)) g.now }
{
    aes4(&k[2], &k[0], &k[1], &k[0], g)
}
