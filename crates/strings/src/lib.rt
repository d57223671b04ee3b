// The strings of a tweak: lines 303 to 306 of Figure 6 of the AEZ paper. Their blocks go through AES4 sixteen at a time.
#![tactic(auto)]

ghost use Rattle.std.specs.Prelude.{◌≡◌, ◌*◌, ◌/◌, ◌%◌, ◌≤◌, ◌<◌, length, replicate};
ghost use Rattle.paper.specs.Strings.{◌⊕◌, sum};
ghost use Rattle.paper.specs.Section7.{zeros, AES4};
ghost use Rattle.paper.specs.Figure6.{k0, E, hash_string};
ghost use Rattle.columns.specs.Columns.{block_of};
ghost use Rattle.multiples.specs.Eight.{multiples, four_at};
ghost use Rattle.tbc.specs.Meaning.{base, base_of, OfJ};
ghost use Rattle.key.specs.Meaning.{blocks};
ghost use Rattle.strings.specs.Waiting.{added_up, full_term, short_term};

use columns::Columns;
use groups::Group;

// From how many blocks on a group is worked on as one: for fewer, AES4 of each by itself is quicker.
const AS_ONE: usize = 4;

// The first n blocks of a group, each by itself.
fn one_by_one(k: tbc::Base, g: &Group, n: usize) -> [u8; 16]
    requires { n ≤ 16 }
    ensures { result ≡ added_up (k0 (base k)) g.now n }
{
    let keys = tbc::keys0(k, [0u32; 4]);
    let mut total = [0u8; 16];
    for x in &g[..n] {
        // A proof follows `total = block::xor(total, ..)` only where it is no array that is assigned to: so the sum has a name first.
        let more = block::xor(total, aes::aes(&keys, columns::to_block(*x)));
        total = more;
    }
    total
}

// AES4 under k0 of the first n blocks of a group, added up.
fn added_up(k: tbc::Base, g: &Group, n: usize) -> [u8; 16]
    requires { n ≤ 16 }
    ensures { result ≡ added_up (k0 (base k)) g.now n }
{
    if n < AS_ONE {
        one_by_one(k, g, n)
    } else {
        let e = groups::under0(&groups::keys(k), g);
        groups::sum(&e, n)
    }
}

// x ⊕ mask.
fn with_mask(x: [u8; 16], mask: Columns) -> Columns
    ensures { block_of result ≡ x ⊕ block_of mask }
{
    columns::xor(columns::of_block(x), mask)
}

// Line 408: block j of a string, masked. mask is the row's multiple of J and power the power of L for j.
fn masked(m: &[u32; 32], j: u32, power: Columns, mask: Columns, x: [u8; 16]) -> Columns
    ensures { block_of result ≡ x ⊕ (block_of (four_at m.now (4 * (j % 8))) ⊕ block_of power ⊕ block_of mask) }
{
    with_mask(x, columns::xor(masks::running_mask(m, j, power), mask))
}

// What is hashed so far: a sum of blocks that went through AES4, and the masked blocks that wait, which stand first in the group. Every block
// of every string goes through AES4 under the same keys, so that they wait for each other, whichever string they are of.
#[derive(Clone, Copy)]
pub struct Sum {
    total: [u8; 16],
    group: Group,
    waiting: usize,
    ghost few: { waiting ≤ 16 },
}

impl Sum {
    ghost use Rattle.strings.specs.Sums.{so_far};

    // Before the first string.
    pub fn nothing() -> Sum
        ensures { (result.total ≡ zeros) × (result.group ≡ replicate 16 (replicate 4 0)) × (result.waiting ≡ 0) }
    {
        Sum {
            total: [0; 16],
            group: [[0; 4]; 16],
            waiting: 0,
        }
    }

    // What is hashed, with nothing left to wait.
    pub fn hashed(&self, k: tbc::Base) -> [u8; 16]
        ensures { result ≡ so_far (base k) self.now }
    {
        block::xor(self.total, added_up(k, &self.group, self.waiting))
    }

    // One masked block more. Where the group is full, its blocks are added up first.
    fn add_block(&mut self, k: tbc::Base, x: Columns)
        ensures { so_far (base k) self.new ≡ so_far (base k) self.old ⊕ AES4 (k0 (base k)) (block_of x) }
    {
        if self.waiting < 16 {
            self.group[self.waiting] = x;
            self.waiting += 1;
        } else {
            self.total = self.hashed(k);
            self.group[0] = x;
            self.waiting = 1;
        }
    }

    // Line 304: the full blocks of a string. m is 0·J to 7·J; the power of L is carried from block to block.
    fn add_full(&mut self, k: tbc::Base, m: &[u32; 32], mask: Columns, t: &[u8])
        requires { (length t.now ≤ 1024) × OfJ k m.now }
        ensures { so_far (base k) self.new ≡ so_far (base k) self.old ⊕ sum (length t.now / 16) (full_term (base k) (block_of mask) t.now) }
    {
        let mut power = k.power();
        for n in 0..t.len() / 16 {
            let j = n as u32 + 1;
            self.add_block(k, masked(m, j, power, mask, slices::load(t, 16 * n)));
            // As in `one_by_one`: an array that a call gives has a name before it is assigned.
            let next = masks::next_power(j, power);
            power = next;
        }
    }

    // Lines 306 and 409: the block that is short or empty.
    fn add_short(&mut self, k: tbc::Base, mask: Columns, last: &[u8])
        requires { length last.now < 16 }
        ensures { so_far (base k) self.new ≡ so_far (base k) self.old ⊕ short_term (base k) (block_of mask) last.now }
    {
        self.add_block(k, with_mask(block::pad(last), mask));
    }

    // Lines 303 to 306: Δ_i of the i-th string of the tweak. b and m are taken out of the key once for all strings.
    pub fn add_string(&mut self, k: key::Key, b: tbc::Base, m: &[u32; 32], i: u32, t: &[u8])
        requires { (b ≡ base_of (blocks k)) × (m.now ≡ multiples (blocks k).J) × (1 ≤ i) × (i ≤ 17) × (length t.now ≤ 1024) }
        ensures { so_far (blocks k) self.new ≡ so_far (blocks k) self.old ⊕ hash_string (E (blocks k)) i t.now }
    {
        let mask = k.row_mask(pairs::Pair::HASH.string(i));
        self.add_full(b, m, mask, t);
        let empty = t.len() == 0;
        let whole = t.len() % 16 == 0;
        if empty || !whole {
            self.add_short(b, mask, &t[t.len() / 16 * 16..]);
        }
    }
}
