// The key record: the 48 bytes of a key, and the multiples of its blocks that are kept with them.
#![tactic(auto)]

ghost use Rattle.std.specs.Prelude.{◌≡◌, ◌-◌, ◌*◌, ◌≤◌};
ghost use Rattle.paper.specs.Section7.{◌·◌};
ghost use Rattle.columns.specs.Columns.{columns_of};
ghost use Rattle.multiples.specs.Eight.{multiples};
ghost use Rattle.pairs.specs.Meaning.{first};
ghost use Rattle.tbc.specs.Meaning.{base_of};

mod of_bytes;

use columns::Columns;
pub use of_bytes::key_of;
use pairs::{Pair, Row};
use tbc::Base;

// The key: the blocks I, J and L, and the multiples of them that are kept, as columns. Each kept block is its multiple, as the ghost fields
// say, so that whoever is lent a key knows it. 2·I, 2·J and the multiples of L are kept because request E7 names them; what Figure 6 reads
// are the multiples of J, and those of 8·J, which tell the rows of the hash apart.
#[derive(Clone, Copy)]
pub struct Key {
    i: [u8; 16],
    j: [u8; 16],
    l: [u8; 16],
    // 2·I and 2·J.
    i2: Columns,
    j2: Columns,
    // 0·L to 7·L, 0·J to 7·J, and 0·(8·J) to 7·(8·J), each one after the other.
    ls: [u32; 32],
    js: [u32; 32],
    rows: [u32; 32],
    ghost twice_i: { i2 ≡ columns_of (2 · i) },
    ghost twice_j: { j2 ≡ columns_of (2 · j) },
    ghost of_l: { ls ≡ multiples l },
    ghost of_j: { js ≡ multiples j },
    ghost of_8j: { rows ≡ multiples (8 · j) },
}

// The record of I, J and L.
fn record_of(i: [u8; 16], j: [u8; 16], l: [u8; 16]) -> Key
    ensures { (result.i ≡ i) × (result.j ≡ j) × (result.l ≡ l) }
{
    let of_j = columns::of_block(j);
    let js = multiples::multiples(of_j);
    let j8 = columns::double(multiples::multiple(&js, 4));
    Key {
        i,
        j,
        l,
        i2: columns::double(columns::of_block(i)),
        j2: multiples::multiple(&js, 2),
        ls: multiples::multiples(columns::of_block(l)),
        js,
        rows: multiples::multiples(j8),
    }
}

impl Key {
    ghost use Rattle.key.specs.Meaning.{blocks};

    // I, J and L.
    pub fn base(self) -> Base
        ensures { result ≡ base_of (blocks self) }
    {
        tbc::base_of(self.i, self.j, self.l)
    }

    // 0·J to 7·J.
    pub fn multiples(self) -> [u32; 32]
        ensures { result ≡ multiples (blocks self).J }
    {
        self.js
    }

    // Lines 408 and 409: s·(8·J), which is (8s)·J, for row s + 2. It is kept for s below 8. From there on it is put together from what is kept
    // for the rest of s, three times doubled, and for its three low bits.
    pub fn row_mask(self, p: Pair) -> Columns
        requires { (3 ≤ first p.row) × (first p.row ≤ 65) }
        ensures { result ≡ columns_of (((first p.row - 2) * 8) · (blocks self).J) }
    {
        let Row::Is(row) = p.row else { unreachable!() };
        let s = row - 2;
        if s < 8 {
            multiples::multiple(&self.rows, s)
        } else {
            let high = multiples::multiple(&self.rows, s / 8);
            let two = columns::double(high);
            let four = columns::double(two);
            let eight = columns::double(four);
            columns::xor(eight, multiples::multiple(&self.rows, s))
        }
    }
}
