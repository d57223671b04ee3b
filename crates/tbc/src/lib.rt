// The block function E of Figure 6 of the AEZ paper. A block goes in and comes out as 16 bytes; masks, multiples and keys are columns
// (`columns`).
#![tactic(auto)]

ghost use Rattle.std.specs.Prelude.{[], ◌∷◌, ◌≡◌, ◌≤◌, drop};
ghost use Rattle.paper.specs.Strings.{◌⊕◌};
ghost use Rattle.paper.specs.Section7.{◌·◌};
ghost use Rattle.paper.specs.Figure6.{k1, k2, K10, E};
ghost use Rattle.columns.specs.Columns.{columns_of, block_of};
ghost use Rattle.aes.specs.Steps.{keys_of};
ghost use Rattle.pairs.specs.Meaning.{row_of, first, Plain};
ghost use Rattle.tbc.specs.Meaning.{base, base_of, OfJ, masked0, Running};

use columns::Columns;
use pairs::{Pair, Row};

// What loops take of a key from block to block: I, J and L as crossed words, by value, which AES takes for its keys. The multiples of J are
// lent beside it.
#[derive(Clone, Copy)]
pub struct Base {
    i: Columns,
    j: Columns,
    l: Columns,
}

// The base of I, J and L.
pub fn base_of(i: [u8; 16], j: [u8; 16], l: [u8; 16]) -> Base
    ensures { result ≡ base_of (record { I = i; J = j; L = l }) }
{
    Base {
        i: sub_bytes::crossed(columns::of_block(i)),
        j: sub_bytes::crossed(columns::of_block(j)),
        l: sub_bytes::crossed(columns::of_block(l)),
    }
}

impl Base {
    // I, J and L as columns.
    pub fn blocks(self) -> [Columns; 3]
        ensures { result ≡ columns_of (base self).I ∷ columns_of (base self).J ∷ columns_of (base self).L ∷ [] }
    {
        let Base { i, j, l } = self;
        [
            sub_bytes::crossed(i),
            sub_bytes::crossed(j),
            sub_bytes::crossed(l),
        ]
    }

    // L, which is the power of L for the numbers from 1 to 8.
    pub fn power(self) -> Columns
        ensures { result ≡ columns_of (base self).L }
    {
        sub_bytes::crossed(self.l)
    }
}

// Lines 402 and 403: the key lists, with a mask for the first key. That key is zero, and it is added where the mask is.
pub fn keys0(k: Base, mask: Columns) -> [Columns; 5]
    ensures { result ≡ masked0 k mask }
{
    let Base { i, j, l } = k;
    [mask, i, j, l, [0; 4]]
}

fn keys1(k: Base, mask: Columns) -> [Columns; 5]
    ensures { keys_of result ≡ block_of mask ∷ drop 1 (k1 (base k)) }
{
    let Base { i, j, l } = k;
    [mask, j, l, i, [0; 4]]
}

fn keys2(k: Base, mask: Columns) -> [Columns; 5]
    ensures { keys_of result ≡ block_of mask ∷ drop 1 (k2 (base k)) }
{
    let Base { i, j, l } = k;
    [mask, l, i, j, i]
}

fn keys10(k: Base, mask: Columns) -> [Columns; 11]
    ensures { keys_of result ≡ block_of mask ∷ drop 1 (K10 (base k)) }
{
    let Base { i, j, l } = k;
    [mask, i, l, j, i, l, j, i, l, j, i]
}

// The keys of AES4 under which a block goes as E in row 0 takes its sum with `added`: line 405, with `added` in the mask. A caller that has
// many blocks for one pair makes them once.
pub fn keys_adding(k: Base, m: &[u32; 32], p: Pair, added: Columns) -> [Columns; 5]
    requires { (p.number ≤ 7) × OfJ k m.now }
    ensures { result ≡ masked0 k (columns_of (block_of added ⊕ p.number · (base k).J)) }
{
    let multiple_of_j = multiples::multiple(m, p.number);
    keys0(k, columns::xor(added, multiple_of_j))
}

// E in rows -1 and 0: lines 404 and 405. m is 0·J to 7·J, of which the mask is one.
pub fn e(k: Base, m: &[u32; 32], p: Pair, x: [u8; 16]) -> [u8; 16]
    requires { (Plain (row_of p) p.number) × OfJ k m.now }
    ensures { result ≡ E (base k) (row_of p) p.number x }
{
    let of_j = multiples::multiple(m, p.number);
    match p.row {
        Row::MinusOne => aes::aes(&keys10(k, of_j), x),
        Row::Is(_) => aes::aes(&keys0(k, of_j), x),
    }
}

// E in rows 1 and 2, whose numbers count up: line 406. power is 2^floor((b - 1) / 8)·L for the second index b, which a loop carries along.
pub fn e_running(k: Base, m: &[u32; 32], p: Pair, power: Columns, x: [u8; 16]) -> [u8; 16]
    requires { (Running k p power) × (first p.row ≤ 2) × OfJ k m.now }
    ensures { result ≡ E (base k) (row_of p) p.number x }
{
    let mask = masks::running_mask(m, p.number, power);
    match p.row {
        Row::Is(1) => aes::aes(&keys1(k, mask), x),
        _ => aes::aes(&keys2(k, mask), x),
    }
}
