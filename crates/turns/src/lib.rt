// The turns of AEZ-tiny, Figure 5 of the AEZ paper, lines 212 to 216, on halves that are blocks of columns:
// a turn is AES4 and a few operations on columns.
#![tactic(auto)]

ghost use Rattle.std.specs.Prelude.{◌≡◌, ◌*◌};
ghost use Rattle.paper.specs.Figure5.{tiny_rounds};
ghost use Rattle.columns.specs.Columns.{block_of};
ghost use Rattle.aes.specs.Steps.{keys_of};
ghost use Rattle.halves.specs.Blocks.{blocks_of};
ghost use Rattle.turns.specs.Turns.{block_turn, block_turns_up, block_turns_down};

use columns::Columns;
use halves::Halves;

// Lines 212 and 213: the number of rounds for n bytes.
fn rounds(n: usize) -> u32
    ensures { result ≡ tiny_rounds (8 * n) }
{
    match n {
        1 => 24,
        2 => 16,
        0..16 => 10,
        _ => 8,
    }
}

// Line 216: turn i. Its number goes into the last column alone.
fn turn(keys: &[Columns; 5], bits: Columns, i: u32, s: Halves) -> Halves
    ensures { blocks_of result ≡ block_turn (keys_of keys.now) (block_of bits) i (blocks_of s) }
{
    let Halves { l, r } = s;
    let y = aes::aes_columns(keys, columns::xor(r, [0, 0, 0, i]));
    let sum = columns::xor(l, halves::and(y, bits));
    Halves { l: r, r: sum }
}

// Line 215: the turns 0, 1, .. for n bytes.
pub fn turns_up(keys: &[Columns; 5], bits: Columns, n: usize, s: Halves) -> Halves
    ensures { blocks_of result ≡ block_turns_up (keys_of keys.now) (block_of bits) (tiny_rounds (8 * n)) (blocks_of s) }
{
    let mut t = s;
    for i in 0..rounds(n) {
        t = turn(keys, bits, i, t);
    }
    t
}

// Line 215 when deciphering: the turns .., 1, 0. A function beside `turns_up`, since it equals another definition: `block_turns_down`.
pub fn turns_down(keys: &[Columns; 5], bits: Columns, n: usize, s: Halves) -> Halves
    ensures { blocks_of result ≡ block_turns_down (keys_of keys.now) (block_of bits) (tiny_rounds (8 * n)) (blocks_of s) }
{
    let mut t = s;
    for i in (0..rounds(n)).rev() {
        t = turn(keys, bits, i, t);
    }
    t
}
