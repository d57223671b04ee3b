// The mask of a number that counts up, in lines 406 and 408 of Figure 6 of the AEZ paper: a multiple of J that is kept, and a power of L that a
// loop carries along. Both are columns (`columns`).
#![tactic(auto)]

ghost use Rattle.std.specs.Prelude.{◌≡◌, ◌*◌, ◌%◌};
ghost use Rattle.paper.specs.Strings.{◌⊕◌};
ghost use Rattle.columns.specs.Columns.{columns_of, block_of};
ghost use Rattle.multiples.specs.Eight.{four_at};
ghost use Rattle.masks.specs.Powers.{next_power};

use columns::Columns;

// The power of L for the second index that follows b, from the power for b: it doubles after each eighth.
pub fn next_power(b: u32, power: Columns) -> Columns
    ensures { result ≡ next_power b power }
{
    if b % 8 == 0 {
        columns::double(power)
    } else {
        power
    }
}

// Lines 406 and 408: (b mod 8)·J ⊕ power, the multiple of J being read.
pub fn running_mask(m: &[u32; 32], b: u32, power: Columns) -> Columns
    ensures { result ≡ columns_of (block_of (four_at m.now (4 * (b % 8))) ⊕ block_of power) }
{
    columns::xor(multiples::multiple(m, b), power)
}
