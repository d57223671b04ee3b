// The multiples of a block that a key record keeps, 0·x to 7·x, as columns one after the other.
#![tactic(auto)]

ghost use Rattle.std.specs.Prelude.{◌≡◌, ◌*◌, ◌%◌};
ghost use Rattle.columns.specs.Columns.{block_of};
ghost use Rattle.multiples.specs.Eight.{multiples, four_at};

use columns::Columns;

// 0·x to 7·x, by section 7's rules: 2n·x is 2·(n·x), and (2n + 1)·x is 2n·x ⊕ x.
pub fn multiples(x: Columns) -> [u32; 32]
    ensures { result ≡ multiples (block_of x) }
{
    let two = columns::double(x);
    let three = columns::xor(two, x);
    let four = columns::double(two);
    let five = columns::xor(four, x);
    let six = columns::double(three);
    let seven = columns::xor(six, x);
    [[0; 4], x, two, three, four, five, six, seven]
        .as_flattened()
        .try_into()
        .unwrap()
}

// Of eight blocks the one that n mod 8 counts from 0.
pub fn multiple(m: &[u32; 32], n: u32) -> Columns
    ensures { result ≡ four_at m.now (4 * (n % 8)) }
{
    let at = 4 * ((n % 8) as usize);
    m[at..at + 4].try_into().unwrap()
}
