// The index pairs of the block function E, as document 01's table names them.
#![tactic(auto)]

ghost use Rattle.std.specs.Prelude.{◌≡◌, ◌+◌, ◌^◌, ◌<◌};
ghost use Rattle.pairs.specs.Meaning.{pair, first, rows_on, index_pairs};

// The first index, which is a row: -1, or a number from 0 on.
#[derive(Clone, Copy)]
pub enum Row {
    MinusOne,
    Is(u32),
}

// A pair of indices: the row, and the number in it.
#[derive(Clone, Copy)]
pub struct Pair {
    pub row: Row,
    pub number: u32,
}

// 01's table of index pairs, one for each named use. Where the second index counts, the table has 0 for it, and `at` puts it in; the
// hash's pair has row 2, to which `string` adds the string's number.
impl Pair {
    pub const A: Pair = Pair {
        row: Row::Is(0),
        number: 0,
    };

    pub const A_I: Pair = Pair {
        row: Row::Is(1),
        number: 0,
    };

    pub const AA_I: Pair = Pair {
        row: Row::Is(2),
        number: 0,
    };

    pub const X: Pair = Pair {
        row: Row::Is(0),
        number: 1,
    };

    pub const Y: Pair = Pair {
        row: Row::Is(0),
        number: 2,
    };

    pub const XX: Pair = Pair {
        row: Row::MinusOne,
        number: 1,
    };

    pub const YY: Pair = Pair {
        row: Row::MinusOne,
        number: 2,
    };

    pub const U: Pair = Pair {
        row: Row::Is(0),
        number: 4,
    };

    pub const V: Pair = Pair {
        row: Row::Is(0),
        number: 5,
    };

    pub const UU: Pair = Pair {
        row: Row::MinusOne,
        number: 4,
    };

    pub const VV: Pair = Pair {
        row: Row::MinusOne,
        number: 5,
    };

    pub const TINY: Pair = Pair {
        row: Row::Is(0),
        number: 6,
    };

    pub const TINY_SHORT: Pair = Pair {
        row: Row::Is(0),
        number: 7,
    };

    pub const TINY_LAST: Pair = Pair {
        row: Row::Is(0),
        number: 3,
    };

    pub const PRF: Pair = Pair {
        row: Row::MinusOne,
        number: 3,
    };

    pub const HASH: Pair = Pair {
        row: Row::Is(2),
        number: 0,
    };

    // The whole table: each row is 01's.
    pub fn table() -> [Pair; 16]
        ensures { result ≡ index_pairs }
    {
        [
            Pair::A,
            Pair::A_I,
            Pair::AA_I,
            Pair::X,
            Pair::Y,
            Pair::XX,
            Pair::YY,
            Pair::U,
            Pair::V,
            Pair::UU,
            Pair::VV,
            Pair::TINY,
            Pair::TINY_SHORT,
            Pair::TINY_LAST,
            Pair::PRF,
            Pair::HASH,
        ]
    }

    // The pair of the same row whose second index is `number`.
    pub fn at(self, number: u32) -> Pair
        ensures { result ≡ pair self.row number }
    {
        Pair {
            row: self.row,
            number,
        }
    }

    // The pair that is s rows on; there is no row that many on from -1, and a pair of row -1 stays as it is.
    pub fn string(self, s: u32) -> Pair
        requires { first self.row + s < 2 ^ 32 }
        ensures { result ≡ pair (rows_on self.row s) self.number }
    {
        let row = match self.row {
            Row::MinusOne => Row::MinusOne,
            Row::Is(j) => Row::Is(j + s),
        };
        Pair {
            row,
            number: self.number,
        }
    }
}
