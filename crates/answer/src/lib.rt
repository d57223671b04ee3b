// Why a door refuses, and the stretch in its two measures. Document 01, "Answer numbers" and "Header hash". A door answers the length of what
// it wrote, or a refusal.
#![tactic(auto)]

ghost use Rattle.std.specs.Prelude.{◌≡◌, ◌*◌, ◌≤◌};
ghost use Rattle.answer.specs.Outcomes.{number_of, place_of};
ghost use Rattle.answer.specs.declared.Refusal.TheVariants.{BadHeader};

// The number of a header's first bad entry (request E5): 0 is the count, 1 to 16 the string, 17 what is left over.
#[derive(Clone, Copy, Debug, PartialEq, Eq)]
pub struct BadEntry(pub usize);

// Each refusal of document 01.
#[derive(Clone, Copy, Debug, PartialEq, Eq)]
pub enum Refusal {
    KeyLength,
    LongStretch,
    BadHeader(BadEntry),
    TooLong,
    ShortSealed,
    NoRoom,
    DoesNotOpen,
    LongItem,
    NoRecord,
    NoLocale,
    NoPause,
    BadList,
}

impl Refusal {
    // Its number in document 01. The door that answers no refusal has the number 0.
    pub fn number(self) -> u32
        ensures { result ≡ number_of self }
    {
        match self {
            Refusal::KeyLength => 1,
            Refusal::LongStretch => 2,
            Refusal::BadHeader(_) => 3,
            Refusal::TooLong => 4,
            Refusal::ShortSealed => 5,
            Refusal::NoRoom => 6,
            Refusal::DoesNotOpen => 7,
            Refusal::LongItem => 8,
            Refusal::NoRecord => 9,
            Refusal::NoLocale => 15,
            Refusal::NoPause => 16,
            Refusal::BadList => 17,
        }
    }

    // Beside 3 the number of the header's bad entry (request E5), and beside every other 0.
    pub fn place(self) -> usize
        ensures { result ≡ place_of self }
    {
        match self {
            Refusal::BadHeader(bad) => bad.0,
            _ => 0,
        }
    }
}

impl From<BadEntry> for Refusal {
    ghost from_gives = { λ bad r. r ≡ BadHeader bad };

    fn from(bad: BadEntry) -> Refusal {
        Refusal::BadHeader(bad)
    }
}

// The stretch in bytes, as callers have it.
#[derive(Clone, Copy)]
pub struct StretchBytes(pub u64);

// The stretch in bits, as the tweak holds it.
#[derive(Clone, Copy)]
pub struct StretchBits(pub u64);

impl StretchBytes {
    pub fn bits(self) -> StretchBits
        requires { self.0 ≤ 64 }
        ensures { result.0 ≡ 8 * self.0 }
    {
        StretchBits(8 * self.0)
    }
}
