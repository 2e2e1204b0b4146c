// A refusal (document 01, "Refusal numbers"): why a call gives no values, as the `Err` of its `Result`. The crate is below all others, so that a crate that refuses needs
// this one for it and no more. specs/ has the paper's numbers of the refusals, what a call tells, the order of its refusals, and demand 1 over any order
// (specs/Refusals.antt, specs/RefusalsLaws.antt).
#![tactic(auto)]

ghost use Rattle.std.specs.Prelude.{◌≡◌, false};
ghost use Rattle.refusal.specs.Named.{is_named};

// A refusal that the paper does not name: none of this repository's calls gives one, and what tells or words a refusal takes every number.
#[derive(Clone, Copy, Debug, PartialEq, Eq)]
pub struct Unnamed {
    pub number: u32,
    pub row: Option<u32>,
    pub ghost unnamed: { is_named number row ≡ false },
}

// Why a call gives no values. Two are given for a row, the first that is bad.
#[derive(Clone, Copy, Debug, PartialEq, Eq)]
pub enum Refusal {
    // 1: a lent sheet list is not as long as a sheet
    ListLength,
    // 2: sheet text breaks its form
    Form(u32),
    // 3: a value over the most in a sheet list, or step rule broken
    BadRow(u32),
    // 4: A, c or h outside its limit
    Limit,
    // 5: not lean
    Rich,
    // 6: temperature outside range
    Temperature,
    // 7: calorific value or q of a step outside range
    StepHeat,
    // 8: target below the value at 200 K
    Below,
    // 9: target above the value at 2,000 K
    Above,
    // 10: a lent list too short for what is to be written
    ShortList,
    // 11: answer blank, infinite or not a number
    NoNumber,
    // 12: key or window out of range
    OutOfRange,
    // 13: steps list not a multiple of four long, or over the most numbers
    Steps,
    // 14: a lent buffer is shorter than the text
    ShortBuffer,
    // any other number, for whatever tells or words it
    Other(Unnamed),
}

impl Refusal {
    ghost use Rattle.refusal.specs.Refusals.{number_of, numbered, place_of};

    // The number that the paper gives it.
    pub fn number(self) -> u32
        ensures { result ≡ number_of (numbered self) }
    {
        match self {
            Refusal::ListLength => 1,
            Refusal::Form(_) => 2,
            Refusal::BadRow(_) => 3,
            Refusal::Limit => 4,
            Refusal::Rich => 5,
            Refusal::Temperature => 6,
            Refusal::StepHeat => 7,
            Refusal::Below => 8,
            Refusal::Above => 9,
            Refusal::ShortList => 10,
            Refusal::NoNumber => 11,
            Refusal::OutOfRange => 12,
            Refusal::Steps => 13,
            Refusal::ShortBuffer => 14,
            Refusal::Other(unnamed) => unnamed.number,
        }
    }

    // The row that it is given for, where it is given for one.
    pub fn row(self) -> Option<u32>
        ensures { result ≡ place_of (numbered self) }
    {
        match self {
            Refusal::Form(row) => Some(row),
            Refusal::BadRow(row) => Some(row),
            Refusal::Other(unnamed) => unnamed.row,
            _ => None,
        }
    }
}
