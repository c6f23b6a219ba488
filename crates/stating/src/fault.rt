// What is wrong with a line of a unit file: docs/UNITS.md has the words of each.

ghost use Rattle.std.specs.Prelude.{◌≡◌};
ghost use Rattle.stating.specs.Faults.{numeral_fault};
ghost use Rattle.stating.specs.Wrongs.{wrong};

use numerals::NumeralError;

// What is wrong: with the line and its first word, with `pid`, `services`, `store`, `put` or `area`, with a number, or at the end of the file.
#[derive(Clone, Copy, PartialEq, Eq)]
pub enum Fault {
    LineLong,
    NoItem,
    PidTwice,
    PidForm,
    PidLarge,
    ServicesTwice,
    ServicesForm,
    ServiceTwice,
    StoreTwice,
    StoreForm,
    StoreLarge,
    PutEarly,
    PutForm,
    PutDigits,
    PutOdd,
    PutPast,
    AreaNinth,
    AreaForm,
    AreaId,
    AreaOdd,
    AreaSize,
    RightTwice,
    NumberForm,
    NumberLarge,
    NoPid,
    NoStore,
}

impl From<NumeralError> for Fault {
    ghost from_gives = { λ e f. f ≡ numeral_fault e };

    fn from(e: NumeralError) -> Fault {
        match e {
            NumeralError::Large => Fault::NumberLarge,
            NumeralError::Bad => Fault::NumberForm,
        }
    }
}

// What is wrong with words, and what they state up to there.
#[derive(Clone, Copy)]
pub struct Wrong<T> {
    pub fault: Fault,
    pub told: T,
}

impl<T> Wrong<T> {
    // This is wrong, and up to there that is stated.
    pub fn new(fault: Fault, told: T) -> Wrong<T>
        ensures { result ≡ wrong fault told }
    {
        Wrong { fault, told }
    }
}

// A word that is no number states 0.
impl From<NumeralError> for Wrong<u32> {
    ghost from_gives = { λ e w. w ≡ wrong (numeral_fault e) 0 };

    fn from(e: NumeralError) -> Wrong<u32> {
        Wrong::new(Fault::from(e), 0)
    }
}

// What is wrong alone.
impl<T: Copy> From<Wrong<T>> for Fault {
    ghost from_gives = { λ w f. f ≡ w.fault };

    fn from(w: Wrong<T>) -> Fault {
        w.fault
    }
}
