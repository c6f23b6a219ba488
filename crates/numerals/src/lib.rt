// Numbers as words: the number that a word states, and the decimal digits of one.
#![tactic(auto)]

ghost use Rattle.std.specs.Prelude.{◌≡◌, cond, ◌+◌, ◌*◌, ◌%◌, ◌≤◌, ◌<◌, min, leb, ltb};
ghost use Rattle.saying.specs.Text.{SaysBy};
ghost use Rattle.numerals.specs.Numbers.{number_most, radix_of, stated_by, numeral_of, decimal_from, decimal_of};
ghost use Rattle.characters.specs.Digits.{value_of};

// Why a word states no number that has room: the number is too large, or the word states none.
#[derive(Clone, Copy, Debug, PartialEq, Eq)]
pub enum NumeralError {
    Large,
    Bad,
}

// The base of a number's digits.
#[derive(Clone, Copy)]
enum Base {
    Ten,
    Sixteen,
}

// What stands for every number above the largest.
const ABOVE: u64 = 4294967296;

// The most digits of a number of 64 bits.
const DIGITS: u8 = 20;

// How many digits a base has.
#[tactic(auto, unfolding(crate::specs::Numbers::radix_of))]
fn radix(base: Base) -> u8
    ensures { result ≡ radix_of base }
{
    match base {
        Base::Ten => 10,
        Base::Sixteen => 16,
    }
}

// The value of a digit of a base.
fn value(c: u8, base: Base) -> Result<u8, NumeralError>
    ensures { result ≡ cond (ltb (value_of c) (radix_of base)) (Ok (value_of c)) (Err NumeralError.Bad) }
{
    let value = characters::value(c);
    if value < radix(base) {
        Ok(value)
    } else {
        Err(NumeralError::Bad)
    }
}

// A number with one digit more behind its own; any above the largest is the one above it.
fn more(n: u64, value: u8, base: Base) -> u64
    requires { n ≤ number_most + 1 }
    ensures { result ≡ min (n * radix_of base + value) (number_most + 1) }
{
    (n * u64::from(radix(base)) + u64::from(value)).min(ABOVE)
}

// The answer that tells a number, or that it is too large.
fn told(n: u64) -> Result<u32, NumeralError>
    ensures { result ≡ cond (leb n number_most) (Ok n) (Err NumeralError.Large) }
{
    u32::try_from(n).map_err(|_| NumeralError::Large)
}

// The number that one or more digits of a base state.
#[tactic(auto, using(crate::proofs::Reading::stated_none, crate::proofs::Reading::stated_some, crate::proofs::Reading::radix_some, crate::proofs::Reading::stated_fail, crate::proofs::Reading::stated_pass, crate::proofs::Reading::stated_end))]
fn stated(digits: &[u8], base: Base) -> Result<u32, NumeralError>
    ensures { result ≡ stated_by (radix_of base) digits.now }
{
    if digits.is_empty() {
        return Err(NumeralError::Bad);
    }
    let mut n = 0;
    for c in digits {
        n = more(n, value(*c, base)?, base);
    }
    told(n)
}

// The number that a word states.
#[tactic(auto, unfolding(crate::specs::Numbers::numeral_of, crate::specs::Numbers::radix_of))]
pub fn number(word: &[u8]) -> Result<u32, NumeralError>
    ensures { result ≡ numeral_of word.now }
{
    match word {
        [b'0', b'x', digits @ ..] => stated(digits, Base::Sixteen),
        [b'0', _, ..] => Err(NumeralError::Bad),
        _ => stated(word, Base::Ten),
    }
}

// The character of a number's last decimal digit.
#[tactic(auto, using(characters::proofs::Capitals::digit_number))]
fn digit(x: u64) -> u8
    ensures { result ≡ 0x30 + x % 10 }
{
    characters::digit((x % 10) as u8)
}

// Adds the decimal digits of a number, at most so many of them, the last ones.
fn digits(text: &mut [u8], at: usize, x: u64, count: u8) -> usize
    ensures { SaysBy (decimal_from count x) at text result }
{
    if count == 0 {
        return saying::kept(text, at);
    }
    if x < 10 {
        return saying::put(text, at, digit(x));
    }
    let front = digits(text, at, x / 10, count - 1);
    saying::put(text, front, digit(x))
}

// Adds the decimal digits of a number.
#[tactic(auto, unfolding(crate::specs::Numbers::decimal_of))]
pub fn decimal(text: &mut [u8], at: usize, x: u64) -> usize
    ensures { SaysBy (decimal_of x) at text result }
{
    digits(text, at, x, DIGITS)
}
