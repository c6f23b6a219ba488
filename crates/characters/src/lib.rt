// Hexadecimal digits, and the text of octets.
#![tactic(auto)]

ghost use Rattle.std.specs.Prelude.{◌≡◌};
ghost use Rattle.characters.specs.Digits.{value_of, octet_of, upper_of, digit_of};

pub mod text; // text.rt: the text of octets, and the octets of a text

// The value of a character that is a digit, 0 to 9, A to F or a to f; 16 for one that is none.
// 16 and no `None`: so the definition `value_of` has it, and the greatest value tells whether all characters of a text are digits.
#[tactic(auto, unfolding(crate::specs::Digits::value_of))]
pub fn value(c: u8) -> u8
    ensures { result ≡ value_of c }
{
    match c {
        b'0'..=b'9' => c - b'0',
        b'A'..=b'F' => c - b'A' + 10,
        b'a'..=b'f' => c - b'a' + 10,
        _ => 16,
    }
}

// The octet of two digits, the high one first; of what is no digit, the low four bits of its value.
pub fn octet(high: u8, low: u8) -> u8
    ensures { result ≡ octet_of high low }
{
    value(high) % 16 * 16 + value(low) % 16
}

// The upper-case digit of a number's low four bits.
#[tactic(auto, unfolding(crate::specs::Digits::digit_of))]
pub fn digit(x: u8) -> u8
    ensures { result ≡ digit_of x }
{
    let v = x % 16;
    if v < 10 { b'0' + v } else { b'A' + (v - 10) }
}

// A digit a to f in upper case; any other character as it is.
#[tactic(auto, unfolding(crate::specs::Digits::upper_of))]
pub fn upper(c: u8) -> u8
    ensures { result ≡ upper_of c }
{
    match c {
        b'a'..=b'f' => c - b'a' + b'A',
        _ => c,
    }
}
