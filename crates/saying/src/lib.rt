// Text added to a buffer from a place on: each function answers the place behind it, or the one past the buffer's end where some of the text found no room.
#![tactic(auto)]

ghost use Rattle.std.specs.Prelude.{◌≡◌, ◌+◌, ◌<◌, ◌^◌, min, [], ◌∷◌, length};
ghost use Rattle.octets.specs.Numbers.{octets16};
ghost use Rattle.characters.specs.Digits.{text_of, upper_text};
ghost use Rattle.saying.specs.Text.{spaced, line_of, SaysBy};

use lines::NEWLINE;

// What stands between the groups of a line.
const SPACE: u8 = b' ';

// The place behind so many characters more, in a buffer of that room.
fn behind(room: usize, at: usize, count: usize) -> usize
    requires { room + 1 < 2 ^ 64 }
    ensures { result ≡ min (at + count) (room + 1) }
{
    at.saturating_add(count).min(room + 1)
}

// The place where nothing is added; the one past the buffer's end stands for any past it.
pub fn kept(text: &[u8], at: usize) -> usize
    ensures { result ≡ min at (length text.now + 1) }
{
    behind(text.len(), at, 0)
}

// Adds a character.
#[tactic(auto, unfolding(octets::specs::Copy::laid))]
pub fn put(text: &mut [u8], at: usize, c: u8) -> usize
    ensures { SaysBy (c ∷ []) at text result }
{
    characters::text::put_character(text, at, c);
    behind(text.len(), at, 1)
}

// Adds some characters.
pub fn text(text: &mut [u8], at: usize, all: &[u8]) -> usize
    ensures { SaysBy all.now at text result }
{
    octets::copy::put(text, at, all);
    behind(text.len(), at, all.len())
}

// Adds some characters, the digits among them in upper case.
#[tactic(auto, using(characters::proofs::Capitals::upper_length))]
pub fn upper(text: &mut [u8], at: usize, all: &[u8]) -> usize
    ensures { SaysBy (upper_text all.now) at text result }
{
    characters::text::put_upper(text, at, all);
    behind(text.len(), at, all.len())
}

// Adds some octets, two digits each.
#[tactic(auto, using(characters::proofs::Digits::text_length))]
pub fn octets(text: &mut [u8], at: usize, all: &[u8]) -> usize
    ensures { SaysBy (text_of all.now) at text result }
{
    characters::text::put_text(text, at, all);
    let place = behind(text.len(), at, all.len());
    behind(text.len(), place, all.len())
}

// Adds a space and some octets.
pub fn group(text: &mut [u8], at: usize, all: &[u8]) -> usize
    ensures { SaysBy (spaced all.now) at text result }
{
    let first = put(text, at, SPACE);
    octets(text, first, all)
}

// Adds a space and a number of 16 bits.
pub fn number(text: &mut [u8], at: usize, x: u16) -> usize
    ensures { SaysBy (spaced (octets16 x)) at text result }
{
    let two = octets::numbers::octets_of16(x);
    group(text, at, &two)
}

// Adds the newline.
pub fn end(text: &mut [u8], at: usize) -> usize
    ensures { SaysBy (10 ∷ []) at text result }
{
    put(text, at, NEWLINE)
}

// Adds some octets and the newline.
pub fn line(text: &mut [u8], at: usize, all: &[u8]) -> usize
    ensures { SaysBy (line_of all.now) at text result }
{
    let first = octets(text, at, all);
    end(text, first)
}

// Adds a space, some octets and the newline.
pub fn last(text: &mut [u8], at: usize, all: &[u8]) -> usize
    ensures { SaysBy (32 ∷ line_of all.now) at text result }
{
    let first = put(text, at, SPACE);
    line(text, first, all)
}
