// The text of octets written into a buffer, and the octets of a text.
ghost use Rattle.std.specs.Prelude.{◌≡◌, ◌+◌, ◌-◌, ◌*◌, ◌/◌, ◌<◌, ◌≤◌, length, set};
ghost use Rattle.octets.specs.Copy.{laid};
ghost use Rattle.characters.specs.Digits.{digit_of, text_of, upper_text, all_digits_of, bad_place, octets_in};

// Sets a character of a text; past the end it is dropped.
pub fn put_character(text: &mut [u8], at: usize, c: u8)
    ensures { text.new ≡ set text.old at c }
{
    // By an index: the contract of a slice's `get_mut` does not say what the slice ends as.
    if at < text.len() {
        text[at] = c;
    }
}

// Writes the two digits of an octet, which have room.
fn put_octet(text: &mut [u8], at: usize, x: u8)
    requires { at + 1 < length text.old }
    ensures { text.new ≡ set (set text.old at (digit_of (x / 16))) (at + 1) (digit_of x) }
{
    text[at] = crate::digit(x / 16);
    text[at + 1] = crate::digit(x);
}

// Writes the text of octets from a place on, which has room.
#[tactic(auto, using(crate::proofs::Texts::laid_text_next, crate::proofs::Texts::laid_text_end))]
fn put_whole(text: &mut [u8], at: usize, octets: &[u8])
    requires { 2 * length octets.now ≤ length text.old - at }
    ensures { text.new ≡ laid text.old at (text_of octets.now) }
{
    let mut place = at;
    for x in octets {
        put_octet(text, place, *x);
        place += 2;
    }
}

// Writes the text of octets from a place on; what would stand past the end is dropped.
// The octets that have room whole come first, in a loop that does not ask for the text's end: one that asks at each octet takes up to twice as long, and places that stop at the greatest number ten times.
#[tactic(auto, using(octets::proofs::Laid::laid_past, crate::proofs::Texts::laid_text_end, crate::proofs::Texts::laid_text_edge, crate::proofs::Texts::laid_text_split))]
pub fn put_text(text: &mut [u8], at: usize, octets: &[u8])
    ensures { text.new ≡ laid text.old at (text_of octets.now) }
{
    let whole = octets.len().min(text.len().saturating_sub(at) / 2);
    put_whole(text, at, &octets[..whole]);
    if whole < octets.len() {
        // Less than two characters have room behind them.
        put_character(text, at + 2 * whole, crate::digit(octets[whole] / 16));
    }
}

// Writes a text with its digits in upper case from a place on; what would stand past the end is dropped.
#[tactic(auto, using(octets::proofs::Laid::laid_none))]
pub fn put_upper(text: &mut [u8], at: usize, digits: &[u8])
    ensures { text.new ≡ laid text.old at (upper_text digits.now) }
{
    let count = octets::copy::fitting(text.len(), at, digits.len());
    for (i, c) in digits[..count].iter().enumerate() {
        text[at + i] = crate::upper(*c);
    }
}

// The place of the first character of a text that is no digit, from 0; past the last one where all are digits.
pub fn bad_place(text: &[u8]) -> usize
    ensures { result ≡ bad_place text.now }
{
    text.iter()
        .position(|c| 16 <= crate::value(*c))
        .unwrap_or(text.len())
}

// Whether every character of a text is a digit: whether the greatest of their values is a digit's.
pub fn all_digits(text: &[u8]) -> bool
    ensures { result ≡ all_digits_of text.now }
{
    let greatest = text
        .iter()
        .fold(0, |most: u8, c| most.max(crate::value(*c)));
    greatest < 16
}

// Lays the octets of a text over a buffer's own from a place on; those that would stand past its end are dropped.
#[tactic(auto, using(octets::proofs::Laid::laid_none))]
pub fn decode(text: &[u8], octets: &mut [u8], at: usize)
    ensures { octets.new ≡ laid octets.old at (octets_in text.now) }
{
    let (pairs, _) = text.as_chunks::<2>();
    let count = octets::copy::fitting(octets.len(), at, pairs.len());
    for (i, [high, low]) in pairs[..count].iter().enumerate() {
        octets[at + i] = crate::octet(*high, *low);
    }
}
