// A line that spells the frame due: the quick way to see that the two agree.
#![tactic(auto)]

ghost use Rattle.std.specs.Prelude.{◌≡◌, ◌*◌, ◌≤◌, length};
ghost use Rattle.spelling.specs.Spelling.{spelled, spelled_all, sized_for, spelled_apart, spells_frame};

use packetline::LINE_MOST;
use tm::{TIME_END, TIME_FIRST};

// How many digits an octet has.
const DIGITS: usize = 2;

// Whether two characters are the digits of an octet, in upper case.
fn is_spelled(x: u8, high: u8, low: u8) -> bool
    ensures { result ≡ spelled x high low }
{
    high == characters::digit(x / 16) && low == characters::digit(x)
}

// Whether the characters of a text are the digits of octets, two for each.
fn are_spelled(octets: &[u8], text: &[u8]) -> bool
    requires { length text.now ≡ 2 * length octets.now }
    ensures { result ≡ spelled_all octets.now text.now }
{
    let (pairs, _) = text.as_chunks::<2>();
    octets
        .iter()
        .zip(pairs)
        .all(|(x, [high, low])| is_spelled(*x, *high, *low))
}

// Whether a line has the digits of a frame that holds a time, and no more.
#[tactic(auto, unfolding(crate::specs::Spelling::sized_for))]
fn is_sized(frame: &[u8], line: &[u8]) -> bool
    ensures { result ≡ sized_for frame.now line.now }
{
    TIME_END <= frame.len()
        && line.len() <= LINE_MOST
        && line.len() % DIGITS == 0
        && line.len() / DIGITS == frame.len()
}

// Whether a line of that length has the frame's digits before the time and behind it, and any digits in its place.
#[tactic(auto, unfolding(crate::specs::Spelling::spelled_apart))]
fn is_spelled_apart(frame: &[u8], line: &[u8]) -> bool
    requires { (12 ≤ length frame.now) × (length line.now ≡ 2 * length frame.now) }
    ensures { result ≡ spelled_apart frame.now line.now }
{
    let time = lines::piece(line, DIGITS * TIME_FIRST, DIGITS * (TIME_END - TIME_FIRST));
    are_spelled(
        lines::front(frame, TIME_FIRST),
        lines::front(line, DIGITS * TIME_FIRST),
    ) && characters::text::all_digits(time)
        && are_spelled(
            octets::copy::behind(frame, TIME_END),
            octets::copy::behind(line, DIGITS * TIME_END),
        )
}

// Whether a line spells a frame: the frame's digits in upper case, with any digits for its time.
#[tactic(auto, unfolding(crate::specs::Spelling::spells_frame), using(crate::proofs::Spelled::sized_facts))]
pub fn spells(frame: &[u8], line: &[u8]) -> bool
    ensures { result ≡ spells_frame frame.now line.now }
{
    is_sized(frame, line) && is_spelled_apart(frame, line)
}
