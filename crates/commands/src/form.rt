// Which command a line is, and whether the octets that it is given are those that the command takes.
ghost use Rattle.std.specs.Prelude.{◌≡◌, drop};
ghost use Rattle.commands.specs.Form.{is_line, alone, taking, rights_known, is_profile, is_buffer, is_order, command_of};

use crate::session::{AREA_OCTETS, HEAD_OCTETS, OUT_ROOM, RIGHTS_AT, STORE_ROOM, TIME_OCTETS};
use map::AREAS;

// The commands: those that set something, and those that print something.
#[derive(Clone, Copy)]
pub enum Command {
    SetProfile,
    SetStore,
    SetCounts,
    SetTime,
    SetBuffer,
    Answer,
    PrintBuffer,
    PrintStore,
    Read,
    Write,
    Check,
    CheckFrom,
    Wider,
    ReadFrames,
}

// The most octets that a line gives, and the most characters of a line: a letter, a space, and two digits for each.
pub const GIVEN_MOST: usize = 70000;

pub const LINE_MOST: usize = 140002;

// The most octets of a packet at the terminal, and of a frame.
const PACKET_MOST: usize = 69999;

// The octets of an order to the writer before its data, and where its checksum flag stands.
pub const ORDER_OCTETS: usize = 9;

pub const FLAG_AT: usize = 4;

// The octets of the value that a CRC goes on from.
pub const START_OCTETS: usize = 2;

// The flags and the rights that there are, as the largest octet of them.
const FLAGS_MOST: u16 = 15;

const RIGHTS_MOST: u16 = 7;

// Whether a line is a letter alone, or a letter, a space and the digits of whole octets, at most 70,000 of them.
#[tactic(auto, unfolding(crate::specs::Form::is_line))]
pub fn is_line(line: &[u8]) -> bool
    ensures { result ≡ is_line line.now }
{
    let n = line.len();
    n == 1
        || n >= 2
            && n <= LINE_MOST
            && n % 2 == 0
            && line[1] == b' '
            && characters::text::all_digits(digits(line))
}

// The digits of a line: what stands behind its letter and its space.
pub fn digits(line: &[u8]) -> &[u8]
    ensures { result.now ≡ drop 2 line.now }
{
    line.get(2..).unwrap_or(&[])
}

// The command of a line that is given those octets; a line that is none is bad.
#[tactic(auto, unfolding(crate::specs::Form::command_of))]
pub fn asked(line: &[u8], given: &[u8]) -> Option<Command>
    ensures { result ≡ command_of line.now given.now }
{
    if !is_line(line) {
        return None;
    }
    let letter = octets::numbers::one(line, 0);
    if line.len() == 1 {
        alone(letter)
    } else {
        taking(letter, given)
    }
}

// The command that is a letter alone.
#[tactic(auto, unfolding(crate::specs::Form::alone))]
fn alone(letter: u8) -> Option<Command>
    ensures { result ≡ alone letter }
{
    match letter {
        b'O' => Some(Command::PrintBuffer),
        b'M' => Some(Command::PrintStore),
        _ => None,
    }
}

// The command of a letter that is given octets, where it takes these.
#[tactic(auto, unfolding(crate::specs::Form::taking))]
fn taking(letter: u8, given: &[u8]) -> Option<Command>
    ensures { result ≡ taking letter given.now }
{
    let n = given.len();
    match letter {
        b'P' if is_profile(given) => Some(Command::SetProfile),
        b'S' if n <= STORE_ROOM => Some(Command::SetStore),
        b'K' if n == counts::OCTETS => Some(Command::SetCounts),
        b'T' if n == TIME_OCTETS => Some(Command::SetTime),
        b'B' if is_buffer(given) => Some(Command::SetBuffer),
        b'X' if n <= PACKET_MOST => Some(Command::Answer),
        b'R' => Some(Command::Read),
        b'W' if is_order(given) => Some(Command::Write),
        b'C' => Some(Command::Check),
        b'D' if n >= START_OCTETS => Some(Command::CheckFrom),
        b'V' if is_profile(given) => Some(Command::Wider),
        b'F' if n <= PACKET_MOST => Some(Command::ReadFrames),
        _ => None,
    }
}

// PID, flags, area count, and at most 8 whole areas, with no flag and no right that there is not.
#[tactic(auto, unfolding(crate::specs::Form::is_profile))]
fn is_profile(given: &[u8]) -> bool
    ensures { result ≡ is_profile given.now }
{
    let areas = given.len().saturating_sub(HEAD_OCTETS);
    given.len() >= HEAD_OCTETS
        && areas % AREA_OCTETS == 0
        && areas / AREA_OCTETS <= AREAS
        && octets::numbers::octet_at(given, 1) <= FLAGS_MOST
        && rights_known(given)
}

// Whether the rights of each area are among the three that there are; octets past the end count as 0.
#[tactic(auto, unfolding(crate::specs::Form::rights_known))]
fn rights_known(given: &[u8]) -> bool
    ensures { result ≡ rights_known given.now }
{
    (0..AREAS).all(|k| octets::numbers::octet_at(given, RIGHTS_AT + AREA_OCTETS * k) <= RIGHTS_MOST)
}

// A length of at most 8,192, and an octet.
#[tactic(auto, unfolding(crate::specs::Form::is_buffer))]
fn is_buffer(given: &[u8]) -> bool
    ensures { result ≡ is_buffer given.now }
{
    given.len() == 3 && octets::numbers::word16_at(given, 0) as usize <= OUT_ROOM
}

// An order to the writer, and a checksum flag of 0 or 1.
#[tactic(auto, unfolding(crate::specs::Form::is_order))]
fn is_order(given: &[u8]) -> bool
    ensures { result ≡ is_order given.now }
{
    given.len() >= ORDER_OCTETS && octets::numbers::octet_at(given, FLAG_AT) <= 1
}
