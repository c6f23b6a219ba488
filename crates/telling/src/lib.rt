// The words for what is wrong with a unit file, for a line that is refused by 70, and for a unit that is not sound.
#![tactic(auto)]

ghost use Rattle.std.specs.Prelude.{◌≡◌, [], ◌∷◌, ◌++◌};
ghost use Rattle.characters.specs.Digits.{text_of};
ghost use Rattle.words.specs.Ascii.{ascii};
ghost use Rattle.saying.specs.Text.{SaysBy};
ghost use Rattle.numerals.specs.Numbers.{decimal_of};
ghost use Rattle.telling.specs.Telling.{fault_words, unit_told, halt_words, halt_told, unsound_line};

use packline::Halt;
use stating::fault::Fault;

pub mod rows; // rows.rt: a table in text

// The line that tells what is wrong with a line of a unit file, if anything is.
pub fn unit_line(number: u64, fault: Option<Fault>, text: &mut [u8], at: usize) -> usize
    ensures { SaysBy (unit_told number fault) at text result }
{
    let first = saying::text(text, at, b"unit ");
    let digits = numerals::decimal(text, first, number);
    let colon = saying::text(text, digits, b": ");
    match fault {
        Some(fault) => {
            let words = saying::text(text, colon, fault_words(fault));
            saying::end(text, words)
        }
        None => saying::end(text, colon),
    }
}

// The line that tells why a line is refused by 70, if there is a reason.
pub fn halt_line(h: Option<Halt>, text: &mut [u8], at: usize) -> usize
    ensures { SaysBy (halt_told h) at text result }
{
    match h {
        Some(halt) => {
            let words = halt_words(halt, text, at);
            saying::end(text, words)
        }
        None => saying::end(text, at),
    }
}

// `refused 41`.
pub fn unsound_line(text: &mut [u8], at: usize) -> usize
    ensures { SaysBy unsound_line at text result }
{
    let words = saying::text(text, at, b"refused 41");
    saying::end(text, words)
}

// The words for what is wrong with a unit file.
fn fault_words(f: Fault) -> &'static [u8]
    ensures { result.now ≡ fault_words f }
{
    match f {
        Fault::LineLong => b"a line has at most 4096 characters",
        Fault::NoItem => b"a line begins with pid, services, store, put or area",
        Fault::PidTwice => b"pid stands once, and an earlier line has it",
        Fault::PidForm => b"a process ID is \"pid N\"",
        Fault::PidLarge => b"a process ID is at most 255",
        Fault::ServicesTwice => b"services stands once, and an earlier line has it",
        Fault::ServicesForm =>
            b"services are \"services WORD ..\": one or more of load, dump, check and connection",
        Fault::ServiceTwice => b"a service stands once on its line",
        Fault::StoreTwice => b"store stands once, and an earlier line has it",
        Fault::StoreForm => b"a store is \"store N\"",
        Fault::StoreLarge => b"a store has at most 65536 octets",
        Fault::PutEarly => b"put stands behind store, and no earlier line has it",
        Fault::PutForm => b"octets are put by \"put AT HEX ..\"",
        Fault::PutDigits => b"HEX is hexadecimal digits",
        Fault::PutOdd => b"HEX is two digits for each octet",
        Fault::PutPast => b"octets are put inside the store",
        Fault::AreaNinth => b"a unit has at most 8 areas",
        Fault::AreaForm =>
            b"an area is \"area ID start N words N at N [size N] [load] [dump] [check]\"",
        Fault::AreaId => b"a memory ID is at most 255",
        Fault::AreaOdd => b"an area begins at an even octet of the store",
        Fault::AreaSize => b"a word has 2 octets",
        Fault::RightTwice => b"a right stands once on its line",
        Fault::NumberForm =>
            b"a number is decimal digits without a leading zero, or 0x and hexadecimal digits",
        Fault::NumberLarge => b"a number is at most 4294967295",
        Fault::NoPid => b"a unit has \"pid N\", and no line has it",
        Fault::NoStore => b"a unit has \"store N\", and no line has it",
    }
}

// What is said of why a line is refused by 70.
fn halt_words(h: Halt, text: &mut [u8], at: usize) -> usize
    ensures { SaysBy (halt_words h) at text result }
{
    match h {
        Halt::Long => saying::text(text, at, b"too long"),
        Halt::Character { place, octet } => character_words(place, octet, text, at),
        Halt::Odd => saying::text(text, at, b"odd digits"),
        Halt::Unit(_) | Halt::Differs | Halt::NoPacket => saying::kept(text, at),
    }
}

// What is said of a character that is no digit.
fn character_words(place: usize, octet: u8, text: &mut [u8], at: usize) -> usize
    ensures { SaysBy (ascii "character " ++ (decimal_of place ++ (ascii " is " ++ text_of (octet ∷ [])))) at text result }
{
    let first = saying::text(text, at, b"character ");
    let digits = numerals::decimal(text, first, place as u64);
    let second = saying::text(text, digits, b" is ");
    saying::octets(text, second, &[octet])
}
