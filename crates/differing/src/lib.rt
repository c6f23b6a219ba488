// What is told of a line of a record that differs.
#![tactic(auto)]

ghost use Rattle.std.specs.Prelude.{◌≡◌, ◌++◌, take, drop};
ghost use Rattle.characters.specs.Digits.{text_of, upper_text};
ghost use Rattle.words.specs.Ascii.{ascii};
ghost use Rattle.saying.specs.Text.{SaysBy};
ghost use Rattle.differing.specs.Differing.{number_line, due_text, found_text, octet_line, differs_text, text_line};

use tm::{TIME_END, TIME_FIRST};

// How many digits an octet has.
const DIGITS: usize = 2;

// Adds a word and a number on a line.
pub fn number_line(word: &[u8], number: u64, text: &mut [u8], at: usize) -> usize
    ensures { SaysBy (number_line word.now number) at text result }
{
    let first = saying::text(text, at, word);
    let behind = numerals::decimal(text, first, number);
    saying::end(text, behind)
}

// Adds the frame due with the time of the line found, which is long enough to hold one.
fn put_timed(due: &[u8], line: &[u8], text: &mut [u8], at: usize) -> usize
    ensures { SaysBy (text_of (take 6 due.now) ++ (upper_text (take 12 (drop 12 line.now)) ++ text_of (drop 12 due.now))) at text result }
{
    let first = saying::octets(text, at, lines::front(due, TIME_FIRST));
    let time = lines::piece(line, DIGITS * TIME_FIRST, DIGITS * (TIME_END - TIME_FIRST));
    let behind = saying::upper(text, first, time);
    saying::octets(text, behind, lines::piece(due, TIME_END, due.len()))
}

// Adds the frame due, or `nothing`.
fn put_due(due: &[u8], line: &[u8], text: &mut [u8], at: usize) -> usize
    ensures { SaysBy (due_text due.now line.now) at text result }
{
    if due.is_empty() {
        return saying::text(text, at, b"nothing");
    }
    if DIGITS * TIME_END <= line.len() {
        return put_timed(due, line, text, at);
    }
    saying::octets(text, at, due)
}

// Adds the line found, or `nothing`.
fn put_found(line: &[u8], text: &mut [u8], at: usize) -> usize
    ensures { SaysBy (found_text line.now) at text result }
{
    if line.is_empty() {
        return saying::text(text, at, b"nothing");
    }
    saying::upper(text, at, line)
}

// Adds what was due and what was found, each on its line.
fn put_both(due: &[u8], line: &[u8], text: &mut [u8], at: usize) -> usize
    ensures { SaysBy (text_line (ascii "due ") (due_text due.now line.now) ++ text_line (ascii "found ") (found_text line.now)) at text result }
{
    let due_word = saying::text(text, at, b"due ");
    let due_end = put_due(due, line, text, due_word);
    let found = saying::end(text, due_end);
    let found_word = saying::text(text, found, b"found ");
    let found_end = put_found(line, text, found_word);
    saying::end(text, found_end)
}

// Adds the first octet at which they part, where both are there.
fn put_octet(due: &[u8], line: &[u8], text: &mut [u8], at: usize) -> usize
    ensures { SaysBy (octet_line due.now line.now) at text result }
{
    if due.is_empty() || line.is_empty() {
        return saying::kept(text, at);
    }
    let place = beside::parting(due, line);
    number_line(b"octet ", place as u64, text, at)
}

// Adds all that is told of a line that differs: its number, the line of its packet, what was due and what was found there.
pub fn put_differs(
    number: u64,
    packet: u64,
    due: &[u8],
    line: &[u8],
    text: &mut [u8],
    at: usize,
) -> usize
    ensures { SaysBy (differs_text number packet due.now line.now) at text result }
{
    let first = number_line(b"differs ", number, text, at);
    let second = number_line(b"packet ", packet, text, first);
    let third = put_both(due, line, text, second);
    put_octet(due, line, text, third)
}
