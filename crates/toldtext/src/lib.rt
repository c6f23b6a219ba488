// What a frame tells, as text for people.
#![tactic(auto)]

ghost use Rattle.std.specs.Prelude.{◌++◌};
ghost use Rattle.octets.specs.Copy.{placed};
ghost use Rattle.saying.specs.Text.{SaysBy};
ghost use Rattle.contents.specs.Source.{entries_in};
ghost use Rattle.contents.specs.Told.{told_by, told_if, dump, check};
ghost use Rattle.toldtext.specs.Told.{in_decimal, in_hex, echo_text, failure_text, block_text, entry_text, entries_text, told_text};

use contents::{Checked, Contents, Dumped, Echo, Entry, Failed};

// Adds a word and a number in decimal.
pub fn put_decimal(word: &[u8], n: u64, text: &mut [u8], at: usize) -> usize
    ensures { SaysBy (in_decimal word.now n) at text result }
{
    let first = saying::text(text, at, word);
    numerals::decimal(text, first, n)
}

// Adds a word and octets in hexadecimal.
pub fn put_hex(word: &[u8], octets: &[u8], text: &mut [u8], at: usize) -> usize
    ensures { SaysBy (in_hex word.now octets.now) at text result }
{
    let first = saying::text(text, at, word);
    saying::octets(text, first, octets)
}

// Adds a TC's packet ID and sequence control.
fn put_echo(e: Echo, text: &mut [u8], at: usize) -> usize
    ensures { SaysBy (echo_text e.packet e.control) at text result }
{
    let packet = octets::numbers::octets_of16(e.packet);
    let control = octets::numbers::octets_of16(e.control);
    let first = put_hex(b" packet ", &packet, text, at);
    put_hex(b" control ", &control, text, first)
}

// Adds those, code and detail.
fn put_failed(r: Failed, text: &mut [u8], at: usize) -> usize
    ensures { SaysBy (echo_text r.echo.packet r.echo.control ++ failure_text r.code r.detail) at text result }
{
    let first = put_echo(r.echo, text, at);
    let second = put_decimal(b" code ", r.code as u64, text, first);
    put_decimal(b" detail ", r.detail as u64, text, second)
}

// Adds a block's start and length.
fn put_block(start: u32, long: u16, text: &mut [u8], at: usize) -> usize
    ensures { SaysBy (block_text start long) at text result }
{
    let octets = octets::numbers::octets_of32(start);
    let first = put_hex(b" start ", &octets, text, at);
    put_decimal(b" length ", long as u64, text, first)
}

// Adds what is said of a block.
fn put_entry(e: Entry, text: &mut [u8], at: usize) -> usize
    ensures { SaysBy (entry_text e) at text result }
{
    let crc = octets::numbers::octets_of16(e.crc);
    let first = put_block(e.start, e.length, text, at);
    put_hex(b" crc ", &crc, text, first)
}

// Adds what is said of so many blocks.
fn put_entries(blocks: u8, entries: &[u8], text: &mut [u8], at: usize) -> usize
    ensures { SaysBy (entries_text (entries_in blocks entries.now)) at text result }
{
    let mut end = saying::kept(text, at);
    for number in 0..blocks {
        end = put_entry(contents::entry_at(entries, number), text, end);
    }
    end
}

// Adds what a dump tells.
fn put_dumped(frame: &[u8], d: Dumped, text: &mut [u8], at: usize) -> usize
    ensures { SaysBy (told_text (dump d.memory d.start d.length (placed d.words frame.now))) at text result }
{
    let first = put_decimal(b" memory ", d.memory as u64, text, at);
    let second = put_block(d.start, d.length, text, first);
    put_hex(
        b" words ",
        octets::copy::placed(frame, d.words),
        text,
        second,
    )
}

// Adds what a check tells.
fn put_checked(frame: &[u8], c: Checked, text: &mut [u8], at: usize) -> usize
    ensures { SaysBy (told_text (check c.memory (entries_in c.blocks (placed c.entries frame.now)))) at text result }
{
    let first = put_decimal(b" memory ", c.memory as u64, text, at);
    let second = put_decimal(b" blocks ", c.blocks as u64, text, first);
    put_entries(
        c.blocks,
        octets::copy::placed(frame, c.entries),
        text,
        second,
    )
}

// Adds what a frame tells, if it tells anything.
pub fn put_told(frame: &[u8], told: Option<Contents>, text: &mut [u8], at: usize) -> usize
    ensures { SaysBy (told_text (told_if frame.now told)) at text result }
{
    match told {
        Some(contents) => put_contents(frame, contents, text, at),
        None => saying::kept(text, at),
    }
}

// Adds what the contents of a frame tell.
fn put_contents(frame: &[u8], told: Contents, text: &mut [u8], at: usize) -> usize
    ensures { SaysBy (told_text (told_by frame.now told)) at text result }
{
    match told {
        Contents::Accepts(echo) => put_echo(echo, text, at),
        Contents::Refuses(failed) => put_failed(failed, text, at),
        Contents::Completes(echo) => put_echo(echo, text, at),
        Contents::Dumps(dumped) => put_dumped(frame, dumped, text, at),
        Contents::Checks(checked) => put_checked(frame, checked, text, at),
        Contents::Connects => saying::kept(text, at),
    }
}
