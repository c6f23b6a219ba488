// What a report tells: the kinds of reports, which source data each has, and what is read in it.
#![tactic(auto)]

ghost use Rattle.std.specs.Prelude.{◌≡◌, ◌+◌, ◌*◌, ◌≤◌};
ghost use Rattle.map.specs.Place.{word_octets};
ghost use Rattle.contents.specs.Kinds.{kind_of};
ghost use Rattle.contents.specs.Source.{dump_head_size, entry_at, lengths_right_of, dump_formed, check_formed, formed_if, echo_in, failed_in, part_behind, dumped_in, checked_in, contents_if};

use octets::copy::Span;

// The kinds of reports, by type and subtype.
#[derive(Clone, Copy)]
pub enum Kind {
    // (1,1)
    Acceptance,
    // (1,2)
    Failure,
    // (1,7)
    Completion,
    // (6,6)
    Dump,
    // (6,10)
    Check,
    // (17,2)
    Connection,
}

// What a report of service 1 repeats of a TC: its packet ID and sequence control.
#[derive(Clone, Copy)]
pub struct Echo {
    pub packet: u16,
    pub control: u16,
}

// A refusal: the TC's, the code and the detail.
#[derive(Clone, Copy)]
pub struct Failed {
    pub echo: Echo,
    pub code: u16,
    pub detail: u16,
}

// A dump: the memory ID, the block's start and length, and where in the frame its words stand.
#[derive(Clone, Copy)]
pub struct Dumped {
    pub memory: u8,
    pub start: u32,
    pub length: u16,
    pub words: Span,
}

// A check: the memory ID, how many blocks there are, and where in the frame their entries stand.
#[derive(Clone, Copy)]
pub struct Checked {
    pub memory: u8,
    pub blocks: u8,
    pub entries: Span,
}

// What a check says of a block.
#[derive(Clone, Copy)]
pub struct Entry {
    pub start: u32,
    pub length: u16,
    pub crc: u16,
}

// What a frame tells, by its kind.
#[derive(Clone, Copy)]
pub enum Contents {
    Accepts(Echo),
    Refuses(Failed),
    Completes(Echo),
    Dumps(Dumped),
    Checks(Checked),
    Connects,
}

// The services that report.
const REPORTS: u8 = 1;

const MEMORY: u8 = 6;

const CONNECTION: u8 = 17;

// How many octets a TC's packet ID and sequence control are, and those with code and detail.
const ECHO: usize = 4;

const FAILURE: usize = 8;

// How many octets of (6,6) stand before the words, and how many an entry of (6,10) has.
const DUMP_HEAD: usize = 8;

pub const ENTRY: usize = 8;

// The kind of the reports of a type and subtype, if they are one of the six.
#[tactic(auto, unfolding(crate::specs::Kinds::kind_of))]
pub fn kind_of(kind: u8, subtype: u8) -> Option<Kind>
    ensures { result ≡ kind_of kind subtype }
{
    match (kind, subtype) {
        (REPORTS, 1) => Some(Kind::Acceptance),
        (REPORTS, 2) => Some(Kind::Failure),
        (REPORTS, 7) => Some(Kind::Completion),
        (MEMORY, 6) => Some(Kind::Dump),
        (MEMORY, 10) => Some(Kind::Check),
        (CONNECTION, 2) => Some(Kind::Connection),
        _ => None,
    }
}

// An entry of (6,10) by its number, from 0; octets past the end count as 0.
pub fn entry_at(entries: &[u8], number: u8) -> Entry
    ensures { result ≡ entry_at entries.now number }
{
    let from = octets::copy::behind(entries, usize::from(number) * ENTRY);
    Entry {
        start: octets::numbers::word32_at(from, 0),
        length: octets::numbers::word16_at(from, 4),
        crc: octets::numbers::word16_at(from, 6),
    }
}

// Whether the lengths of so many entries are each at least 1.
fn lengths_right(blocks: u8, entries: &[u8]) -> bool
    ensures { result ≡ lengths_right_of blocks entries.now }
{
    (0..blocks).all(|number| 1 <= entry_at(entries, number).length)
}

// How many octets the source data of (6,6) is, with so many words.
fn dump_size(words: u16) -> usize
    ensures { result ≡ words * word_octets + dump_head_size }
{
    let octets = map::place::word_octets() as usize;
    usize::from(words) * octets + DUMP_HEAD
}

// Whether source data is that of (6,6): the octet 1, a length of 1 to 240 words, and exactly the words.
#[tactic(auto, unfolding(crate::specs::Source::dump_formed))]
fn dump_formed(source: &[u8]) -> bool
    ensures { result ≡ dump_formed source.now }
{
    let words = octets::numbers::word16_at(source, 6);
    octets::numbers::octet_at(source, 1) == 1
        && 1 <= words
        && words <= requests::DUMP_MOST
        && source.len() == dump_size(words)
}

// Whether source data is that of (6,10): 1 to 8 blocks, exactly their entries, and no length of 0.
#[tactic(auto, unfolding(crate::specs::Source::check_formed))]
fn check_formed(source: &[u8]) -> bool
    ensures { result ≡ check_formed source.now }
{
    let blocks = octets::numbers::one(source, 1);
    1 <= blocks
        && u16::from(blocks) <= blocks::BLOCKS_MOST
        && source.len() == usize::from(blocks) * ENTRY + blocks::FIRST
        && lengths_right(blocks, octets::copy::behind(source, blocks::FIRST))
}

// Whether source data is that of a kind of report, if there is one.
pub fn formed(kind: Option<Kind>, source: &[u8]) -> bool
    ensures { result ≡ formed_if kind source.now }
{
    match kind {
        Some(Kind::Acceptance) => source.len() == ECHO,
        Some(Kind::Failure) => source.len() == FAILURE,
        Some(Kind::Completion) => source.len() == ECHO,
        Some(Kind::Dump) => dump_formed(source),
        Some(Kind::Check) => check_formed(source),
        Some(Kind::Connection) => source.is_empty(),
        None => false,
    }
}

// A TC's packet ID and sequence control at the front of source data.
fn echo_in(source: &[u8]) -> Echo
    ensures { result ≡ echo_in source.now }
{
    Echo {
        packet: octets::numbers::word16_at(source, 0),
        control: octets::numbers::word16_at(source, 2),
    }
}

// What a refusal tells.
fn failed_in(source: &[u8]) -> Failed
    ensures { result ≡ failed_in source.now }
{
    Failed {
        echo: echo_in(source),
        code: octets::numbers::word16_at(source, 4),
        detail: octets::numbers::word16_at(source, 6),
    }
}

// A part of a frame: what stands behind so many octets of its source data.
fn part(head: usize, source: &[u8]) -> Span
    requires { head ≤ 8 }
    ensures { result ≡ part_behind head source.now }
{
    Span {
        from: tm::HEAD + head,
        to: tm::HEAD + source.len(),
    }
}

// What a dump tells.
fn dumped_in(source: &[u8]) -> Dumped
    ensures { result ≡ dumped_in source.now }
{
    Dumped {
        memory: octets::numbers::one(source, 0),
        start: octets::numbers::word32_at(source, 2),
        length: octets::numbers::word16_at(source, 6),
        words: part(DUMP_HEAD, source),
    }
}

// What a check tells.
fn checked_in(source: &[u8]) -> Checked
    ensures { result ≡ checked_in source.now }
{
    Checked {
        memory: octets::numbers::one(source, 0),
        blocks: octets::numbers::one(source, 1),
        entries: part(blocks::FIRST, source),
    }
}

// What source data of a kind of report tells, if there is one.
pub fn read(kind: Option<Kind>, source: &[u8]) -> Option<Contents>
    ensures { result ≡ contents_if kind source.now }
{
    let told = match kind? {
        Kind::Acceptance => Contents::Accepts(echo_in(source)),
        Kind::Failure => Contents::Refuses(failed_in(source)),
        Kind::Completion => Contents::Completes(echo_in(source)),
        Kind::Dump => Contents::Dumps(dumped_in(source)),
        Kind::Check => Contents::Checks(checked_in(source)),
        Kind::Connection => Contents::Connects,
    };
    Some(told)
}
