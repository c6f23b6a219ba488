// What the words behind an item of a unit file state: a number, services or rights, octets.
#![tactic(auto)]

ghost use Rattle.std.specs.Prelude.{◌≡◌, drop};
ghost use Rattle.std.specs.Iterator.{YieldsFirstRef, item_count};
ghost use Rattle.octets.specs.Copy.{laid};
ghost use Rattle.words.specs.Words.{words_of};
ghost use Rattle.stating.specs.Stating.{words_left, is_some, number_stated, number_value, flag_named, has_flag, with_flag, no_flags, flag_added, flags_from, flags_told, digits_from, digits_told, octets_stated};
ghost use Rattle.stating.specs.Wrongs.{plain, told_by};

use fault::{Fault, Wrong};
use map::Flags;

pub mod fault; // fault.rt: what is wrong with a line

// The words of a line that are left, from left to right.
#[derive(Clone, Copy)]
pub struct Words<'a> {
    line: &'a [u8],
    at: usize,
}

// No flag is set.
pub const NO_FLAGS: Flags = Flags {
    load: false,
    dump: false,
    check: false,
    connection: false,
};

// A service, or a right.
#[derive(Clone, Copy)]
enum Flag {
    Load,
    Dump,
    Check,
    Connection,
}

impl<'a> Iterator for Words<'a> {
    type Item = &'a [u8];

    ghost next_gives = { YieldsFirstRef words_left };

    ghost remaining = { item_count words_left };

    #[tactic(auto, using(crate::proofs::Steps::next_none, crate::proofs::Steps::next_some, crate::proofs::Steps::next_fewer))]
    fn next(&mut self) -> Option<&'a [u8]> {
        let p = words::next(self.line, self.at);
        if p.to <= p.from {
            return None;
        }
        self.at = p.to;
        Some(octets::copy::placed(self.line, p))
    }
}

impl<'a> Words<'a> {
    // All words of a line.
    pub fn new(line: &'a [u8]) -> Words<'a>
        ensures { words_left result ≡ words_of line.now }
    {
        Words { line, at: 0 }
    }

    // Whether a word is left.
    pub fn more(self) -> bool
        ensures { result ≡ is_some (words_left self.entry) }
    {
        let mut ahead = self;
        ahead.next().is_some()
    }

    // The number that the next word states: it may be missing, or too large. What is told beside a fault is its value, or 0.
    #[tactic(auto, unfolding(crate::specs::Stating::number_stated, crate::specs::Stating::number_value))]
    pub fn number(&mut self, most: u32, missing: Fault, large: Fault) -> Result<u32, Wrong<u32>>
        ensures value { plain result ≡ number_stated most missing large (words_left self.old) }
        ensures told { told_by result ≡ number_value (words_left self.old) }
        ensures behind { words_left self.new ≡ drop 1 (words_left self.old) }
    {
        let word = self.next().ok_or(Wrong::new(missing, 0))?;
        let value = numerals::number(word)?;
        if most < value {
            return Err(Wrong::new(large, value));
        }
        Ok(value)
    }

    // The flags that the words name: of those that are known, each at most once, in any order. Those before the word at fault are told beside it.
    #[tactic(auto, unfolding(crate::specs::Stating::flags_from, crate::specs::Stating::flags_told))]
    pub fn flags(self, known: Flags, unknown: Fault, twice: Fault) -> Result<Flags, Wrong<Flags>>
        ensures value { plain result ≡ flags_from known unknown twice no_flags (words_left self.entry) }
        ensures told { told_by result ≡ flags_told known no_flags (words_left self.entry) }
    {
        let mut f = NO_FLAGS;
        for word in self {
            f = flag_added(f, word, known, unknown, twice).map_err(|fault| Wrong::new(fault, f))?;
        }
        Ok(f)
    }

    // How many octets the words state, two digits each. Those before the word at fault are told beside it.
    #[tactic(auto, using(crate::proofs::Steps::octets_fit, crate::proofs::Steps::count_next), unfolding(crate::specs::Stating::digits_from, crate::specs::Stating::digits_told))]
    pub fn digits(self) -> Result<usize, Wrong<usize>>
        ensures value { plain result ≡ digits_from 0 (words_left self.entry) }
        ensures told { told_by result ≡ digits_told 0 (words_left self.entry) }
    {
        let mut count = 0;
        for word in self {
            if !characters::text::all_digits(word) {
                return Err(Wrong::new(Fault::PutDigits, count));
            }
            if word.len() % 2 != 0 {
                return Err(Wrong::new(Fault::PutOdd, count));
            }
            count += word.len() / 2;
        }
        Ok(count)
    }

    // Lays the octets that the words state into a store from a place on.
    #[tactic(auto, using(crate::proofs::Steps::lay_end, crate::proofs::Steps::lay_next))]
    pub fn lay(self, store: &mut [u8], to: usize)
        ensures { store.new ≡ laid store.old to (octets_stated (words_left self.entry)) }
    {
        let mut put = to;
        for word in self {
            characters::text::decode(word, store, put);
            put = put.saturating_add(word.len() / 2);
        }
    }
}

// Which flag a word names. The texts are compared one by one: the proof of a `match` on them, character by character, does not close.
#[tactic(auto, unfolding(crate::specs::Stating::flag_named))]
fn flag_named(word: &[u8]) -> Option<Flag>
    ensures { result ≡ flag_named word.now }
{
    if words::same(word, b"load") {
        return Some(Flag::Load);
    }
    if words::same(word, b"dump") {
        return Some(Flag::Dump);
    }
    if words::same(word, b"check") {
        return Some(Flag::Check);
    }
    if words::same(word, b"connection") {
        return Some(Flag::Connection);
    }
    None
}

// Whether a flag is set.
fn has_flag(f: Flags, flag: Flag) -> bool
    ensures { result ≡ has_flag f flag }
{
    match flag {
        Flag::Load => f.load,
        Flag::Dump => f.dump,
        Flag::Check => f.check,
        Flag::Connection => f.connection,
    }
}

// The flags with one set.
fn with_flag(f: Flags, flag: Flag) -> Flags
    ensures { result ≡ with_flag f flag }
{
    match flag {
        Flag::Load => Flags { load: true, ..f },
        Flag::Dump => Flags { dump: true, ..f },
        Flag::Check => Flags { check: true, ..f },
        Flag::Connection => Flags {
            connection: true,
            ..f
        },
    }
}

// The flags with the one that a word names: one of those that are known, which is not set yet.
fn flag_added(
    f: Flags,
    word: &[u8],
    known: Flags,
    unknown: Fault,
    twice: Fault,
) -> Result<Flags, Fault>
    ensures { result ≡ flag_added known unknown twice f (flag_named word.now) }
{
    let flag = flag_named(word).ok_or(unknown)?;
    if !has_flag(known, flag) {
        return Err(unknown);
    }
    if has_flag(f, flag) {
        return Err(twice);
    }
    Ok(with_flag(f, flag))
}
