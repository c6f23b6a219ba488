// Octets that a line of a unit file puts into the store.
#![tactic(auto)]

ghost use Rattle.std.specs.Prelude.{◌≡◌, OnOk, ◌+◌, drop, leb};
ghost use Rattle.stating.specs.Stating.{words_left};
ghost use Rattle.putting.specs.Putting.{octets_put, place_put, put_stated, put_into};

use stating::Words;
use stating::fault::Fault;
use unit::Draft;

// Whether so many octets from a place on lie inside a store.
fn lie_inside(to: u32, count: usize, stored: usize) -> bool
    ensures { result ≡ leb (to + count) stored }
{
    (to as usize)
        .checked_add(count)
        .is_some_and(|end| end <= stored)
}

// The place at which the words of octets behind it are put.
#[tactic(auto, unfolding(crate::specs::Putting::place_put, crate::specs::Putting::octets_put))]
fn place(d: Draft, words: &mut Words) -> Result<u32, Fault>
    ensures value { result ≡ place_put d (words_left words.old) }
    ensures behind { OnOk result (words_left words.new ≡ drop 1 (words_left words.old)) }
{
    if !d.store {
        return Err(Fault::PutEarly);
    }
    let to = words.number(u32::MAX, Fault::PutForm, Fault::NumberLarge)?;
    if !words.more() {
        return Err(Fault::PutForm);
    }
    let count = words.digits()?;
    if !lie_inside(to, count, d.stored) {
        return Err(Fault::PutPast);
    }
    Ok(to)
}

// `put AT HEX ..`.
pub fn put(d: Draft, words: Words, store: &mut [u8]) -> Result<Draft, Fault>
    ensures value { result ≡ put_stated d (words_left words.entry) }
    ensures store_after { store.new ≡ put_into d store.old (words_left words.entry) }
{
    let mut left = words;
    let to = place(d, &mut left)?;
    left.lay(store, to as usize);
    Ok(d)
}
