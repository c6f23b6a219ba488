// What a line of a unit file states: an item by its first word.
#![tactic(auto)]

ghost use Rattle.std.specs.Prelude.{◌≡◌, ◌∷◌, ◌<◌};
ghost use Rattle.stating.specs.Stating.{words_left};
ghost use Rattle.unitline.specs.Line.{ninth_stated, item_stated, item_put, line_stated, line_put};
ghost use Rattle.unit.specs.Unit.{with_area};

use map::{Area, Profile};
use stating::Words;
use stating::fault::Fault;
use unit::Draft;

// A unit with one area more.
fn with_area(d: Draft, area: Area) -> Draft
    requires { d.profile.count < 8 }
    ensures { result ≡ with_area d area }
{
    let count = d.profile.count;
    Draft {
        profile: Profile {
            count: count + 1,
            areas: map::set_area(d.profile.areas, count as usize, area),
            ..d.profile
        },
        ..d
    }
}

// `area ID start N words N at N [size N] [RIGHT ..]`.
fn area(d: Draft, words: Words) -> Result<Draft, Fault>
    ensures { result ≡ ninth_stated d (words_left words.entry) }
{
    if map::AREAS <= d.profile.count as usize {
        return Err(Fault::AreaNinth);
    }
    Ok(with_area(d, arealine::area(words)?))
}

// What an item states by its first word, and what it puts into the store. The texts are compared one by one: the proof of a `match` on them, character by character, does not close.
#[tactic(auto, unfolding(crate::specs::Line::item_stated, crate::specs::Line::item_put))]
fn item(d: Draft, word: &[u8], words: Words, store: &mut [u8]) -> Result<Draft, Fault>
    ensures value { result ≡ item_stated d (word.now ∷ words_left words.entry) }
    ensures store_after { store.new ≡ item_put d store.old (word.now ∷ words_left words.entry) }
{
    if words::same(word, b"put") {
        return putting::put(d, words, store);
    }
    if words::same(word, b"pid") {
        return once::pid(d, words);
    }
    if words::same(word, b"services") {
        return once::services(d, words);
    }
    if words::same(word, b"store") {
        return once::store(d, words);
    }
    if words::same(word, b"area") {
        return area(d, words);
    }
    Err(Fault::NoItem)
}

// What a line states, and what it puts into the store.
#[tactic(auto, unfolding(crate::specs::Line::item_stated, crate::specs::Line::item_put, crate::specs::Line::line_stated, crate::specs::Line::line_put))]
pub fn state(d: Draft, line: &[u8], store: &mut [u8]) -> Result<Draft, Fault>
    ensures value { result ≡ line_stated d line.now }
    ensures store_after { store.new ≡ line_put d store.old line.now }
{
    let mut words = Words::new(line);
    match words.next() {
        Some(word) => item(d, word, words, store),
        None => Ok(d),
    }
}
