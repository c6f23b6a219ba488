// The area that words of a unit file state: `ID start N words N at N [size N] [RIGHT ..]`.
#![tactic(auto)]

ghost use Rattle.std.specs.Prelude.{◌≡◌, OnOk, Ok, drop};
ghost use Rattle.stating.specs.Stating.{and_then, words_left};
ghost use Rattle.arealine.specs.Area.{is_next, labelled, first_word, past_size, rights_named, placed, area_stated};

use map::{Area, Flags, Rights};
use stating::Words;
use stating::fault::Fault;

// The largest memory ID.
const ID_MOST: u32 = 255;

// The one size of a word that there is today.
const WORD_SIZE: u32 = 2;

// The flags that are rights: load, dump and check.
const RIGHTS: Flags = Flags {
    load: true,
    dump: true,
    check: true,
    connection: false,
};

// No right.
const NO_RIGHTS: Rights = Rights {
    load: false,
    dump: false,
    check: false,
};

// Whether a text is the next word.
fn is_next(words: Words, text: &[u8]) -> bool
    ensures { result ≡ is_next text.now (words_left words.entry) }
{
    let mut ahead = words;
    match ahead.next() {
        Some(word) => words::same(word, text),
        None => false,
    }
}

// A word and the number behind it.
#[tactic(auto, unfolding(crate::specs::Area::labelled))]
fn labelled(words: &mut Words, label: &[u8]) -> Result<u32, Fault>
    ensures value { result ≡ labelled label.now (words_left words.old) }
    ensures behind { OnOk result (words_left words.new ≡ drop 2 (words_left words.old)) }
{
    let word = words.next().ok_or(Fault::AreaForm)?;
    if !words::same(word, label) {
        return Err(Fault::AreaForm);
    }
    Ok(words.number(u32::MAX, Fault::AreaForm, Fault::NumberLarge)?)
}

// `at N`, where `at` is even: the store word that begins there.
#[tactic(auto, unfolding(crate::specs::Area::first_word))]
fn first_word(words: &mut Words) -> Result<u32, Fault>
    ensures value { result ≡ first_word (words_left words.old) }
    ensures behind { OnOk result (words_left words.new ≡ drop 2 (words_left words.old)) }
{
    let octet = labelled(words, b"at")?;
    if octet % WORD_SIZE != 0 {
        return Err(Fault::AreaOdd);
    }
    Ok(octet / WORD_SIZE)
}

// Passes `size N`, which may be left out: there is one size today.
#[tactic(auto, unfolding(crate::specs::Area::past_size, crate::specs::Area::labelled))]
fn pass_size(words: &mut Words) -> Result<(), Fault>
    ensures { past_size (words_left words.old) ≡ and_then result (λ _. Ok (words_left words.new)) }
{
    if !is_next(*words, b"size") {
        return Ok(());
    }
    if labelled(words, b"size")? != WORD_SIZE {
        return Err(Fault::AreaSize);
    }
    Ok(())
}

// The rights that the words name.
#[tactic(auto, unfolding(crate::specs::Area::rights_named))]
fn rights(words: Words) -> Result<Rights, Fault>
    ensures { result ≡ rights_named (words_left words.entry) }
{
    let f = words.flags(RIGHTS, Fault::AreaForm, Fault::RightTwice)?;
    Ok(Rights {
        load: f.load,
        dump: f.dump,
        check: f.check,
    })
}

// `ID start N words N at N`: an area without rights.
#[tactic(auto, using(crate::proofs::Parts::two_more, stating::proofs::Bound::number_bound), unfolding(crate::specs::Area::placed))]
fn placed(words: &mut Words) -> Result<Area, Fault>
    ensures value { result ≡ placed (words_left words.old) }
    ensures behind { OnOk result (words_left words.new ≡ drop 7 (words_left words.old)) }
{
    let id = words.number(ID_MOST, Fault::AreaForm, Fault::AreaId)?;
    let start = labelled(words, b"start")?;
    let length = labelled(words, b"words")?;
    let first = first_word(words)?;
    Ok(Area {
        start,
        length,
        first,
        id: id as u8,
        rights: NO_RIGHTS,
    })
}

// The area that the words state.
#[tactic(auto, unfolding(crate::specs::Area::area_stated))]
pub fn area(words: Words) -> Result<Area, Fault>
    ensures { result ≡ area_stated (words_left words.entry) }
{
    let mut left = words;
    let place = placed(&mut left)?;
    pass_size(&mut left)?;
    let rights = rights(left)?;
    Ok(Area { rights, ..place })
}
