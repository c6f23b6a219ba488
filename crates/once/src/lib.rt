// The items of a unit file that stand once: `pid`, `services` and `store`.
#![tactic(auto)]

ghost use Rattle.std.specs.Prelude.{◌≡◌};
ghost use Rattle.stating.specs.Stating.{words_left};
ghost use Rattle.once.specs.Once.{sole_stated, pid_stated, services_stated, store_stated};

use map::Flags;
use stating::Words;
use stating::fault::Fault;
use unit::Draft;

// The most that the number of an item that stands once may be, and what is wrong where the item stands twice, has another form, or is larger.
#[derive(Clone, Copy)]
struct Rule {
    most: u32,
    twice: Fault,
    form: Fault,
    large: Fault,
}

// A PID that a file states is at most 255.
const PID: Rule = Rule {
    most: 255,
    twice: Fault::PidTwice,
    form: Fault::PidForm,
    large: Fault::PidLarge,
};

// A store has at most 65,536 octets.
const STORE: Rule = Rule {
    most: 65536,
    twice: Fault::StoreTwice,
    form: Fault::StoreForm,
    large: Fault::StoreLarge,
};

// The flags that are services: all of them.
const SERVICES: Flags = Flags {
    load: true,
    dump: true,
    check: true,
    connection: true,
};

// The number of an item that stands once: it is at most so large, and the last word.
#[tactic(auto, unfolding(crate::specs::Once::sole_stated))]
fn sole(earlier: bool, words: Words, rule: Rule) -> Result<u32, Fault>
    ensures { result ≡ sole_stated earlier rule (words_left words.entry) }
{
    if earlier {
        return Err(rule.twice);
    }
    let mut left = words;
    let value = left.number(rule.most, rule.form, rule.large)?;
    if left.more() {
        return Err(rule.form);
    }
    Ok(value)
}

// `pid N`.
#[tactic(auto, using(crate::proofs::Bound::sole_bound))]
pub fn pid(d: Draft, words: Words) -> Result<Draft, Fault>
    ensures { result ≡ pid_stated d (words_left words.entry) }
{
    let pid = sole(d.pid, words, PID)?;
    Ok(unit::with_pid(d, pid as u8))
}

// `services WORD ..`.
pub fn services(d: Draft, words: Words) -> Result<Draft, Fault>
    ensures { result ≡ services_stated d (words_left words.entry) }
{
    if d.services {
        return Err(Fault::ServicesTwice);
    }
    if !words.more() {
        return Err(Fault::ServicesForm);
    }
    let flags = words.flags(SERVICES, Fault::ServicesForm, Fault::ServiceTwice)?;
    Ok(unit::with_services(d, flags))
}

// `store N`.
pub fn store(d: Draft, words: Words) -> Result<Draft, Fault>
    ensures { result ≡ store_stated d (words_left words.entry) }
{
    let octets = sole(d.store, words, STORE)?;
    Ok(unit::with_store(d, octets as usize))
}
