// The unit that a unit file states so far: its profile, how long its store is, and what an item adds to it.
#![tactic(auto)]

ghost use Rattle.std.specs.Prelude.{◌≡◌};
ghost use Rattle.unit.specs.Unit.{nothing_stated, with_pid, with_services, with_store, end_fault};

use map::{Area, Flags, Profile, Rights};
use stating::NO_FLAGS;
use stating::fault::Fault;

// The unit so far: its profile, which items that stand once are stated, and how many octets its store has.
#[derive(Clone, Copy)]
pub struct Draft {
    pub profile: Profile,
    pub pid: bool,
    pub services: bool,
    pub store: bool,
    pub stored: usize,
}

// An area that is not used.
const BLANK: Area = Area {
    start: 0,
    length: 0,
    first: 0,
    id: 0,
    rights: Rights {
        load: false,
        dump: false,
        check: false,
    },
};

// Before the first line nothing is stated.
pub fn nothing() -> Draft
    ensures { result ≡ nothing_stated }
{
    Draft {
        profile: Profile {
            pid: 0,
            flags: NO_FLAGS,
            count: 0,
            areas: [BLANK; 8],
        },
        pid: false,
        services: false,
        store: false,
        stored: 0,
    }
}

// What is wrong at the end: `pid` or `store` is missing.
#[tactic(auto, unfolding(crate::specs::Unit::end_fault))]
pub fn missing(d: Draft) -> Option<Fault>
    ensures { result ≡ end_fault d }
{
    if !d.pid {
        return Some(Fault::NoPid);
    }
    if !d.store {
        return Some(Fault::NoStore);
    }
    None
}

// A unit with its PID stated.
pub fn with_pid(d: Draft, pid: u8) -> Draft
    ensures { result ≡ with_pid d pid }
{
    Draft {
        profile: Profile { pid, ..d.profile },
        pid: true,
        ..d
    }
}

// A unit with its services stated.
pub fn with_services(d: Draft, flags: Flags) -> Draft
    ensures { result ≡ with_services d flags }
{
    Draft {
        profile: Profile { flags, ..d.profile },
        services: true,
        ..d
    }
}

// A unit with its store stated.
pub fn with_store(d: Draft, octets: usize) -> Draft
    ensures { result ≡ with_store d octets }
{
    Draft {
        store: true,
        stored: octets,
        ..d
    }
}
