// What a packet asks for, what a profile offers of it, and what an action needs of an area.
#![tactic(auto)]

ghost use Rattle.std.specs.Prelude.{◌≡◌};
ghost use Rattle.laws.specs.First.{wrong_number};
ghost use Rattle.blocks.specs.Blocks.{blocks_of};
ghost use Rattle.requests.specs.Request.{serves, asked_for, memory_asked, offers, right_for, carried_by, most_words, inside_of, outside_of};

use blocks::Block;
use blocks::reading::Test;
use map::{Area, Flags, Rights};

// What a TC of service 6 asks for: (6,2), (6,5) or (6,9).
#[derive(Clone, Copy)]
pub enum Action {
    Load,
    Dump,
    Check,
}

// What can be asked of a service.
#[derive(Clone, Copy)]
pub enum Request {
    // Of service 6.
    Memory(Action),
    // Of service 17: (17,1).
    Connection,
}

// The types of the services known.
const MEMORY: u8 = 6;

const CONNECTION: u8 = 17;

// The most words of a block of a dump, and of any other, as many as its field can say.
pub const DUMP_MOST: u16 = 240;

const FIELD_MOST: u16 = u16::MAX;

// What a type and subtype ask for.
#[tactic(auto, unfolding(crate::specs::Request::asked_for))]
pub fn asked_for(kind: u8, subtype: u8) -> Option<Request>
    ensures { result ≡ asked_for kind subtype }
{
    match kind {
        MEMORY => memory_asked(subtype),
        CONNECTION if subtype == 1 => Some(Request::Connection),
        _ => None,
    }
}

// What a subtype of service 6 asks for.
#[tactic(auto, unfolding(crate::specs::Request::memory_asked))]
fn memory_asked(subtype: u8) -> Option<Request>
    ensures { result ≡ memory_asked subtype }
{
    match subtype {
        2 => Some(Request::Memory(Action::Load)),
        5 => Some(Request::Memory(Action::Dump)),
        9 => Some(Request::Memory(Action::Check)),
        _ => None,
    }
}

// Check 3: the type is 6 or 17, and a flag of it is set.
#[tactic(auto, unfolding(crate::specs::Request::serves))]
pub fn is_served(flags: Flags, kind: u8) -> bool
    ensures { result ≡ serves flags kind }
{
    match kind {
        MEMORY => flags.load || flags.dump || flags.check,
        CONNECTION => flags.connection,
        _ => false,
    }
}

// Check 4: the request is known, and its flag is on.
pub fn is_offered(flags: Flags, asked: Option<Request>) -> bool
    ensures { result ≡ offers flags asked }
{
    match asked {
        Some(Request::Memory(Action::Load)) => flags.load,
        Some(Request::Memory(Action::Dump)) => flags.dump,
        Some(Request::Memory(Action::Check)) => flags.check,
        Some(Request::Connection) => flags.connection,
        None => false,
    }
}

// The right in an area that an action needs.
pub fn right_for(rights: Rights, action: Action) -> bool
    ensures { result ≡ right_for rights action }
{
    match action {
        Action::Load => rights.load,
        Action::Dump => rights.dump,
        Action::Check => rights.check,
    }
}

// How many octets of the application data a word of a block is: a load carries its words, a dump and a check do not.
pub fn carried_by(action: Action) -> u8
    ensures { result ≡ carried_by action }
{
    match action {
        Action::Load => map::place::word_octets(),
        Action::Dump | Action::Check => 0,
    }
}

// The most words that a block may be long.
pub fn most_words(action: Action) -> u16
    ensures { result ≡ most_words action }
{
    match action {
        Action::Load | Action::Check => FIELD_MOST,
        Action::Dump => DUMP_MOST,
    }
}

// The first block, from 1, that is not wholly inside an area. A word carries so many octets in the application data.
#[tactic(auto, unfolding(crate::specs::Request::outside_of))]
pub fn first_outside(area: Area, carried: u8, application: &[u8]) -> Option<u16>
    ensures { result ≡ wrong_number (outside_of area (blocks_of carried application.now)) }
{
    blocks::reading::first_wrong(carried, application, &Inside { area })
}

// Whether a block lies wholly inside an area.
#[derive(Clone, Copy)]
struct Inside {
    area: Area,
}

impl Test for Inside {
    ghost test = { λ inside block. inside_of inside.area block };

    fn passes(&self, block: Block) -> bool {
        map::place::lies_inside(self.area, block.start, u32::from(block.words))
    }
}
