// What stays from line to line, and the commands that set it: P, S, K, T and B.
ghost use Rattle.std.specs.Prelude.{◌≡◌, ◌<◌, length};
ghost use Rattle.octets.specs.Numbers.{octet};
ghost use Rattle.octets.specs.Copy.{laid};
ghost use Rattle.commands.specs.Session.{start_of, area_at, profile_in, state_in, time_in, filling, with_profile, with_state, with_time, with_stored, with_room};

use decide::State;
use map::{Area, Flags, Profile, Rights};

// The terminal's profile, counts and time, and the lengths of its store and its output buffer.
#[derive(Clone, Copy)]
pub struct Session {
    pub profile: Profile,
    pub state: State,
    pub time: [u8; 6],
    // The store and the output buffer are arrays of a fixed size that the program has, since nothing is allocated; of each a front is used.
    pub stored: usize,
    pub room: usize,
}

// The longest store, and what holds it.
pub const STORE_ROOM: usize = 65600;

pub type Store = [u8; STORE_ROOM];

// The longest output buffer, and what holds it.
pub const OUT_ROOM: usize = 8192;

pub type Out = [u8; OUT_ROOM];

// How many octets the time is.
pub const TIME_OCTETS: usize = 6;

// How many octets stand before the areas of a profile, how many an area has, and where the rights of the first stand.
pub const HEAD_OCTETS: usize = 3;

pub const AREA_OCTETS: usize = 14;

pub const RIGHTS_AT: usize = 16;

// The lengths of store and output buffer at the start.
const STORED: usize = 128;

const ROOM: usize = 4096;

// The start: a profile, counts of 0, time zero, 128 octets of store, an output buffer of 4,096.
pub fn start(profile: Profile) -> Session
    ensures { result ≡ start_of profile }
{
    Session {
        profile,
        state: State {
            counts: counts::none(),
        },
        time: [0; 6],
        stored: STORED,
        room: ROOM,
    }
}

// The session with other counts.
pub fn with_state(s: Session, state: State) -> Session
    ensures { result ≡ with_state s state }
{
    Session { state, ..s }
}

// P: the profile.
pub fn set_profile(s: Session, given: &[u8]) -> Session
    ensures { result ≡ with_profile s (profile_in given.now) }
{
    Session {
        profile: profile_in(given),
        ..s
    }
}

// PID, flags, area count, areas.
#[tactic(auto, unfolding(crate::specs::Session::profile_in))]
pub fn profile_in(given: &[u8]) -> Profile
    ensures { result ≡ profile_in given.now }
{
    let flags = octets::numbers::one(given, 1);
    Profile {
        pid: octets::numbers::one(given, 0),
        flags: Flags {
            load: flags % 2 == 1,
            dump: flags / 2 % 2 == 1,
            check: flags / 4 % 2 == 1,
            connection: flags / 8 % 2 == 1,
        },
        count: octets::numbers::one(given, 2),
        areas: std::array::from_fn(|k| area_at(given, k)),
    }
}

// An area of a profile: ID, start, length, first word, rights; octets past the end count as 0, so that an area that is not given is all zero.
#[tactic(auto, unfolding(crate::specs::Session::area_from))]
fn area_at(given: &[u8], index: usize) -> Area
    requires { index < 8 }
    ensures { result ≡ area_at given.now index }
{
    let at = HEAD_OCTETS + AREA_OCTETS * index;
    let rights = octets::numbers::one(given, at + 13);
    Area {
        id: octets::numbers::one(given, at),
        start: octets::numbers::word32_at(given, at + 1),
        length: octets::numbers::word32_at(given, at + 5),
        first: octets::numbers::word32_at(given, at + 9),
        rights: Rights {
            load: rights % 2 == 1,
            dump: rights / 2 % 2 == 1,
            check: rights / 4 % 2 == 1,
        },
    }
}

// S: the store.
pub fn set_store(s: Session, given: &[u8], store: &mut [u8]) -> Session
    ensures value { result ≡ with_stored s (length given.now) }
    ensures store_after { store.new ≡ laid store.old 0 given.now }
{
    let stored = octets::copy::put(store, 0, given);
    Session { stored, ..s }
}

// K: the counts.
pub fn set_counts(s: Session, given: &[u8]) -> Session
    ensures { result ≡ with_state s (state_in given.now) }
{
    let counts = counts::counts_in(given);
    with_state(s, State { counts })
}

// T: the time.
pub fn set_time(s: Session, given: &[u8]) -> Session
    ensures { result ≡ with_time s (time_in given.now) }
{
    let time = std::array::from_fn(|k| octets::numbers::one(given, k));
    Session { time, ..s }
}

// B: the output buffer's length, and the octet that fills it.
pub fn set_buffer(s: Session, given: &[u8], out: &mut [u8]) -> Session
    ensures value { result ≡ with_room s (length (filling given.now)) }
    ensures out_after { out.new ≡ laid out.old 0 (filling given.now) }
{
    let full = [octets::numbers::one(given, 2); OUT_ROOM];
    let length = octets::numbers::word16_at(given, 0) as usize;
    let room = octets::copy::put(out, 0, lines::front(&full, length));
    Session { room, ..s }
}
