// Document 01, "Profile and memory": areas, profiles, and when a profile is sound over a store.
#![tactic(auto)]

ghost use Rattle.std.specs.Prelude.{◌≡◌, ◌+◌, ◌≤◌, ◌^◌, set};
ghost use Rattle.map.specs.Place.{octets_of};

pub mod place; // place.rt: which area has a memory ID, and where its words stand in the store

// What may be done in an area.
#[derive(Clone, Copy)]
pub struct Rights {
    pub load: bool,
    pub dump: bool,
    pub check: bool,
}

// Which services are offered.
#[derive(Clone, Copy)]
pub struct Flags {
    pub load: bool,
    pub dump: bool,
    pub check: bool,
    pub connection: bool,
}

// Some consecutive addresses of one memory, and where their words stand in the store. In this order a profile's areas have no gaps: programs carry them by value from line to line.
#[derive(Clone, Copy)]
pub struct Area {
    // The address of the first word.
    pub start: u32,
    // How many words there are.
    pub length: u32,
    // The store word that holds the first one.
    pub first: u32,
    // The memory ID.
    pub id: u8,
    pub rights: Rights,
}

// Who is addressed, which services it offers, and its areas: the first `count` places of `areas`.
#[derive(Clone, Copy)]
pub struct Profile {
    pub pid: u8,
    pub flags: Flags,
    pub count: u8,
    pub areas: [Area; 8],
}

// How many octets a word is.
const WORD: u8 = 2;

// The most areas.
pub const AREAS: usize = 8;

// The eight places with one of them set; a place past the eighth changes nothing.
pub fn set_area(areas: [Area; 8], at: usize, area: Area) -> [Area; 8]
    ensures { result ≡ set areas at area }
{
    let mut all = areas;
    if at < AREAS {
        all[at] = area;
    }
    all
}

// Where a number of words ends that begins at an address or a store word. It may be 2^32 or more, so it is never worked out in 32 bits.
pub fn end_of(from: u32, words: u32) -> u64
    ensures { result ≡ from + words }
{
    u64::from(from) + u64::from(words)
}

// How many octets a number of an area's words is.
fn octets_in(area: Area, words: u64) -> u64
    requires { words ≤ 2 ^ 33 }
    ensures { result ≡ octets_of area words }
{
    words * (WORD as u64)
}
