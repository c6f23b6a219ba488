// Document 01, "Profile and memory": whether a profile is sound over a store, by the definition in `map`.
#![tactic(auto)]

ghost use Rattle.std.specs.Prelude.{◌≡◌};
ghost use Rattle.laws.specs.Each.{every};
ghost use Rattle.map.specs.Sound.{sound, store_allowed, area_sound, ahead, apart, pair_sound, every_pair};

use map::place::{store_end, used};
use map::{AREAS, Area, Profile, end_of};

// The most octets of a store.
pub const STORE_MOST: usize = 65536;

// How many addresses there are.
pub const ADDRESSES: u64 = 4294967296;

// The largest process ID.
pub const PID_MOST: u8 = 127;

// Whether a store may be lent.
#[tactic(auto, unfolding(map::specs::Sound::store_allowed))]
pub fn store_allowed(octets: usize) -> bool
    ensures { result ≡ store_allowed octets }
{
    octets % 2 == 0 && octets <= STORE_MOST
}

// What an area must meet by itself, over a store of that many octets.
#[tactic(auto, unfolding(map::specs::Sound::area_sound))]
fn is_area_sound(octets: usize, area: Area) -> bool
    ensures { result ≡ area_sound octets area }
{
    area.length >= 1
        && end_of(area.start, area.length) <= ADDRESSES
        && store_end(area) <= octets as u64
}

// Whether the store words of an area all come before those of another.
fn is_ahead(a: Area, b: Area) -> bool
    ensures { result ≡ ahead a b }
{
    end_of(a.first, a.length) <= b.first as u64
}

// Whether two areas share no store word.
#[tactic(auto, unfolding(map::specs::Sound::apart))]
pub fn lie_apart(a: Area, b: Area) -> bool
    ensures { result ≡ apart a b }
{
    is_ahead(a, b) || is_ahead(b, a)
}

// What two areas must meet.
#[tactic(auto, unfolding(map::specs::Sound::pair_sound))]
fn is_pair_sound(a: Area, b: Area) -> bool
    ensures { result ≡ pair_sound a b }
{
    a.id != b.id && lie_apart(a, b)
}

// Whether each of some areas is sound by itself.
fn each_sound(areas: &[Area], octets: usize) -> bool
    ensures { result ≡ every (area_sound octets) areas.now }
{
    areas.iter().all(|area| is_area_sound(octets, *area))
}

// Whether each of some areas meets each later one.
#[tactic(auto, using(crate::proofs::Left::left))]
fn pairs_sound(areas: &[Area]) -> bool
    ensures { result ≡ every_pair areas.now }
{
    // Document 01 asks for loops over pairs of areas that are left by a label.
    let mut sound = true;
    'pairs: for (i, a) in areas.iter().enumerate() {
        for b in &areas[i + 1..] {
            if !is_pair_sound(*a, *b) {
                sound = false;
                break 'pairs;
            }
        }
    }
    sound
}

// Whether a profile is sound over a store of that many octets.
#[tactic(auto, unfolding(map::specs::Sound::sound))]
pub fn is_sound(profile: Profile, octets: usize) -> bool
    ensures { result ≡ sound profile octets }
{
    let areas = used(&profile);
    profile.pid <= PID_MOST
        && profile.count as usize <= AREAS
        && each_sound(areas, octets)
        && pairs_sound(areas)
}
