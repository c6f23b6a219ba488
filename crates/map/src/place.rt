// Which area has a memory ID, whether a block lies inside an area, and where its words stand in the store.
ghost use Rattle.std.specs.Prelude.{◌≡◌, ◌+◌, min};
ghost use Rattle.map.specs.Place.{areas_most, word_octets, find_in, used, inside, octet_at, octets_of, stored_at};

use super::{AREAS, Area, Profile, WORD, end_of, octets_in};

// The areas of a profile; unused places are ignored.
pub fn used(profile: &Profile) -> &[Area]
    ensures { result.now ≡ used profile.now }
{
    let count = usize::from(profile.count).min(AREAS);
    &profile.areas[..count]
}

// How many octets a word is.
pub fn word_octets() -> u8
    ensures { result ≡ word_octets }
{
    WORD
}

// The first area of a profile that has a memory ID.
#[tactic(auto, unfolding(crate::specs::Place::find_in))]
pub fn find(profile: Profile, id: u8) -> Option<Area>
    ensures { result ≡ find_in id (used profile) }
{
    used(&profile).iter().copied().find(|area| area.id == id)
}

// Whether a block of words from an address on lies wholly inside an area.
#[tactic(auto, unfolding(crate::specs::Place::inside))]
pub fn lies_inside(area: Area, start: u32, words: u32) -> bool
    ensures { result ≡ inside area start words }
{
    area.start <= start && end_of(start, words) <= end_of(area.start, area.length)
}

// How many octets a number of an area's words is.
pub fn octets_of(area: Area, words: u32) -> usize
    ensures { result ≡ octets_of area words }
{
    octets_in(area, words as u64) as usize
}

// The octet of the store at which the word at an address of an area begins; below the area's start, that of its first word.
#[tactic(auto, unfolding(crate::specs::Place::octet_at))]
pub fn octet_at(area: Area, address: u32) -> usize
    ensures { result ≡ octet_at area address }
{
    let behind = address.saturating_sub(area.start);
    octets_in(area, end_of(area.first, behind)) as usize
}

// The octet of the store at which an area's words begin.
pub fn store_start(area: Area) -> u64
    ensures { result ≡ octets_of area area.first }
{
    octets_in(area, area.first as u64)
}

// The octet of the store behind an area's words.
pub fn store_end(area: Area) -> u64
    ensures { result ≡ octets_of area (area.first + area.length) }
{
    octets_in(area, end_of(area.first, area.length))
}

// The octets in the store of so many words of an area from an address on.
pub fn stored<'a>(area: Area, store: &'a [u8], start: u32, words: u32) -> &'a [u8]
    ensures { result.now ≡ stored_at area store.now start words }
{
    let from = octet_at(area, start);
    let octets = octets_of(area, words);
    octets::copy::part(store, from, from + octets)
}
