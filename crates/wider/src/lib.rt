// When one profile is wider than another.
#![tactic(auto)]

ghost use Rattle.std.specs.Prelude.{◌≡◌};
ghost use Rattle.laws.specs.Each.{every};
ghost use Rattle.wider.specs.Wider.{wider, keeps, keeps_rights, keeps_flags, keeps_words, covers, covered};

use map::place::used;
use map::{Area, Flags, Profile, Rights, end_of};
use sound::is_sound;

// Whether what is set in the narrower is set in the wider.
fn is_kept(wide: bool, narrow: bool) -> bool
    ensures { result ≡ keeps wide narrow }
{
    wide || !narrow
}

// Whether there are at least the rights of another area.
#[tactic(auto, unfolding(crate::specs::Wider::keeps_rights))]
fn keeps_rights(wide: Rights, narrow: Rights) -> bool
    ensures { result ≡ keeps_rights wide narrow }
{
    is_kept(wide.load, narrow.load)
        && is_kept(wide.dump, narrow.dump)
        && is_kept(wide.check, narrow.check)
}

// Whether an area has at least the addresses of another, and the same store word for each of those. It is the same for each where it is the same for the first.
#[tactic(auto, unfolding(crate::specs::Wider::keeps_words))]
fn keeps_words(wide: Area, narrow: Area) -> bool
    ensures { result ≡ keeps_words wide narrow }
{
    wide.start <= narrow.start
        && end_of(narrow.start, narrow.length) <= end_of(wide.start, wide.length)
        && end_of(wide.first, narrow.start - wide.start) == narrow.first as u64
}

// Whether an area of the wider serves for one of the narrower.
#[tactic(auto, unfolding(crate::specs::Wider::covers))]
fn does_cover(wide: Area, narrow: Area) -> bool
    ensures { result ≡ covers wide narrow }
{
    wide.id == narrow.id && keeps_rights(wide.rights, narrow.rights) && keeps_words(wide, narrow)
}

// Whether one of some areas serves for one of the narrower.
fn is_covered(areas: &[Area], narrow: Area) -> bool
    ensures { result ≡ covered areas.now narrow }
{
    areas.iter().any(|area| does_cover(*area, narrow))
}

// Whether each area of the narrower is served by one of the wider.
fn are_covered(wide: &[Area], narrow: &[Area]) -> bool
    ensures { result ≡ every (covered wide.now) narrow.now }
{
    narrow.iter().all(|area| is_covered(wide, *area))
}

// Whether there are at least the flags of another profile.
#[tactic(auto, unfolding(crate::specs::Wider::keeps_flags))]
fn keeps_flags(wide: Flags, narrow: Flags) -> bool
    ensures { result ≡ keeps_flags wide narrow }
{
    is_kept(wide.load, narrow.load)
        && is_kept(wide.dump, narrow.dump)
        && is_kept(wide.check, narrow.check)
        && is_kept(wide.connection, narrow.connection)
}

// Whether a profile is wider than another over a store of that many octets.
#[tactic(auto, unfolding(crate::specs::Wider::wider))]
pub fn is_wider(wide: Profile, narrow: Profile, octets: usize) -> bool
    ensures { result ≡ wider wide narrow octets }
{
    is_sound(wide, octets)
        && is_sound(narrow, octets)
        && wide.pid == narrow.pid
        && keeps_flags(wide.flags, narrow.flags)
        && are_covered(used(&wide), used(&narrow))
}
