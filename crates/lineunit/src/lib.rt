// The unit of the line program of document 01: its profile.
#![tactic(auto)]

ghost use Rattle.std.specs.Prelude.{◌≡◌};
ghost use Rattle.lineunit.specs.Unit.{line_profile};

use map::{AREAS, Area, Flags, Profile, Rights};

// Where the area of the line program's profile starts.
const AREA_START: u32 = 0x1000;

// An area with those rights, all of them or none.
fn area(id: u8, start: u32, length: u32, all: bool) -> Area
    ensures { result ≡ record { id = id; start = start; length = length; first = 0; rights = record { load = all; dump = all; check = all } } }
{
    Area {
        id,
        start,
        length,
        first: 0,
        rights: Rights {
            load: all,
            dump: all,
            check: all,
        },
    }
}

// The line program's profile: PID 5, all flags, and one area: ID 1, start 1000 hex, 64 words, store word 0, all rights.
pub fn profile() -> Profile
    ensures { result ≡ line_profile }
{
    let mut areas = [area(0, 0, 0, false); AREAS];
    areas[0] = area(1, AREA_START, 64, true);
    Profile {
        pid: 5,
        flags: Flags {
            load: true,
            dump: true,
            check: true,
            connection: true,
        },
        count: 1,
        areas,
    }
}
