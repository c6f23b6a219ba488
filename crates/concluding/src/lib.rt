// The last verdict on a record, behind its last line.
#![tactic(auto)]

ghost use Rattle.std.specs.Prelude.{◌≡◌};
ghost use Rattle.saying.specs.Text.{SaysBy};
ghost use Rattle.concluding.specs.Closing.{conforming_text, closing_says, closing_desk};

use desk::{Desk, Done};
use packline::Halt;

// Adds `conforming`, and how many packets and frames were compared.
fn put_conforming(packets: u64, frames: u64, text: &mut [u8], at: usize) -> usize
    ensures { SaysBy (conforming_text packets frames) at text result }
{
    let first = saying::text(text, at, b"conforming\npackets ");
    let second = numerals::decimal(text, first, packets);
    let third = saying::text(text, second, b" frames ");
    let last = numerals::decimal(text, third, frames);
    saying::end(text, last)
}

// The last verdict, behind a record of which no line differs and none is refused.
#[tactic(auto, using(octets::proofs::Laid::laid_none), unfolding(crate::specs::Closing::closing_says, crate::specs::Closing::closing_desk))]
pub fn conclude(d: Desk, text: &mut [u8], at: usize) -> Done
    ensures says_by { SaysBy (closing_says d) at text result.at }
    ensures desk_value { result.desk ≡ closing_desk d }
{
    if desk::is_halted(d) {
        return desk::nothing(d, text, at);
    }
    if d.group.some {
        let behind = put_conforming(d.group.packets, d.group.frames, text, at);
        return Done {
            at: behind,
            desk: d,
        };
    }
    let behind = saying::text(text, at, b"refused 71\n");
    Done {
        at: behind,
        desk: desk::halting(d, Some(Halt::NoPacket)),
    }
}
