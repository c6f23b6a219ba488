// `pack`, line by line: an empty line is passed over, a packet line is given its record, and any other stops the program.
#![tactic(auto)]

ghost use Rattle.std.specs.Prelude.{◌≡◌};
ghost use Rattle.saying.specs.Text.{SaysBy};
ghost use Rattle.packline.specs.Record.{refused_at};
ghost use Rattle.desk.specs.Place.{halting};
ghost use Rattle.desk.specs.Did.{DidBy};
ghost use Rattle.packstep.specs.Step.{record_says, record_becomes, pack_says, pack_becomes, pack_long_says, pack_long_desk};

use desk::{Desk, Done};
use packline::Halt;

// The record of a packet line.
fn record(
    d: Desk,
    line: &[u8],
    store: &mut [u8],
    out: &mut [u8],
    text: &mut [u8],
    at: usize,
) -> Done
    ensures { DidBy (λ m. record_says m line.now) (λ m. record_becomes m line.now) d at store out text result }
{
    let w = packline::record(d.draft.profile, d.state, line, store, out, text, at);
    Done {
        at: w.at,
        desk: desk::with_state(d, w.state),
    }
}

// `refused 70` and the number of the line, and the program stops.
fn refused(d: Desk, halt: Halt, text: &mut [u8], at: usize) -> Done
    ensures says_by { SaysBy (refused_at d.number) at text result.at }
    ensures desk_value { result.desk ≡ halting d halt }
{
    let behind = packline::put_refused(d.number, text, at);
    Done {
        at: behind,
        desk: desk::halting(d, Some(halt)),
    }
}

// The answer of `pack` to a line.
#[tactic(auto, using(octets::proofs::Laid::laid_none), unfolding(crate::specs::Step::pack_says, crate::specs::Step::pack_becomes))]
pub fn pack_answer(
    d: Desk,
    line: &[u8],
    store: &mut [u8],
    out: &mut [u8],
    text: &mut [u8],
    at: usize,
) -> Done
    ensures { DidBy (λ m. pack_says m line.now) (λ m. pack_becomes m line.now) d at store out text result }
{
    if desk::is_halted(d) {
        return desk::nothing(d, text, at);
    }
    let next = desk::counted(d);
    if line.is_empty() {
        return desk::nothing(next, text, at);
    }
    if packetline::is_packet(line) {
        return record(next, line, store, out, text, at);
    }
    refused(next, packline::why(line), text, at)
}

// The answer of `pack` to a line that is too long.
#[tactic(auto, using(octets::proofs::Laid::laid_none), unfolding(crate::specs::Step::pack_long_says, crate::specs::Step::pack_long_desk))]
pub fn pack_long(d: Desk, text: &mut [u8], at: usize) -> Done
    ensures says_by { SaysBy (pack_long_says d) at text result.at }
    ensures desk_value { result.desk ≡ pack_long_desk d }
{
    if desk::is_halted(d) {
        return desk::nothing(d, text, at);
    }
    refused(desk::counted(d), Halt::Long, text, at)
}
