// A line of a record: outside of a group a packet is answered by the reference, and inside of one a line is set beside the frame due.
#![tactic(auto)]

ghost use Rattle.std.specs.Prelude.{◌≡◌};
ghost use Rattle.saying.specs.Text.{SaysBy};
ghost use Rattle.differing.specs.Differing.{differs_text};
ghost use Rattle.desk.specs.Place.{place_of, with_halt, halting};
ghost use Rattle.desk.specs.Did.{DidBy};
ghost use Rattle.judgeline.specs.Step.{bad_told, served_at, outside_says, outside_becomes, found_by, behind_line, found_says, found_desk};

use desk::{Desk, Done};
use grouping::Group;
use packline::Halt;

// What a line inside of a group is found to be, beside the frame due: it agrees, it differs, or it is no packet line.
#[derive(Clone, Copy)]
pub enum Found {
    Agrees,
    Differs,
    Bad,
}

// `refused 70`, the number of the line and why, if there is a reason: then the judge stops.
pub fn refused(d: Desk, halt: Option<Halt>, text: &mut [u8], at: usize) -> Done
    ensures says_by { SaysBy (bad_told d.number halt) at text result.at }
    ensures desk_value { result.desk ≡ with_halt d halt }
{
    let first = packline::put_refused(d.number, text, at);
    let behind = telling::halt_line(halt, text, first);
    Done {
        at: behind,
        desk: desk::halting(d, halt),
    }
}

// A packet line is answered by the reference.
fn serve(d: Desk, line: &[u8], store: &mut [u8], out: &mut [u8]) -> Desk
    ensures { record { desk = result; store = store.new; out = out.new } ≡ served_at (place_of d store.entry out.entry) line.now }
{
    let outcome = hexline::serve(d.draft.profile, d.state, line, store, out);
    let group = grouping::open(d.group, d.number, outcome.written);
    desk::with_state(desk::with_group(d, group), outcome.state)
}

// A line outside of a group, which is counted already.
#[tactic(auto, using(octets::proofs::Laid::laid_none), unfolding(crate::specs::Step::outside_says, crate::specs::Step::outside_becomes))]
pub fn outside(
    d: Desk,
    line: &[u8],
    store: &mut [u8],
    out: &mut [u8],
    text: &mut [u8],
    at: usize,
) -> Done
    ensures { DidBy (λ m. outside_says m line.now) (λ m. outside_becomes m line.now) d at store out text result }
{
    if line.is_empty() {
        return desk::nothing(d, text, at);
    }
    if packetline::is_packet(line) {
        return desk::nothing(serve(d, line, store, out), text, at);
    }
    refused(d, Some(packline::why(line)), text, at)
}

// A line inside of a group beside the frame due. Most lines spell it; of the others it is asked whether they are packet lines, and then octet by octet.
#[tactic(auto, using(spelling::proofs::Spelled::spells_packet, spelling::proofs::Spelled::spells_agrees), unfolding(crate::specs::Step::found_by))]
pub fn beside_due(g: Group, line: &[u8], out: &[u8]) -> Found
    ensures { result ≡ found_by g out.now line.now }
{
    let frame = grouping::due(g, out);
    if spelling::spells(frame, line) {
        return Found::Agrees;
    }
    if !packetline::is_packet(line) {
        return Found::Bad;
    }
    if beside::agree(frame, line) {
        return Found::Agrees;
    }
    Found::Differs
}

// The group behind a line that agrees.
pub fn behind(g: Group, line: &[u8], out: &[u8]) -> Group
    ensures { result ≡ behind_line g out.now line.now }
{
    if line.is_empty() {
        return grouping::close(g);
    }
    grouping::compare(g, out)
}

// What is told of a line that differs, and the judge stops.
fn differs(d: Desk, frame: &[u8], line: &[u8], text: &mut [u8], at: usize) -> Done
    ensures says_by { SaysBy (differs_text d.number d.group.packet frame.now line.now) at text result.at }
    ensures desk_value { result.desk ≡ halting d Halt.Differs }
{
    let behind = differing::put_differs(d.number, d.group.packet, frame, line, text, at);
    Done {
        at: behind,
        desk: desk::halting(d, Some(Halt::Differs)),
    }
}

// A line inside of a group, which is counted already, by what it is found to be.
#[tactic(auto, using(octets::proofs::Laid::laid_none))]
pub fn inside(d: Desk, found: Found, line: &[u8], out: &[u8], text: &mut [u8], at: usize) -> Done
    ensures says_by { SaysBy (found_says found d out.now line.now) at text result.at }
    ensures desk_value { result.desk ≡ found_desk found d out.now line.now }
{
    let group = d.group;
    match found {
        Found::Agrees => desk::nothing(desk::with_group(d, behind(group, line, out)), text, at),
        Found::Differs => differs(d, grouping::due(group, out), line, text, at),
        Found::Bad => refused(d, Some(packline::why(line)), text, at),
    }
}
