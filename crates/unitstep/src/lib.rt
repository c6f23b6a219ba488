// The reader of unit files, line by line: what a line does at a desk, and what the end of the file does.
#![tactic(auto)]

ghost use Rattle.std.specs.Prelude.{◌≡◌};
ghost use Rattle.unitstep.specs.Step.{bad_desk, unit_desk, unit_store, unit_long_desk, unit_end};

use desk::Desk;
use packline::Halt;
use stating::fault::Fault;

// A bad line is counted, and the reader stops at it.
fn bad(d: Desk, fault: Fault) -> Desk
    ensures { result ≡ bad_desk d fault }
{
    desk::halting(desk::counted(d), Some(Halt::Unit(fault)))
}

// A line of a unit file: what it states, and what it puts into the store.
#[tactic(auto, unfolding(crate::specs::Step::unit_desk, crate::specs::Step::unit_store))]
pub fn unit_desk(d: Desk, line: &[u8], store: &mut [u8]) -> Desk
    ensures value { result ≡ unit_desk d line.now }
    ensures store_after { store.new ≡ unit_store d store.old line.now }
{
    if desk::is_halted(d) {
        return d;
    }
    match unitline::state(d.draft, line, store) {
        Ok(draft) => desk::counted(desk::with_draft(d, draft)),
        Err(fault) => bad(d, fault),
    }
}

// A line of a unit file that is too long.
#[tactic(auto, unfolding(crate::specs::Step::unit_long_desk))]
pub fn unit_long(d: Desk) -> Desk
    ensures { result ≡ unit_long_desk d }
{
    if desk::is_halted(d) {
        return d;
    }
    bad(d, Fault::LineLong)
}

// The end of a unit file: something may be missing.
#[tactic(auto, unfolding(crate::specs::Step::unit_end))]
pub fn unit_end(d: Desk) -> Desk
    ensures { result ≡ unit_end d }
{
    if desk::is_halted(d) {
        return d;
    }
    match unit::missing(d.draft) {
        None => d,
        Some(fault) => bad(d, fault),
    }
}
