// What goes from line to line in a program over lines: its desk.
#![tactic(auto)]

ghost use Rattle.std.specs.Prelude.{◌≡◌, ◌+◌, min, length};
ghost use Rattle.desk.specs.Place.{desk_for, line_draft, with_draft, with_state, with_group, is_halted};
ghost use Rattle.desk.specs.Place.{counted as Counted, with_halt};

use decide::State;
use grouping::Group;
use packline::Halt;
use unit::Draft;

// How many octets the line program's store has.
pub const LINE_STORE: usize = 128;

// What goes from line to line beside the store and the output buffer: the unit, the counts, how many lines are passed, the group of a record, and what stops the program.
#[derive(Clone, Copy)]
pub struct Desk {
    pub draft: Draft,
    pub state: State,
    pub number: u64,
    pub group: Group,
    pub halt: Option<Halt>,
}

// How far the text has come, and what goes on.
#[derive(Clone, Copy)]
pub struct Done {
    pub at: usize,
    pub desk: Desk,
}

// Before the first line.
pub fn start(draft: Draft) -> Desk
    ensures { result ≡ desk_for draft }
{
    Desk {
        draft,
        state: State {
            counts: counts::none(),
        },
        number: 0,
        group: grouping::start(),
        halt: None,
    }
}

// The line program's unit before the first line.
pub fn line_start() -> Desk
    ensures { result ≡ desk_for line_draft }
{
    let draft = Draft {
        profile: lineunit::profile(),
        pid: true,
        services: true,
        store: true,
        stored: LINE_STORE,
    };
    start(draft)
}

// Whether the program has stopped.
pub fn is_halted(d: Desk) -> bool
    ensures { result ≡ is_halted d }
{
    d.halt.is_some()
}

// The desk with another unit.
pub fn with_draft(d: Desk, draft: Draft) -> Desk
    ensures { result ≡ with_draft d draft }
{
    Desk { draft, ..d }
}

// The desk with other counts.
pub fn with_state(d: Desk, state: State) -> Desk
    ensures { result ≡ with_state d state }
{
    Desk { state, ..d }
}

// The desk at another place of a record.
pub fn with_group(d: Desk, group: Group) -> Desk
    ensures { result ≡ with_group d group }
{
    Desk { group, ..d }
}

// The desk one line further, counted in 64 bits.
pub fn counted(d: Desk) -> Desk
    ensures { result ≡ Counted d }
{
    Desk {
        number: d.number.wrapping_add(1),
        ..d
    }
}

// The desk one line further, at another place of a record.
pub fn moved(d: Desk, group: Group) -> Desk
    ensures { result ≡ with_group (Counted d) group }
{
    let number = d.number.wrapping_add(1);
    Desk { number, group, ..d }
}

// The desk with a reason to stop, or with none: then it goes on.
pub fn halting(d: Desk, halt: Option<Halt>) -> Desk
    ensures { result ≡ with_halt d halt }
{
    Desk { halt, ..d }
}

// Nothing is said.
pub fn nothing(d: Desk, text: &[u8], at: usize) -> Done
    ensures { (result.at ≡ min at (length text.now + 1)) × (result.desk ≡ d) }
{
    Done {
        at: saying::kept(text, at),
        desk: d,
    }
}
