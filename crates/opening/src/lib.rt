// The unit of a program that takes one: its file is read, and what is wrong with it is told.
#![tactic(auto)]

ghost use Rattle.std.specs.Prelude.{◌≡◌, Some, IfOk, OnOk};
ghost use Rattle.saying.specs.Text.{SaysBy};
ghost use Rattle.feeding.specs.Output.{bad_unit};
ghost use Rattle.opening.specs.Opened.{Opened};

use clauses::Clause;
use console::{Console, Ended, Mark};
use desk::Desk;
use packline::Halt;
use running::Buffers;
use std::io::{Read, Write};
use tasks::Task;

// How much the buffers hold of a unit's store, and of the terminal's frames.
pub const STORE_ROOM: usize = 65536;

pub const FRAMES_ROOM: usize = 4096;

// Where the words for a clause of soundness are told: aside, on standard error, or behind the verdict.
#[derive(Clone, Copy)]
pub enum Words {
    Aside,
    Behind,
}

// Reads the unit of a program and its store, and gives the desk before the first line under it. What is wrong with it is told.
#[tactic(auto, using(running::proofs::Verdicts::worst_fine))]
pub fn open<O: Write + Drop, E: Write + Drop, F: Read>(
    console: &mut Console<O, E>,
    file: &mut F,
    words: Words,
    buffers: &mut Buffers<'_>,
) -> Result<Desk, Ended>
    ensures opened { IfOk result Opened }
    ensures marked { OnOk result (console.new ≡ console.old) }
{
    let read = buffers.run(console, Task::Unit, file, desk::start(unit::nothing()))?;
    ask(console, unitstep::unit_end(read), words, buffers.text)
}

// The desk under a unit that was read, where it is fine and sound.
fn ask<O: Write + Drop, E: Write + Drop>(
    console: &mut Console<O, E>,
    desk: Desk,
    words: Words,
    text: &mut [u8],
) -> Result<Desk, Ended>
    ensures opened { IfOk result Opened }
    ensures marked { OnOk result (console.new ≡ console.old) }
{
    if let Some(halt) = desk.halt {
        tell_unit(console, desk.number, halt, text)?;
        return Err(Ended);
    }
    let draft = desk.draft;
    match clauses::clause_of(draft.profile, draft.stored) {
        Ok(()) => Ok(desk::start(draft)),
        Err(clause) => {
            tell_clause(console, clause, words, text)?;
            Err(Ended)
        }
    }
}

// Tells the first bad line of the unit file, the only reason for which its reader stops. What is told is marked before it is written, so that it stands even where nobody reads it.
fn tell_unit<O: Write + Drop, E: Write + Drop>(
    console: &mut Console<O, E>,
    number: u64,
    halt: Halt,
    text: &mut [u8],
) -> Result<(), Ended> {
    let at = put_halt(number, halt, text);
    console.mark(Mark::Failed);
    console.write(lines::front(text, at))
}

// Says why the reader of a unit file has stopped, at the front of a text: its first bad line, the only reason that it has.
fn put_halt(number: u64, halt: Halt, text: &mut [u8]) -> usize
    ensures { SaysBy (bad_unit number (Some halt)) 0 text result }
{
    match halt {
        Halt::Unit(fault) => telling::unit_line(number, Some(fault), text, 0),
        Halt::Long | Halt::Character { .. } | Halt::Odd | Halt::Differs | Halt::NoPacket => {
            saying::kept(text, 0)
        }
    }
}

// Tells that the unit is not sound, and which clause fails.
fn tell_clause<O: Write + Drop, E: Write + Drop>(
    console: &mut Console<O, E>,
    clause: Clause,
    words: Words,
    text: &mut [u8],
) -> Result<(), Ended> {
    let at = match words {
        Words::Aside => {
            let at = clausewords::clause_line(Err(clause), text, 0);
            console.tell(lines::front(text, at));
            telling::unsound_line(text, 0)
        }
        Words::Behind => {
            console.mark(Mark::Failed);
            let at = telling::unsound_line(text, 0);
            clausewords::clause_line(Err(clause), text, at)
        }
    };
    console.write(lines::front(text, at))
}
