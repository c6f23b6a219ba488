// `judge`: for a unit and a record of it, whether the record conforms, or the first line that differs.
#![tactic(auto)]

use console::{Console, Ended};
use desk::Desk;
use opening::{FRAMES_ROOM, STORE_ROOM, Words};
use running::{Buffers, INPUT_ROOM, TEXT_ROOM};
use std::io::Write;
use std::process::ExitCode;
use tasks::Task;

fn main(rt: HostRuntime) -> ExitCode {
    let mut console = Console::new(b"judge", rt.stdout(), rt.stderr());
    // The buffers stand here in each program: memory is fixed, and a struct of arrays could not lend the front of its store with the rest.
    let buffers = Buffers {
        input: &mut [0; INPUT_ROOM],
        store: &mut [0; STORE_ROOM],
        frames: &mut [0; FRAMES_ROOM],
        text: &mut [0; TEXT_ROOM],
    };
    let _ = judge(&rt, &mut console, buffers);
    console.status()
}

// Reads the unit, and judges the record under it.
fn judge<O: Write + Drop, E: Write + Drop>(
    rt: &HostRuntime,
    console: &mut Console<O, E>,
    mut buffers: Buffers<'_>,
) -> Result<(), Ended> {
    let mut files = console.unit_and_input(rt, b": usage: judge UNIT [RECORD]\n")?;
    let desk = opening::open(console, &mut files.unit, Words::Behind, &mut buffers)?;
    let mut buffers = buffers.with_store(desk.draft.stored);
    let last = buffers.run(console, Task::Judge, &mut files.input, desk)?;
    conclude(console, last, &mut buffers)
}

// Says what is due at the end of the input, where the judge has not stopped before it.
fn conclude<O: Write + Drop, E: Write + Drop>(
    console: &mut Console<O, E>,
    desk: Desk,
    buffers: &mut Buffers<'_>,
) -> Result<(), Ended> {
    if desk::is_halted(desk) {
        return Ok(());
    }
    let done = judgestep::judge_end(desk, buffers.store, buffers.frames, buffers.text, 0);
    running::mark(console, Task::Judge, done.desk);
    console.write(lines::front(buffers.text, done.at))
}
