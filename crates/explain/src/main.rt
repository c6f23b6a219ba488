// `explain`: for packets, one a line, why each is refused.
#![tactic(auto)]

use console::{Console, Ended};
use desk::Desk;
use opening::{FRAMES_ROOM, STORE_ROOM, Words};
use running::{Buffers, INPUT_ROOM, TEXT_ROOM};
use std::io::Write;
use std::process::ExitCode;
use tasks::Task;

fn main(rt: HostRuntime) -> ExitCode {
    let mut console = Console::new(b"explain", rt.stdout(), rt.stderr());
    // The buffers stand here in each program: memory is fixed, and a struct of arrays could not lend the front of its store with the rest.
    let buffers = Buffers {
        input: &mut [0; INPUT_ROOM],
        store: &mut [0; STORE_ROOM],
        frames: &mut [0; FRAMES_ROOM],
        text: &mut [0; TEXT_ROOM],
    };
    let _ = explain(&rt, &mut console, buffers);
    console.status()
}

// Reads the unit where one is given, and answers the packets under it; else the unit is the line program's.
fn explain<O: Write + Drop, E: Write + Drop>(
    rt: &HostRuntime,
    console: &mut Console<O, E>,
    mut buffers: Buffers<'_>,
) -> Result<Desk, Ended> {
    let mut files = console.optional_unit(rt, b": usage: explain [--unit UNIT] [FILE]\n")?;
    // The unit's file stays open behind its end, as it does in `pack` and `judge`: where standard input is closed, it has that number, and there is nothing more to read.
    let desk = match &mut files.unit {
        Some(unit) => opening::open(console, unit, Words::Aside, &mut buffers)?,
        None => desk::line_start(),
    };
    buffers.run(console, Task::Explain, &mut files.input, desk)
}
