// `pack`: for a unit and packets, one a line, the record that a faultless unit would give.
#![tactic(auto)]

use console::{Console, Ended};
use opening::{FRAMES_ROOM, STORE_ROOM, Words};
use running::{Buffers, INPUT_ROOM, TEXT_ROOM};
use std::io::Write;
use std::process::ExitCode;
use tasks::Task;

fn main(rt: HostRuntime) -> ExitCode {
    let mut console = Console::new(b"pack", rt.stdout(), rt.stderr());
    // The buffers stand here in each program: memory is fixed, and a struct of arrays could not lend the front of its store with the rest.
    let buffers = Buffers {
        input: &mut [0; INPUT_ROOM],
        store: &mut [0; STORE_ROOM],
        frames: &mut [0; FRAMES_ROOM],
        text: &mut [0; TEXT_ROOM],
    };
    let _ = pack(&rt, &mut console, buffers);
    console.status()
}

// Reads the unit, and prints the record of the packets under it; a line that is refused by 70 is told on standard error too.
fn pack<O: Write + Drop, E: Write + Drop>(
    rt: &HostRuntime,
    console: &mut Console<O, E>,
    mut buffers: Buffers<'_>,
) -> Result<(), Ended> {
    let mut files = console.unit_and_input(rt, b": usage: pack UNIT [PACKETS]\n")?;
    let desk = opening::open(console, &mut files.unit, Words::Aside, &mut buffers)?;
    let mut buffers = buffers.with_store(desk.draft.stored);
    let last = buffers.run(console, Task::Pack, &mut files.input, desk)?;
    if let Some(halt) = last.halt {
        let at = telling::halt_line(Some(halt), buffers.text, 0);
        console.tell(lines::front(buffers.text, at));
    }
    Ok(())
}
