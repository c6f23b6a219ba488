// `frames`: a telemetry frame a line on standard input, and on standard output a line that tells what it says.
#![tactic(auto)]

use console::Console;
use running::{Buffers, INPUT_ROOM, TEXT_ROOM};
use std::process::ExitCode;
use tasks::Task;

fn main(rt: HostRuntime) -> ExitCode {
    let mut console = Console::new(b"frames", rt.stdout(), rt.stderr());
    let mut buffers = Buffers {
        input: &mut [0; INPUT_ROOM],
        store: &mut [],
        frames: &mut [],
        text: &mut [0; TEXT_ROOM],
    };
    let _ = buffers.run(
        &mut console,
        Task::Frames,
        &mut rt.stdin(),
        desk::start(unit::nothing()),
    );
    console.status()
}
