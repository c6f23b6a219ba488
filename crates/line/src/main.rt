// The line program of document 01: a packet a line on standard input, and on standard output its frames and a closing line.
#![tactic(auto)]

use console::Console;
use desk::LINE_STORE;
use running::{Buffers, INPUT_ROOM, TEXT_ROOM};
use std::process::ExitCode;
use tasks::Task;

// How much the output buffer holds of the terminal's frames.
const FRAMES_ROOM: usize = 4096;

fn main(rt: HostRuntime) -> ExitCode {
    let mut console = Console::new(b"line", rt.stdout(), rt.stderr());
    let mut frames = [0; FRAMES_ROOM];
    let mut buffers = Buffers {
        input: &mut [0; INPUT_ROOM],
        store: &mut [0; LINE_STORE],
        frames: &mut frames,
        text: &mut [0; TEXT_ROOM],
    };
    let _ = buffers.run(
        &mut console,
        Task::Line,
        &mut rt.stdin(),
        desk::line_start(),
    );
    console.status()
}
