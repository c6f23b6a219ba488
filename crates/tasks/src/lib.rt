// What the programs over lines do with a line: the line program, the reader of unit files, `pack`, `judge`, `frames` and `explain`.
#![tactic(auto)]

ghost use Rattle.std.specs.Prelude.{◌≡◌};
ghost use Rattle.saying.specs.Text.{SaysBy};
ghost use Rattle.desk.specs.Did.{DidBy};
ghost use Rattle.explainline.specs.Line.{explain_says};
ghost use Rattle.tasks.specs.Tasks.{line_says, line_becomes, task_says, task_becomes, task_long_says, task_long_desk};

use desk::{Desk, Done};

// Which program it is.
#[derive(Clone, Copy)]
pub enum Task {
    Line,
    Unit,
    Pack,
    Judge,
    Frames,
    Explain,
}

// The line program's answer to a line.
fn line_answer(
    d: Desk,
    line: &[u8],
    store: &mut [u8],
    out: &mut [u8],
    text: &mut [u8],
    at: usize,
) -> Done
    ensures { DidBy (λ m. line_says m line.now) (λ m. line_becomes m line.now) d at store out text result }
{
    let w = hexline::answer(d.draft.profile, d.state, line, store, out, text, at);
    Done {
        at: w.at,
        desk: desk::with_state(d, w.state),
    }
}

// The answer of `explain` to a line, under the profile of the unit.
fn explain_answer(d: Desk, line: &[u8], text: &mut [u8], at: usize) -> usize
    ensures { SaysBy (explain_says d.draft.profile line.now) at text result }
{
    explainline::answer(d.draft.profile, line, text, at)
}

// What a program does with a line: what it says, added to a text from a place on, and what goes on.
#[tactic(auto, using(octets::proofs::Laid::laid_none))]
pub fn answer(
    task: Task,
    d: Desk,
    line: &[u8],
    store: &mut [u8],
    out: &mut [u8],
    text: &mut [u8],
    at: usize,
) -> Done
    ensures { DidBy (λ m. task_says task m line.now) (λ m. task_becomes task m line.now) d at store out text result }
{
    match task {
        Task::Line => line_answer(d, line, store, out, text, at),
        Task::Unit => desk::nothing(unitstep::unit_desk(d, line, store), text, at),
        Task::Pack => packstep::pack_answer(d, line, store, out, text, at),
        Task::Judge => judgestep::judge_answer(d, line, store, out, text, at),
        Task::Frames => Done {
            at: frameline::answer(line, text, at),
            desk: d,
        },
        Task::Explain => Done {
            at: explain_answer(d, line, text, at),
            desk: d,
        },
    }
}

// The same of a line that is too long.
#[tactic(auto, using(octets::proofs::Laid::laid_none))]
pub fn answer_long(task: Task, d: Desk, text: &mut [u8], at: usize) -> Done
    ensures says_by { SaysBy (task_long_says task d) at text result.at }
    ensures desk_value { result.desk ≡ task_long_desk task d }
{
    match task {
        Task::Line => Done {
            at: packetline::put_closing(2, 0, text, at),
            desk: d,
        },
        Task::Unit => desk::nothing(unitstep::unit_long(d), text, at),
        Task::Pack => packstep::pack_long(d, text, at),
        Task::Judge => judgestep::judge_long(d, text, at),
        Task::Frames => Done {
            at: frametext::put_bad(text, at),
            desk: d,
        },
        Task::Explain => Done {
            at: explainline::put_bad(text, at),
            desk: d,
        },
    }
}
