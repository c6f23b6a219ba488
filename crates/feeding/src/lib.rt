// A program over lines that is fed its input in parts: whole pieces of lines are answered, and what is left is carried at the front of the input's buffer.
#![tactic(auto)]

ghost use Rattle.std.specs.Prelude.{◌≡◌};
ghost use Rattle.lines.specs.Pieces.{piece as piece_of};
ghost use Rattle.lines.specs.Feed.{WalkedBy, FedBy, FinishedBy};
ghost use Rattle.desk.specs.Place.{place_of};
ghost use Rattle.feeding.specs.Feed.{piece_program, at_first, DidTo};

use desk::{Desk, Done};
use lines::{Cut, End, Walk};
use packetline::LINE_MOST;
use tasks::Task;

// The most characters of an answer.
const ANSWER_ROOM: usize = 16384;

// How far a walk over the pieces of an input has come, and the desk.
#[derive(Clone, Copy)]
struct Walked {
    walk: Walk,
    desk: Desk,
}

// How far the program has come, and its desk.
#[derive(Clone, Copy)]
pub struct Progress {
    pub lines: lines::Progress,
    pub desk: Desk,
}

// Before the first line.
pub fn start(desk: Desk) -> Progress
    ensures { result ≡ at_first desk }
{
    Progress {
        lines: lines::start(),
        desk,
    }
}

// Answers a piece of a line into a text from a place on: a line that is one piece, or one that is too long, at its end.
#[tactic(auto, using(octets::proofs::Laid::laid_none))]
fn answer_piece(
    task: Task,
    desk: Desk,
    begins: bool,
    piece: &[u8],
    end: End,
    store: &mut [u8],
    out: &mut [u8],
    text: &mut [u8],
    at: usize,
) -> Done
    ensures { DidTo task (piece_of begins piece.now end) desk at store out text result }
{
    if !lines::ends(end) {
        let place = saying::kept(text, at);
        return Done { at: place, desk };
    }
    if begins {
        return tasks::answer(task, desk, piece, store, out, text, at);
    }
    tasks::answer_long(task, desk, text, at)
}

// Answers the whole pieces of an input, as long as the text has room for another answer of 16,384 characters.
fn walk(
    task: Task,
    desk: Desk,
    input: &[u8],
    begins: bool,
    store: &mut [u8],
    out: &mut [u8],
    text: &mut [u8],
) -> Walked
    ensures { WalkedBy (piece_program task) (place_of desk store.entry out.entry) begins input.entry text result.walk (place_of result.desk store.exit out.exit) }
{
    let mut w = Walk {
        from: 0,
        begins,
        open: false,
        at: 0,
    };
    let mut d = desk;
    loop {
        let Some(Cut { count, end }) = lines::next(input, w.from, LINE_MOST) else {
            w.open = true;
            return Walked { walk: w, desk: d };
        };
        let at = w.at;
        if text.len() - at < ANSWER_ROOM {
            return Walked { walk: w, desk: d };
        }
        let piece = lines::piece(input, w.from, count);
        let done = answer_piece(task, d, w.begins, piece, end, store, out, text, at);
        d = done.desk;
        w = lines::passed(input, w, count, end, done.at);
    }
}

// Answers whole pieces of the input that stands at the front of its buffer, and moves what is not answered there.
pub fn feed(
    task: Task,
    p: Progress,
    input: &mut [u8],
    store: &mut [u8],
    out: &mut [u8],
    text: &mut [u8],
) -> Progress
    ensures { FedBy (piece_program task) (place_of p.desk store.entry out.entry) p.lines input text result.lines (place_of result.desk store.exit out.exit) }
{
    let l = p.lines;
    let front = lines::front(input, l.have);
    let walked = walk(task, p.desk, front, l.begins, store, out, text);
    let left = lines::carry(input, l.have, walked.walk);
    let desk = walked.desk;
    Progress { lines: left, desk }
}

// Answers what is left at the end of the input: a last line without its newline counts if it is not empty.
pub fn finish(
    task: Task,
    p: Progress,
    input: &[u8],
    store: &mut [u8],
    out: &mut [u8],
    text: &mut [u8],
) -> Done
    ensures { FinishedBy (piece_program task) (place_of p.desk store.entry out.entry) p.lines input.entry text result.at (place_of result.desk store.exit out.exit) }
{
    let l = p.lines;
    let desk = p.desk;
    let rest = lines::front(input, l.have);
    let Some(Cut { end, .. }) = lines::last(rest) else {
        return Done { at: 0, desk };
    };
    answer_piece(task, desk, l.begins, rest, end, store, out, text, 0)
}
