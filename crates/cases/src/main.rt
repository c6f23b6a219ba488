// The program `cases`: the terminal, the reader, the writer and the CRC over lines of text, one command a line.
#![tactic(auto)]

use commands::form::{GIVEN_MOST, LINE_MOST};
use commands::session;
use commands::session::{OUT_ROOM, STORE_ROOM, Session};
use console::{Console, Ended};
use lines::{Cut, End, Walk};
use showing::Served;
use std::io::{Read, Write};
use std::process::ExitCode;

// What holds the input that is not answered yet: more than the longest line and its newline.
const INPUT_ROOM: usize = 262144;

// The most text that one line is answered, and what holds the text that waits.
const ANSWER_ROOM: usize = 163840;

const TEXT_ROOM: usize = 327680;

// The buffers of the program: the input, the octets that a line gives, the store, the output buffer, and the text.
// They are lent: in one struct by value the compiler takes them for one piece of memory, and reads digits one at a time.
#[derive(Drop)]
struct Room<'a> {
    input: &'a mut [u8],
    octets: &'a mut [u8; GIVEN_MOST],
    store: &'a mut [u8],
    out: &'a mut [u8],
    text: &'a mut [u8],
}

// How far the program has come: whether the input has ended, the session, how much input waits, and how far the walk over it has come.
#[derive(Clone, Copy)]
struct Progress {
    ended: bool,
    session: Session,
    have: usize,
    walk: Walk,
}

fn main(rt: HostRuntime) -> ExitCode {
    let mut console = Console::new(b"cases", rt.stdout(), rt.stderr());
    let mut room = Room {
        input: &mut [0; INPUT_ROOM],
        octets: &mut [0; GIVEN_MOST],
        store: &mut [0; STORE_ROOM],
        out: &mut [0; OUT_ROOM],
        text: &mut [0; TEXT_ROOM],
    };
    let _ = room.run(&mut console, &mut rt.stdin());
    console.status()
}

impl Room<'_> {
    // Serves the input to its end. A proved loop has to end, and nothing says that an input does: the turns are counted, up to a number that no run uses up.
    fn run<O: Write + Drop, E: Write + Drop, F: Read>(
        &mut self,
        console: &mut Console<O, E>,
        file: &mut F,
    ) -> Result<(), Ended> {
        let mut p = Progress {
            ended: false,
            session: session::start(lineunit::profile()),
            have: 0,
            walk: from_front(true),
        };
        for _ in 0..u64::MAX {
            let Some(next) = self.turn(console, file, p)? else {
                return Ok(());
            };
            p = next;
        }
        Ok(())
    }

    // Serves the next piece of the input that waits; where none is left, writes out what was said and reads more. None is behind the end of the input.
    fn turn<O: Write + Drop, E: Write + Drop, F: Read>(
        &mut self,
        console: &mut Console<O, E>,
        file: &mut F,
        p: Progress,
    ) -> Result<Option<Progress>, Ended> {
        let w = p.walk;
        let waiting = lines::front(self.input, p.have);
        let Some(Cut { count, end }) = cut(waiting, w.from, p.ended) else {
            return self.more(console, file, p);
        };
        let served = self.serve(p.session, w, p.have, count, end);
        let at = self.spared(console, served.at)?;
        let mut next = p;
        next.session = served.session;
        next.walk = lines::passed(lines::front(self.input, p.have), w, count, end, at);
        Ok(Some(next))
    }

    // Serves a piece of a line that ends in it: a line that is one piece, or the end of one that is too long.
    fn serve(&mut self, session: Session, w: Walk, have: usize, count: usize, end: End) -> Served {
        let at = w.at;
        if !lines::ends(end) {
            return Served { session, at };
        }
        if !w.begins {
            let at = replies::refuse(self.text, at);
            return Served { session, at };
        }
        let input = &mut *self.input;
        let piece = lines::piece(lines::front(input, have), w.from, count);
        replies::serve(
            session,
            piece,
            self.octets,
            self.store,
            self.out,
            self.text,
            at,
        )
    }

    // Writes out what was said; then, unless the input has ended, keeps what is there of the next line and reads behind it.
    fn more<O: Write + Drop, E: Write + Drop, F: Read>(
        &mut self,
        console: &mut Console<O, E>,
        file: &mut F,
        p: Progress,
    ) -> Result<Option<Progress>, Ended> {
        self.write_out(console, p.walk.at)?;
        if p.ended {
            return Ok(None);
        }
        let left = lines::carry(self.input, p.have, p.walk);
        let mut next = p;
        next.walk = from_front(left.begins);
        match console.read(file, self.input, left.have)? {
            Some(have) => next.have = have,
            None => {
                next.have = left.have;
                next.ended = true;
            }
        }
        Ok(Some(next))
    }

    // Writes out the text if the next answer may find no room behind it, and gives where that goes.
    fn spared<O: Write + Drop, E: Write + Drop>(
        &self,
        console: &mut Console<O, E>,
        at: usize,
    ) -> Result<usize, Ended> {
        if at <= TEXT_ROOM - ANSWER_ROOM {
            return Ok(at);
        }
        self.write_out(console, at)?;
        Ok(0)
    }

    // Writes out the text up to a place; text that found no room is a failure.
    fn write_out<O: Write + Drop, E: Write + Drop>(
        &self,
        console: &mut Console<O, E>,
        at: usize,
    ) -> Result<(), Ended> {
        let written = console.write(lines::front(self.text, at));
        if TEXT_ROOM < at {
            return console.fail(b": an answer is longer than its buffer\n");
        }
        written
    }
}

// The next piece of what waits; at the end of the input all that is left is one.
fn cut(waiting: &[u8], from: usize, ended: bool) -> Option<Cut> {
    if ended {
        return lines::last(lines::piece(waiting, from, waiting.len()));
    }
    lines::next(waiting, from, LINE_MOST)
}

// A walk from the front of the input, with no text said.
fn from_front(begins: bool) -> Walk {
    Walk {
        from: 0,
        begins,
        open: false,
        at: 0,
    }
}
