// The loop of a program over lines: a file is read in parts, what came is fed to the program, and what it says is written.
#![tactic(auto)]

ghost use Rattle.std.specs.Prelude.{◌≡◌, take};
ghost use Rattle.console.specs.Marks.{worst};
ghost use Rattle.console.specs.declared.Mark.TheVariants.{Fine};
ghost use Rattle.running.specs.Verdicts.{verdict_of, MarksLast, MarksTurn};

use console::{Console, Ended, Mark};
use desk::Desk;
use feeding::Progress;
use packline::Halt;
use std::io::{Read, Write};
use std::ops::ControlFlow;
use tasks::Task;

// How much the buffers hold of the input and of the text. The input has room behind the longest open piece, 4,096 characters, for 65,536 more.
pub const INPUT_ROOM: usize = 69632;

pub const TEXT_ROOM: usize = 65536;

// What a program over lines is lent: the buffers of the input that is not answered yet, of the store, of the terminal's frames, and of the text that waits to be written.
#[derive(Drop)]
pub struct Buffers<'a> {
    pub input: &'a mut [u8],
    pub store: &'a mut [u8],
    pub frames: &'a mut [u8],
    pub text: &'a mut [u8],
}

impl<'a> Buffers<'a> {
    // The buffers with a store of at most so many octets, and the others as they are.
    pub fn with_store(self, octets: usize) -> Buffers<'a>
        ensures store { result.store.now ≡ take octets self.entry.store.now }
        ensures input { result.input.now ≡ self.entry.input.now }
        ensures frames { result.frames.now ≡ self.entry.frames.now }
        ensures text { result.text.now ≡ self.entry.text.now }
    {
        let Buffers {
            input,
            store,
            frames,
            text,
        } = self;
        let count = octets.min(store.len());
        Buffers {
            input,
            store: &mut store[..count],
            frames,
            text,
        }
    }

    // Runs a program over a file, from a desk on, and gives the desk behind the last line. A proved loop has to end, and nothing says that the input does. So the loop counts its turns, up to a number that no run uses up.
    pub fn run<O: Write + Drop, E: Write + Drop, F: Read>(
        &mut self,
        console: &mut Console<O, E>,
        task: Task,
        file: &mut F,
        desk: Desk,
    ) -> Result<Desk, Ended>
        ensures { verdict_of task desk ≡ Fine → MarksLast task console.old result console.new }
    {
        let mut p = feeding::start(desk);
        for _ in 0..u64::MAX {
            match self.turn(console, task, file, p)? {
                ControlFlow::Continue(next) => p = next,
                ControlFlow::Break(last) => return Ok(last),
            }
        }
        Ok(p.desk)
    }

    // One turn: answers what was read, and writes what was said; then, where the program has not stopped and no whole piece is left, reads more.
    #[tactic(auto, using(crate::proofs::Verdicts::worst_fine))]
    fn turn<O: Write + Drop, E: Write + Drop, F: Read>(
        &mut self,
        console: &mut Console<O, E>,
        task: Task,
        file: &mut F,
        p: Progress,
    ) -> Result<ControlFlow<Desk, Progress>, Ended>
        ensures { MarksTurn task console.old result console.new }
    {
        let fed = feeding::feed(task, p, self.input, self.store, self.frames, self.text);
        mark(console, task, fed.desk);
        console.write(lines::front(self.text, fed.lines.at))?;
        if desk::is_halted(fed.desk) {
            return Ok(ControlFlow::Break(fed.desk));
        }
        if fed.lines.open {
            return self.more(console, task, file, fed);
        }
        Ok(ControlFlow::Continue(fed))
    }

    // Reads behind what is left, and at the end of the input answers that.
    #[tactic(auto, using(crate::proofs::Verdicts::worst_fine))]
    fn more<O: Write + Drop, E: Write + Drop, F: Read>(
        &mut self,
        console: &mut Console<O, E>,
        task: Task,
        file: &mut F,
        p: Progress,
    ) -> Result<ControlFlow<Desk, Progress>, Ended>
        requires { verdict_of task p.desk ≡ Fine }
        ensures { MarksTurn task console.old result console.new }
    {
        let Some(have) = console.read(file, self.input, p.lines.have)? else {
            return Ok(ControlFlow::Break(self.end(console, task, p)?));
        };
        let mut next = p;
        next.lines.have = have;
        Ok(ControlFlow::Continue(next))
    }

    // Answers what is left at the end of the input.
    fn end<O: Write + Drop, E: Write + Drop>(
        &mut self,
        console: &mut Console<O, E>,
        task: Task,
        p: Progress,
    ) -> Result<Desk, Ended>
        ensures { MarksLast task console.old result console.new }
    {
        let input = &mut *self.input;
        let last = feeding::finish(task, p, input, self.store, self.frames, self.text);
        mark(console, task, last.desk);
        console.write(lines::front(self.text, last.at))?;
        Ok(last.desk)
    }
}

// Marks a judge's verdict for whoever started the program. It is marked before it is written, so that it stands even where nobody reads it.
pub fn mark<O: Write + Drop, E: Write + Drop>(console: &mut Console<O, E>, task: Task, desk: Desk)
    ensures { console.new ≡ worst console.old (verdict_of task desk) }
{
    console.mark(verdict(task, desk));
}

// What a program marks by why it has stopped: a judge's record differs, or is refused.
fn verdict(task: Task, desk: Desk) -> Mark
    ensures { result ≡ verdict_of task desk }
{
    if let Task::Judge = task {
        return match desk.halt {
            None => Mark::Fine,
            Some(Halt::Differs) => Mark::Differs,
            Some(_) => Mark::Failed,
        };
    }
    Mark::Fine
}
