// What a program that takes lines reads and writes: what fails is said on standard error, and marked for the status that the program ends with.
#![tactic(auto)]

ghost use Rattle.std.specs.Prelude.{◌≡◌, OnOk, OnErr, IsErr};
ghost use Rattle.std.specs.Process.{exit_status};
ghost use Rattle.console.specs.declared.Mark.TheVariants.{Fine, Failed};
ghost use Rattle.console.specs.Marks.{worst, status_of, LeftUnwritten};
ghost use Rattle.console.specs.Reads.{Reads};

use std::io::{ErrorKind, Read, Write};
use std::marker::Model;
use std::process::ExitCode;

pub mod files; // files.rt: the files that a program is given by name

// What a program says by its status, from better to worse: nothing, that a record differs, or that something failed or was refused.
#[derive(Clone, Copy, PartialEq, Eq, PartialOrd, Ord)]
pub enum Mark {
    Fine,
    Differs,
    Failed,
}

// The statuses of a program: 0, 1 and 2.
impl From<Mark> for ExitCode {
    ghost from_gives = { λ m e. exit_status e ≡ status_of m };

    fn from(mark: Mark) -> ExitCode {
        ExitCode::from(mark as u8)
    }
}

// The program is over: what is wrong is said and marked, unless it is only that nobody reads what it writes any more.
#[derive(Clone, Copy)]
pub struct Ended;

// A program's name, what it writes to, where it says what fails, and what is marked so far.
#[derive(Drop)]
pub struct Console<O, E> {
    name: &'static [u8],
    out: O,
    err: E,
    mark: Mark,
}

// A contract sees what is marked.
impl<O, E> Model for Console<O, E> {
    ghost use Rattle.console.specs.declared.Mark.{Mark};

    ghost Value = { Mark };

    ghost view = { λ c. c.mark };
}

impl<O: Write + Drop, E: Write + Drop> Console<O, E> {
    // The console of a program by its name, with nothing marked.
    pub fn new(name: &'static [u8], out: O, err: E) -> Self
        ensures { result ≡ Fine }
    {
        Console {
            name,
            out,
            err,
            mark: Mark::Fine,
        }
    }

    // Reads from a file behind the input that is not answered, at the front of its buffer: how much there is then, and none where the input has ended.
    pub fn read<F: Read>(
        &mut self,
        file: &mut F,
        input: &mut [u8],
        have: usize,
    ) -> Result<Option<usize>, Ended>
        ensures reads { Reads have input.old result input.new }
        ensures ok { OnOk result (self.new ≡ self.old) }
        ensures err { OnErr result (self.new ≡ Failed) }
    {
        if input.len() < have {
            return Ok(None);
        }
        match file.read(&mut input[have..]) {
            Ok(0) => Ok(None),
            Ok(count) => Ok(Some(have + count)),
            Err(_) => self.fail(b": the input cannot be read\n"),
        }
    }

    // Writes octets to standard output, all of them. That nobody reads any more is no failure, but ends the program.
    pub fn write(&mut self, octets: &[u8]) -> Result<(), Ended>
        ensures ok { OnOk result (self.new ≡ self.old) }
        ensures err { OnErr result (LeftUnwritten self.old self.new) }
    {
        match self.out.write_all(octets) {
            Ok(()) => Ok(()),
            Err(e) if e.kind() == ErrorKind::BrokenPipe => Err(Ended),
            Err(_) => self.fail(b": standard output cannot be written\n"),
        }
    }

    // Says what a program cannot do, and marks it.
    pub fn fail<T>(&mut self, what: &[u8]) -> Result<T, Ended>
        ensures value { IsErr result }
        ensures marked { self.new ≡ Failed }
    {
        self.say(self.name);
        self.tell(what);
        Err(Ended)
    }

    // Says more of a verdict on standard error, and marks it.
    pub fn tell(&mut self, what: &[u8])
        ensures { self.new ≡ Failed }
    {
        self.say(what);
        self.mark(Mark::Failed);
    }

    // Marks a verdict, unless a worse one is marked.
    pub fn mark(&mut self, mark: Mark)
        ensures { self.new ≡ worst self.old mark }
    {
        self.mark = self.mark.max(mark);
    }

    // The status that a program ends with, by what is marked.
    pub fn status(&self) -> ExitCode
        ensures { exit_status result ≡ status_of self.now }
    {
        ExitCode::from(self.mark)
    }

    // Says something on standard error; where nobody can be told that it fails, nothing is done about it.
    pub fn say(&mut self, what: &[u8])
        ensures { self.new ≡ self.old }
    {
        let _ = self.err.write_all(what);
    }
}
