// The files that a program is given by name: a unit, and its input.
ghost use Rattle.std.specs.Prelude.{◌≡◌, ◌<◌, OnOk, OnErr, IsErr};
ghost use Rattle.console.specs.declared.Mark.TheVariants.{Failed};

use super::{Console, Ended};
use std::env::FillError;
use std::fs::{File, Files as Opens};
use std::io::{Read, Stdin, Write};
use std::rt::Env;
use std::{fs, io};

// The longest name of a file.
const NAME_ROOM: usize = 4096;

// The most arguments that are counted, the program's name among them: more than any program takes.
const ARGUMENTS_MOST: usize = 8;

// A file that is open, or standard input.
#[derive(Drop)]
pub enum Source {
    Standard(Stdin),
    Named(File),
}

// The unit and the input that a program is given; where it may be given no unit, that is an option.
#[derive(Drop)]
pub struct Files<U> {
    pub unit: U,
    pub input: Source,
}

impl Read for Source {
    fn read(&mut self, buf: &mut [u8]) -> io::Result<usize> {
        match self {
            Source::Standard(s) => s.read(buf),
            Source::Named(f) => f.read(buf),
        }
    }
}

impl<O: Write + Drop, E: Write + Drop> Console<O, E> {
    // The files of a program that takes a unit and its input, which is standard input where it is left out. What is wrong is said.
    pub fn unit_and_input(&mut self, rt: &HostRuntime, usage: &[u8]) -> Result<Files<Source>, Ended>
        ensures ok { OnOk result (self.new ≡ self.old) }
        ensures err { OnErr result (self.new ≡ Failed) }
    {
        match arg_count(rt) {
            count @ 2..=3 => self.both(rt, 1, count),
            _ => self.fail(usage),
        }
    }

    // The files of a program that takes its input, and with the option `--unit` before it a unit. What is wrong is said.
    pub fn optional_unit(
        &mut self,
        rt: &HostRuntime,
        usage: &[u8],
    ) -> Result<Files<Option<Source>>, Ended>
        ensures ok { OnOk result (self.new ≡ self.old) }
        ensures err { OnErr result (self.new ≡ Failed) }
    {
        match (is_option(rt), arg_count(rt)) {
            (true, count @ 3..=4) => {
                let Files { unit, input } = self.both(rt, 2, count)?;
                Ok(Files {
                    unit: Some(unit),
                    input,
                })
            }
            (false, count @ 0..=2) => {
                let input = self.input_at(rt, 1, count)?;
                Ok(Files { unit: None, input })
            }
            _ => self.fail(usage),
        }
    }

    // The unit that an argument names, and the input that the next one does, of so many arguments. What is wrong is said.
    fn both(&mut self, rt: &HostRuntime, at: usize, count: usize) -> Result<Files<Source>, Ended>
        requires { at < 8 }
        ensures ok { OnOk result (self.new ≡ self.old) }
        ensures err { OnErr result (self.new ≡ Failed) }
    {
        let unit = self.argument(rt, at)?;
        let input = self.input_at(rt, at + 1, count)?;
        if let (Source::Standard(_), Source::Standard(_)) = (&unit, &input) {
            return self.fail(b": standard input cannot be both files\n");
        }
        Ok(Files { unit, input })
    }

    // The input that an argument names, of so many arguments, and standard input where it is left out.
    fn input_at(&mut self, rt: &HostRuntime, at: usize, count: usize) -> Result<Source, Ended>
        ensures ok { OnOk result (self.new ≡ self.old) }
        ensures err { OnErr result (self.new ≡ Failed) }
    {
        if count <= at {
            return Ok(Source::Standard(rt.stdin()));
        }
        self.argument(rt, at)
    }

    // The file that an argument names.
    fn argument(&mut self, rt: &HostRuntime, at: usize) -> Result<Source, Ended>
        ensures ok { OnOk result (self.new ≡ self.old) }
        ensures err { OnErr result (self.new ≡ Failed) }
    {
        let mut path = [0; NAME_ROOM];
        match rt.arg(at, &mut path) {
            Ok(count) => self.named(rt, &path[..count]),
            Err(_) => self.fail(b": the name of a file is too long\n"),
        }
    }

    // A file by its name: standard input where that is `-`; any other name that begins so is an option that there is not.
    fn named(&mut self, rt: &HostRuntime, path: &[u8]) -> Result<Source, Ended>
        ensures ok { OnOk result (self.new ≡ self.old) }
        ensures err { OnErr result (self.new ≡ Failed) }
    {
        match path {
            [] => self.fail(b": the name of a file is empty\n"),
            [b'-'] => Ok(Source::Standard(rt.stdin())),
            [b'-', ..] => self.refuse(b": unknown option ", path, b"\n"),
            _ => self.open(rt, path),
        }
    }

    // Opens a file by its name. What is wrong is said.
    fn open(&mut self, rt: &HostRuntime, path: &[u8]) -> Result<Source, Ended>
        ensures ok { OnOk result (self.new ≡ self.old) }
        ensures err { OnErr result (self.new ≡ Failed) }
    {
        let Ok(name) = str::from_utf8(path) else {
            return self.refuse(b": ", path, b": the name of the file is not UTF-8\n");
        };
        match opened(rt, name) {
            Ok(file) => Ok(Source::Named(file)),
            Err(e) => self.unreadable(rt, path, e),
        }
    }

    // Says that a file cannot be read, by its name and why.
    fn unreadable(&mut self, rt: &HostRuntime, path: &[u8], e: io::Error) -> Result<Source, Ended>
        ensures value { IsErr result }
        ensures marked { self.new ≡ Failed }
    {
        let refused = self.refuse(b": ", path, b": ");
        self.say_why(rt, e);
        self.say(b"\n");
        refused
    }

    // Says what is wrong with the name of a file, before and behind it.
    fn refuse(&mut self, before: &[u8], path: &[u8], behind: &[u8]) -> Result<Source, Ended>
        ensures value { IsErr result }
        ensures marked { self.new ≡ Failed }
    {
        let refused = self.fail(before);
        self.say(path);
        self.say(behind);
        refused
    }

    // Says why a file cannot be opened, as the system words it.
    fn say_why(&mut self, rt: &HostRuntime, e: io::Error)
        ensures { self.new ≡ self.old }
    {
        match format!(in rt.alloc(); "{e}") {
            Ok(text) => self.say(own_words(text.as_bytes())),
            Err(_) => self.say(b"it cannot be opened"),
        }
    }
}

// A file that is open by its name. Nothing is read of it, which a directory refuses.
fn opened(rt: &HostRuntime, name: &str) -> io::Result<File> {
    let mut file = fs::open(rt, name)?;
    let _nothing = file.read(&mut [])?;
    Ok(file)
}

// The system's own words, without the number in brackets behind them.
fn own_words(all: &[u8]) -> &[u8] {
    match all.iter().position(|c| *c == b'(') {
        Some(at) => &all[..at.saturating_sub(1)],
        None => all,
    }
}

// How many arguments there are, the program's name among them, as far as they are counted.
fn arg_count(rt: &HostRuntime) -> usize {
    (0..ARGUMENTS_MOST)
        .find(|at| !is_given(rt, *at))
        .unwrap_or(ARGUMENTS_MOST)
}

// Whether there is an argument at a place.
fn is_given(rt: &HostRuntime, at: usize) -> bool {
    !matches!(rt.arg(at, &mut [0]), Err(FillError::NotPresent))
}

// Whether the first argument is the option that names a unit.
fn is_option(rt: &HostRuntime) -> bool {
    let mut word = [0; NAME_ROOM];
    match rt.arg(1, &mut word) {
        Ok(count) => matches!(&word[..count], b"--unit"),
        Err(_) => false,
    }
}
