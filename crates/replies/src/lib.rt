// What each command of `cases` does and prints.
#![tactic(auto)]

ghost use Rattle.std.specs.Prelude.{◌≡◌};
ghost use Rattle.octets.specs.Copy.{laid};
ghost use Rattle.commands.specs.Form.{given_in, command_in};
ghost use Rattle.saying.specs.Text.{SaysBy};
ghost use Rattle.showing.specs.Shows.{bench_of, ServedBy};
ghost use Rattle.replies.specs.Does.{does, bad_text};

use commands::form::Command;
use commands::session::Session;
use commands::{form, session};
use showing::Served;

// What holds the octets that a line gives.
pub type Octets = [u8; form::GIVEN_MOST];

// Does what a line says, or answers that it is bad.
pub fn serve(
    s: Session,
    line: &[u8],
    octets: &mut Octets,
    store: &mut [u8],
    out: &mut [u8],
    text: &mut [u8],
    at: usize,
) -> Served
    ensures served_by { ServedBy (does (command_in line.now) (bench_of s store out) (given_in line.now)) at store out text result }
    ensures octets_after { octets.new ≡ laid octets.old 0 (given_in line.now) }
{
    let digits = form::digits(line);
    characters::text::decode(digits, octets, 0);
    let given = lines::front(octets, digits.len() / 2);
    act(form::asked(line, given), s, given, store, out, text, at)
}

// The answer to a bad line, which changes nothing.
pub fn refuse(text: &mut [u8], at: usize) -> usize
    ensures { SaysBy bad_text at text result }
{
    saying::line(text, at, &[2, 0])
}

// Each command, given the octets that it takes; a line without one is bad.
#[tactic(auto, unfolding(crate::specs::Does::does))]
fn act(
    asked: Option<Command>,
    s: Session,
    given: &[u8],
    store: &mut [u8],
    out: &mut [u8],
    text: &mut [u8],
    at: usize,
) -> Served
    ensures { ServedBy (does asked (bench_of s store out) given.now) at store out text result }
{
    let Some(command) = asked else {
        return gives(s, refuse(text, at));
    };
    match command {
        Command::SetProfile => gives(session::set_profile(s, given), saying::kept(text, at)),
        Command::SetStore => gives(session::set_store(s, given, store), saying::kept(text, at)),
        Command::SetCounts => gives(session::set_counts(s, given), saying::kept(text, at)),
        Command::SetTime => gives(session::set_time(s, given), saying::kept(text, at)),
        Command::SetBuffer => gives(session::set_buffer(s, given, out), saying::kept(text, at)),
        Command::Answer => showing::answer(s, given, store, out, text, at),
        Command::PrintBuffer => gives(s, saying::line(text, at, lines::front(out, s.room))),
        Command::PrintStore => gives(s, saying::line(text, at, lines::front(store, s.stored))),
        Command::Read => gives(s, showing::read(given, text, at)),
        Command::Write => gives(s, showing::write(given, text, at)),
        Command::Check => gives(s, showing::control(given, text, at)),
        Command::CheckFrom => gives(s, showing::control_from(given, text, at)),
        Command::Wider => gives(s, showing::wider(s, given, text, at)),
        Command::ReadFrames => gives(s, fieldtext::put_read(given, text, at)),
    }
}

// A session, and the place behind the text.
fn gives(session: Session, at: usize) -> Served
    ensures { result ≡ record { session = session; at = at } }
{
    Served { session, at }
}
