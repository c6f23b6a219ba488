// `pack`: the record of a packet line, and why a line is refused by 70.
#![tactic(auto)]

ghost use Rattle.std.specs.Prelude.{◌≡◌, [], ◌∷◌, ◌++◌, take};
ghost use Rattle.tm.specs.Frame.{cut};
ghost use Rattle.lines.specs.Lines.{newline};
ghost use Rattle.saying.specs.Text.{SaysBy};
ghost use Rattle.packetline.specs.Packet.{lines_of};
ghost use Rattle.hexline.specs.Said.{SaidBy};
ghost use Rattle.packline.specs.Record.{record_of, record_after, halt_of, refused_at};

use decide::State;
use hexline::Written;
use map::Profile;
use stating::fault::Fault;

// Why a program stops at a line: a fault of a unit file; a line that is too long, a character that is no digit, with its place from 1 and its octet, or odd digits; a line that differs; or a record without packets.
#[derive(Clone, Copy)]
pub enum Halt {
    Unit(Fault),
    Long,
    Character { place: usize, octet: u8 },
    Odd,
    Differs,
    NoPacket,
}

// The frames at the front of the output buffer, one a line, then an empty line.
fn close(written: usize, out: &[u8], text: &mut [u8], at: usize) -> usize
    ensures { SaysBy (lines_of (cut (take written out.now)) ++ newline ∷ []) at text result }
{
    let frames = lines::front(out, written);
    let end = packetline::put_frames(frames, text, at);
    saying::end(text, end)
}

// The record of a packet line into a text from a place on. What would stand past the text's end is dropped.
pub fn record(
    profile: Profile,
    state: State,
    line: &[u8],
    store: &mut [u8],
    out: &mut [u8],
    text: &mut [u8],
    at: usize,
) -> Written
    ensures { SaidBy (λ m. record_of profile m line.now) (λ m. record_after profile m line.now) state at store out text result }
{
    let behind = saying::upper(text, at, line);
    let first = saying::end(text, behind);
    let outcome = hexline::serve(profile, state, line, store, out);
    let end = close(outcome.written, out, text, first);
    Written {
        at: end,
        state: outcome.state,
    }
}

// Why a line that is no packet line is refused, where it is not too long.
#[tactic(auto, using(crate::proofs::Halts::halt_odd_lem, crate::proofs::Halts::halt_character))]
pub fn why(line: &[u8]) -> Halt
    ensures { result ≡ halt_of line.now }
{
    let at = characters::text::bad_place(line);
    match line.get(at) {
        Some(octet) => Halt::Character {
            place: at + 1,
            octet: *octet,
        },
        None => Halt::Odd,
    }
}

// Adds `refused 70` and the number of the line.
pub fn put_refused(number: u64, text: &mut [u8], at: usize) -> usize
    ensures { SaysBy (refused_at number) at text result }
{
    let first = saying::text(text, at, b"refused 70 ");
    let behind = numerals::decimal(text, first, number);
    saying::end(text, behind)
}
