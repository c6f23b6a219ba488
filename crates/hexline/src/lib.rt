// The line program of document 01: a packet a line in hexadecimal, and what each line is answered.
#![tactic(auto)]

ghost use Rattle.std.specs.Prelude.{◌++◌, take};
ghost use Rattle.tm.specs.Frame.{cut};
ghost use Rattle.saying.specs.Text.{SaysBy};
ghost use Rattle.packetline.specs.Packet.{lines_of, closing_of};
ghost use Rattle.hexline.specs.Line.{line_answer, line_after};
ghost use Rattle.hexline.specs.Said.{SaidBy, ServedBy};

use decide::State;
use map::Profile;
use terminal::Outcome;

// How many octets a packet line has at the most.
pub const PACKET_ROOM: usize = 2048;

// How far the answers have come: the place of the next one in the text, and the counts.
#[derive(Clone, Copy)]
pub struct Written {
    pub at: usize,
    pub state: State,
}

// The terminal's answer to the packet that a line states, with time zero.
pub fn serve(
    profile: Profile,
    state: State,
    line: &[u8],
    store: &mut [u8],
    out: &mut [u8],
) -> Outcome
    ensures { ServedBy profile state line.now store out result }
{
    let mut packet = [0u8; PACKET_ROOM];
    characters::text::decode(line, &mut packet, 0);
    let octets = lines::front(&packet, line.len() / 2);
    terminal::answer(profile, state, [0; 6], octets, store, out)
}

// The frames at the front of the output buffer, one a line, then the closing line.
fn close(outcome: Outcome, out: &[u8], text: &mut [u8], at: usize) -> usize
    ensures { SaysBy (lines_of (cut (take outcome.written out.now)) ++ closing_of outcome.verdict) at text result }
{
    let frames = lines::front(out, outcome.written);
    let end = packetline::put_frames(frames, text, at);
    let verdict = outcome.verdict;
    packetline::put_verdict(verdict, text, end)
}

// Answers a line into a text from a place on: 0200 where it is no packet line. What would stand past the text's end is dropped.
pub fn answer(
    profile: Profile,
    state: State,
    line: &[u8],
    store: &mut [u8],
    out: &mut [u8],
    text: &mut [u8],
    at: usize,
) -> Written
    ensures { SaidBy (λ m. line_answer profile m line.now) (λ m. line_after profile m line.now) state at store out text result }
{
    if !packetline::is_packet(line) {
        let end = packetline::put_closing(2, 0, text, at);
        return Written { at: end, state };
    }
    let outcome = serve(profile, state, line, store, out);
    let end = close(outcome, out, text, at);
    let next = outcome.state;
    Written {
        at: end,
        state: next,
    }
}
