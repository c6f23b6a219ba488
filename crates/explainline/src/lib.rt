// `explain`: a packet a line in hexadecimal, and what is said of each.
#![tactic(auto)]

ghost use Rattle.saying.specs.Text.{SaysBy};
ghost use Rattle.explainline.specs.Line.{bad_text, reason_text, explanation_text, explain_says};

use explaining::{Explanation, Reason};
use hexline::PACKET_ROOM;
use map::Profile;

// The answer to a line, added to a text from a place on.
pub fn answer(profile: Profile, line: &[u8], text: &mut [u8], at: usize) -> usize
    ensures { SaysBy (explain_says profile line.now) at text result }
{
    if !packetline::is_packet(line) {
        return put_bad(text, at);
    }
    let mut packet = [0u8; PACKET_ROOM];
    characters::text::decode(line, &mut packet, 0);
    let octets = lines::front(&packet, line.len() / 2);
    put_explanation(explaining::explain(profile, octets), text, at)
}

// Adds what is said of a line that is no packet line: 0200, as the line program does.
pub fn put_bad(text: &mut [u8], at: usize) -> usize
    ensures { SaysBy bad_text at text result }
{
    packetline::put_closing(2, 0, text, at)
}

// Adds what is said of a packet.
fn put_explanation(e: Explanation, text: &mut [u8], at: usize) -> usize
    ensures { SaysBy (explanation_text e) at text result }
{
    match e {
        Ok(()) => packetline::put_closing(0, 0, text, at),
        Err(reason) => put_reason(reason, text, at),
    }
}

// Adds why it is refused: number, detail, first and last offset.
fn put_reason(reason: Reason, text: &mut [u8], at: usize) -> usize
    ensures { SaysBy (reason_text reason) at text result }
{
    let first = numerals::decimal(text, at, u64::from(reason.number));
    let second = toldtext::put_decimal(b" ", u64::from(reason.detail), text, first);
    let third = toldtext::put_decimal(b" ", reason.first as u64, text, second);
    let fourth = toldtext::put_decimal(b" ", reason.last as u64, text, third);
    saying::end(text, fourth)
}
