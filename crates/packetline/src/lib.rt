// The text of a packet line and of its answer: whether a line is a packet line, frames one a line, and the closing line.
#![tactic(auto)]

ghost use Rattle.std.specs.Prelude.{◌≡◌};
ghost use Rattle.tm.specs.Frame.{cut};
ghost use Rattle.saying.specs.Text.{SaysBy};
ghost use Rattle.packetline.specs.Packet.{is_packet, lines_of, closing, closing_of};

use checks::Verdict;

// The most characters of a packet line.
pub const LINE_MOST: usize = 4096;

// Whether a line is a packet line: digits only, an even count of them, and at most 4,096.
#[tactic(auto, unfolding(crate::specs::Packet::is_packet))]
pub fn is_packet(line: &[u8]) -> bool
    ensures { result ≡ is_packet line.now }
{
    line.len() <= LINE_MOST && line.len() % 2 == 0 && characters::text::all_digits(line)
}

// Adds frames, one a line.
pub fn put_frames(frames: &[u8], text: &mut [u8], at: usize) -> usize
    ensures { SaysBy (lines_of (cut frames.now)) at text result }
{
    let mut from = 0;
    let mut to = saying::kept(text, at);
    while from < frames.len() {
        let end = tm::frame_end(frames, from);
        to = saying::line(text, to, &frames[from..end]);
        from = end;
    }
    to
}

// Adds a closing line.
pub fn put_closing(kind: u8, number: u8, text: &mut [u8], at: usize) -> usize
    ensures { SaysBy (closing kind number) at text result }
{
    saying::line(text, at, &[kind, number])
}

// Adds the closing line of a verdict: 0000 accepted, or 01 and the number as one octet.
#[tactic(auto, unfolding(crate::specs::Packet::closing_of))]
pub fn put_verdict(v: Verdict, text: &mut [u8], at: usize) -> usize
    ensures { SaysBy (closing_of v) at text result }
{
    let number = checks::number(v) as u8;
    let kind = if v.is_ok() { 0 } else { 1 };
    put_closing(kind, number, text, at)
}
