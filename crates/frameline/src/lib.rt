// `frames`: a frame a line in hexadecimal, and what each line is answered.
#![tactic(auto)]

ghost use Rattle.saying.specs.Text.{SaysBy};
ghost use Rattle.frameline.specs.Line.{frame_says};

// How many octets a line of a frame has at the most.
const FRAME_ROOM: usize = 2048;

// The answer to a line, added to a text from a place on.
pub fn answer(line: &[u8], text: &mut [u8], at: usize) -> usize
    ensures { SaysBy (frame_says line.now) at text result }
{
    if !packetline::is_packet(line) {
        return frametext::put_bad(text, at);
    }
    let mut frame = [0u8; FRAME_ROOM];
    characters::text::decode(line, &mut frame, 0);
    let octets = lines::front(&frame, line.len() / 2);
    frametext::put_frame(octets, text, at)
}
