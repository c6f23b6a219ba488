// What a frame says, as a line for people.
#![tactic(auto)]

ghost use Rattle.saying.specs.Text.{SaysBy};
ghost use Rattle.frametext.specs.Text.{stamp_text, refused_text, frame_text, bad_text};

use tm::Stamp;
use tmreader::Verdict;

// Adds type and subtype, PID, count and time.
fn put_stamp(s: Stamp, text: &mut [u8], at: usize) -> usize
    ensures { SaysBy (stamp_text s) at text result }
{
    let first = toldtext::put_decimal(b"(", u64::from(s.kind), text, at);
    let second = toldtext::put_decimal(b",", u64::from(s.subtype), text, first);
    let third = toldtext::put_decimal(b") pid ", u64::from(s.pid), text, second);
    let fourth = toldtext::put_decimal(b" count ", u64::from(s.count), text, third);
    toldtext::put_hex(b" time ", &s.time, text, fourth)
}

// Adds a refusal by its number.
fn put_refused(v: Verdict, text: &mut [u8], at: usize) -> usize
    ensures { SaysBy (refused_text v) at text result }
{
    let first = toldtext::put_decimal(b"refused ", u64::from(tmreader::number(v)), text, at);
    saying::end(text, first)
}

// Adds the line of a frame.
pub fn put_frame(frame: &[u8], text: &mut [u8], at: usize) -> usize
    ensures { SaysBy (frame_text frame.now) at text result }
{
    let reading = tmreader::read(frame);
    let Some(told) = reading.contents else {
        return put_refused(reading.verdict, text, at);
    };
    let first = put_stamp(reading.stamp, text, at);
    let second = toldtext::put_told(frame, Some(told), text, first);
    saying::end(text, second)
}

// Adds the line of what is no frame in hexadecimal.
pub fn put_bad(text: &mut [u8], at: usize) -> usize
    ensures { SaysBy bad_text at text result }
{
    let first = saying::text(text, at, b"bad line");
    saying::end(text, first)
}
