// The commands that print what the terminal, the reader, the writer, the CRC or the profiles answer.
#![tactic(auto)]

ghost use Rattle.std.specs.Prelude.{◌≡◌, min};
ghost use Rattle.saying.specs.Text.{SaysBy};
ghost use Rattle.writer.specs.Writer.{Writes};
ghost use Rattle.showing.specs.Shows.{bench_of, input_at, AnsweredAt, ServedBy, answering, read_text, order_in, data_in, write_text, value_text, control_text, going_on_text, wider_text};

use commands::form::{FLAG_AT, ORDER_OCTETS, START_OCTETS};
use commands::session;
use commands::session::Session;
use printing::answer;
use tc::Method;
use terminal::Outcome;
use writer::{Order, Written};

// Where the room stands behind an order.
const ROOM_AT: usize = 7;

// The longest buffer that the writer is given.
const PACKET_ROOM: usize = 65536;

// The session, and the place behind the text.
#[derive(Clone, Copy)]
pub struct Served {
    pub session: Session,
    pub at: usize,
}

// X: the terminal answers a packet.
pub fn answer(
    s: Session,
    packet: &[u8],
    store: &mut [u8],
    out: &mut [u8],
    text: &mut [u8],
    at: usize,
) -> Served
    ensures { ServedBy (answering (bench_of s store out) packet.now) at store out text result }
{
    let outcome = answered(s, packet, store, out);
    let state = outcome.state;
    let frames = saying::line(text, at, lines::front(out, outcome.written));
    let verdict = answer::put_verdict(text, frames, outcome.verdict);
    let last = answer::put_counts(text, verdict, outcome.written, state.counts);
    let session = session::with_state(s, state);
    Served { session, at: last }
}

// The terminal's answer, over the store and the output buffer as long as they are now.
fn answered(s: Session, packet: &[u8], store: &mut [u8], out: &mut [u8]) -> Outcome
    ensures { AnsweredAt (input_at (bench_of s store out) packet.now) store out result }
{
    let stored = s.stored.min(store.len());
    let room = s.room.min(out.len());
    terminal::answer(
        s.profile,
        s.state,
        s.time,
        packet,
        &mut store[..stored],
        &mut out[..room],
    )
}

// R: the reader reads a packet.
pub fn read(packet: &[u8], text: &mut [u8], at: usize) -> usize
    ensures { SaysBy (read_text packet.now) at text result }
{
    let reading = reader::read(packet);
    let verdict = answer::put_verdict(text, at, reading.verdict);
    let fields = answer::put_fields(text, verdict, reading.fields);
    saying::last(text, fields, octets::copy::placed(packet, reading.data))
}

// W: the writer writes a packet into a buffer of the length asked for, each octet EE before.
pub fn write(given: &[u8], text: &mut [u8], at: usize) -> usize
    ensures { SaysBy (write_text given.now) at text result }
{
    let mut packet = [0xEEu8; PACKET_ROOM];
    let room = usize::from(octets::numbers::word16_at(given, ROOM_AT));
    let written = written_into(given, &mut packet[..room]);
    let code = answer::put_written(text, at, written);
    saying::last(text, code, &packet[..room])
}

// The writer's answer to the order at the front of some octets, over a buffer.
fn written_into(given: &[u8], buffer: &mut [u8]) -> Written
    ensures { Writes (order_in given.now) (data_in given.now) buffer.old result buffer.new }
{
    writer::write(
        order_in(given),
        octets::copy::part(given, ORDER_OCTETS, given.len()),
        buffer,
    )
}

// The order at the front of some octets: PID, count, ack, checksum flag, type, subtype.
fn order_in(given: &[u8]) -> Order
    ensures { result ≡ order_in given.now }
{
    Order {
        pid: octets::numbers::one(given, 0),
        count: octets::numbers::word16_at(given, 1),
        ack: octets::numbers::one(given, 3),
        method: Method::from(octets::numbers::octet_at(given, FLAG_AT)),
        kind: octets::numbers::one(given, 5),
        subtype: octets::numbers::one(given, 6),
    }
}

// C: the CRC of some octets.
pub fn control(given: &[u8], text: &mut [u8], at: usize) -> usize
    ensures { SaysBy (control_text given.now) at text result }
{
    put_value(crc::ALL_ONES, given, text, at)
}

// D: the CRC that goes on from the value at the front of some octets, over those behind it.
pub fn control_from(given: &[u8], text: &mut [u8], at: usize) -> usize
    ensures { SaysBy (going_on_text given.now) at text result }
{
    let start = octets::numbers::word16_at(given, 0);
    let part = octets::copy::part(given, START_OCTETS, given.len());
    put_value(start, part, text, at)
}

// The CRC from a start over some octets, on a line.
fn put_value(start: u16, octets: &[u8], text: &mut [u8], at: usize) -> usize
    ensures { SaysBy (value_text start octets.now) at text result }
{
    saying::line(text, at, &crc::crc(start, octets).to_be_bytes())
}

// V: whether a profile is wider than the one that stands, over the store that stands.
pub fn wider(s: Session, given: &[u8], text: &mut [u8], at: usize) -> usize
    ensures { SaysBy (wider_text s given.now) at text result }
{
    let is = wider::is_wider(session::profile_in(given), s.profile, s.stored);
    saying::line(text, at, &[u8::from(is)])
}
