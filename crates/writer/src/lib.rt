// The writer: a packet of category 12 and pad 0, with error control by the method asked for, laid at the front of a buffer.
#![tactic(auto)]

ghost use Rattle.std.specs.Prelude.{◌≡◌, ◌+◌, ◌≤◌, length, OnOk};
ghost use Rattle.octets.specs.Copy.{laid};
ghost use Rattle.tc.specs.Layout.{around, data_most, head_of, packet_of};
ghost use Rattle.writer.specs.Writer.{error_number, written_of, Writes, fields_for};

use fields::{Header, PacketId, Sequence};
use tc::{AROUND, CATEGORY, HEAD, Method};

// The most octets of application data.
const DATA_MOST: usize = 236;

// The largest count.
const COUNT_MOST: u16 = 16383;

// What the writer is asked to put into a packet besides its application data.
#[derive(Clone, Copy)]
pub struct Order {
    pub pid: u8,
    pub count: u16,
    pub ack: u8,
    pub method: Method,
    pub kind: u8,
    pub subtype: u8,
}

// Why the writer writes nothing.
#[derive(Clone, Copy)]
pub enum WriteError {
    // 50: PID above 127, count above 16,383 or ack above 15.
    BadField,
    // 51: application data above 236 octets.
    BadData,
    // 52: a buffer too short.
    NoRoom,
}

// What the writer answers: the packet's length, or why nothing is written.
pub type Written = Result<usize, WriteError>;

// The number of a refusal as document 01 has it: 50, 51 or 52.
impl From<WriteError> for u16 {
    ghost from_gives = { λ error number. number ≡ error_number error };

    fn from(error: WriteError) -> u16 {
        match error {
            WriteError::BadField => 50,
            WriteError::BadData => 51,
            WriteError::NoRoom => 52,
        }
    }
}

// Writes a packet at the front of a buffer; a refused write touches nothing.
#[tactic(auto, unfolding(crate::specs::Writer::buffer_after))]
pub fn write(order: Order, application: &[u8], buffer: &mut [u8]) -> Written
    ensures { Writes order application.now buffer.old result buffer.new }
{
    let length = judge(order, application.len(), buffer.len())?;
    lay(order, application, buffer);
    Ok(length)
}

// The writer's answer: 50, 51, 52 in that order, or the packet's length.
#[tactic(auto, unfolding(crate::specs::Writer::written_of, crate::specs::Writer::writer_rows, checks::specs::Table::answer))]
fn judge(order: Order, octets: usize, room: usize) -> Written
    ensures answer { result ≡ written_of order octets room }
    ensures fits { OnOk result ((octets ≤ data_most) × (octets + around ≤ room)) }
{
    if 127 < order.pid || COUNT_MOST < order.count || 15 < order.ack {
        return Err(WriteError::BadField);
    }
    if DATA_MOST < octets {
        return Err(WriteError::BadData);
    }
    if room < octets + AROUND {
        return Err(WriteError::NoRoom);
    }
    Ok(octets + AROUND)
}

// The first ten octets of a packet with that much application data.
#[tactic(auto, unfolding(tc::specs::Layout::head_of))]
fn head(order: Order, octets: u16) -> [u8; 10]
    requires { octets ≤ data_most }
    ensures { result ≡ head_of (fields_for order) octets }
{
    let apid = fields::join_apid(u16::from(order.pid), CATEGORY);
    let id = fields::join_id(PacketId {
        version: 0,
        kind: 1,
        header: 1,
        apid,
    });
    let control = fields::join_sequence(Sequence {
        flags: 3,
        count: order.count,
    });
    let length = octets + (AROUND as u16) - 7;
    let first = fields::join_header(Header {
        version: 0,
        checksum: u16::from(order.method),
        ack: u16::from(order.ack),
    });
    let [id_high, id_low] = id.to_be_bytes();
    let [control_high, control_low] = control.to_be_bytes();
    let [length_high, length_low] = length.to_be_bytes();
    [
        id_high,
        id_low,
        control_high,
        control_low,
        length_high,
        length_low,
        first as u8,
        order.kind,
        order.subtype,
        0,
    ]
}

// Lays the packet at the front of a buffer that has room for it.
fn lay(order: Order, application: &[u8], buffer: &mut [u8])
    requires { (length application.now ≤ data_most) × (length application.now + around ≤ length buffer.old) }
    ensures { buffer.new ≡ laid buffer.old 0 (packet_of (fields_for order) application.now) }
{
    let first = head(order, application.len() as u16);
    octets::copy::put(buffer, 0, &first);
    let end = octets::copy::put(buffer, HEAD, application) + HEAD;
    let control = tc::error_control(order.method, &buffer[..end]).to_be_bytes();
    octets::copy::put(buffer, end, &control);
}
