// Telemetry packets of document 01: the layout of a frame, and where it ends.
#![tactic(auto)]

ghost use Rattle.std.specs.Prelude.{◌≡◌, ◌+◌, min, length, drop};
ghost use Rattle.tm.specs.Frame.{head_of, frame_of, frame_size, LaysFrame};

use fields::{PacketId, Sequence};

// The octets before a frame's source data.
pub const HEAD: usize = 16;

// The octets of a frame that are its time: from the first up to the second.
pub const TIME_FIRST: usize = 6;

pub const TIME_END: usize = 12;

// What the length field leaves out of a frame's octets.
pub const UNCOUNTED: usize = 7;

// How many values a field of 16 bits has.
const FIELD: usize = 65536;

// What a frame carries before its source data: whose it is, the count of its category, the time, and what it reports.
#[derive(Clone, Copy)]
pub struct Stamp {
    pub pid: u8,
    pub count: u16,
    pub time: [u8; 6],
    pub kind: u8,
    pub subtype: u8,
}

// The sixteen octets before the source data of a frame with so many octets of it.
#[tactic(auto, using(crate::proofs::Frame::time_six), unfolding(crate::specs::Frame::head_of))]
pub fn head(stamp: Stamp, octets: usize) -> [u8; 16]
    ensures { result ≡ head_of stamp octets }
{
    let apid = fields::join_apid(u16::from(stamp.pid), counts::category(stamp.kind));
    let id = octets::numbers::octets_of16(fields::join_id(PacketId {
        version: 0,
        kind: 0,
        header: 1,
        apid,
    }));
    let control = octets::numbers::octets_of16(fields::join_sequence(Sequence {
        flags: 3,
        count: stamp.count,
    }));
    // Reduced first: to the largest count nothing can be added.
    let length = octets::numbers::octets_of16(((octets % FIELD + HEAD - UNCOUNTED) % FIELD) as u16);
    let time = stamp.time;
    // Octet by octet, as the packet's layout has them: no plainer where parts are copied to their places.
    [
        id[0],
        id[1],
        control[0],
        control[1],
        length[0],
        length[1],
        time[0],
        time[1],
        time[2],
        time[3],
        time[4],
        time[5],
        0,
        stamp.kind,
        stamp.subtype,
        0,
    ]
}

// Lays a frame into a buffer from a place on and answers how many octets it has; those that would stand past the buffer's end are dropped.
#[tactic(auto, using(crate::proofs::Frame::laid_frame, crate::proofs::Frame::frame_length))]
pub fn put_frame(out: &mut [u8], at: u16, stamp: Stamp, source: &[u8]) -> usize
    ensures { LaysFrame (frame_of stamp source.now) at out.old result out.new }
{
    let first = head(stamp, source.len());
    let place = usize::from(at);
    let next = place + HEAD;
    octets::copy::put(out, place, &first);
    octets::copy::put(out, next, source) + HEAD
}

// Where the frame ends that begins at a place of some frames: as its length field says, and at the end of them where that lies past it.
pub fn frame_end(frames: &[u8], from: usize) -> usize
    ensures { result ≡ min (from + frame_size (drop from frames.now)) (length frames.now) }
{
    let frame = octets::copy::behind(frames, from);
    let size = usize::from(octets::numbers::word16_at(frame, 4)) + UNCOUNTED;
    octets::numbers::least_sum(from, size, frames.len())
}
