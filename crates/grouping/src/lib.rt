// The groups of a record: where a line stands, and the frames that are due there.
#![tactic(auto)]

ghost use Rattle.std.specs.Prelude.{◌≡◌};
ghost use Rattle.grouping.specs.Group.{no_group, due_at, opened, compared, closed};

// The most octets of a frame that are looked at.
const FRAME_ROOM: usize = 4096;

// A group of a record: whether a line stands in one, between which places of the output buffer the frames stand that are due and not compared yet, and the line of its packet; and of the whole record whether it has a packet, and how many packets and frames were compared.
#[derive(Clone, Copy)]
pub struct Group {
    pub open: bool,
    pub some: bool,
    pub from: usize,
    pub end: usize,
    pub packet: u64,
    pub packets: u64,
    pub frames: u64,
}

// Before the first packet of a record.
pub fn start() -> Group
    ensures { result ≡ no_group }
{
    Group {
        open: false,
        some: false,
        from: 0,
        end: 0,
        packet: 0,
        packets: 0,
        frames: 0,
    }
}

// The first of the frames due that are left.
pub fn due(g: Group, out: &[u8]) -> &[u8]
    ensures { result.now ≡ due_at g out.now }
{
    let frames = lines::front(out, g.end);
    let left = lines::piece(frames, g.from, frames.len());
    let frame = lines::front(left, tm::frame_end(left, 0));
    lines::front(frame, FRAME_ROOM)
}

// Behind a packet whose frames are so many octets.
pub fn open(g: Group, number: u64, octets: usize) -> Group
    ensures { result ≡ opened g number octets }
{
    Group {
        open: true,
        some: true,
        from: 0,
        end: octets,
        packet: number,
        packets: g.packets.wrapping_add(1),
        frames: g.frames,
    }
}

// Behind a frame that agrees.
pub fn compare(g: Group, out: &[u8]) -> Group
    ensures { result ≡ compared g out.now }
{
    let end = tm::frame_end(lines::front(out, g.end), g.from);
    Group {
        open: true,
        from: end,
        frames: g.frames.wrapping_add(1),
        ..g
    }
}

// Behind the line that ends a group.
pub fn close(g: Group) -> Group
    ensures { result ≡ closed g }
{
    Group { open: false, ..g }
}
