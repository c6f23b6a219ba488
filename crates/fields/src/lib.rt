// The fields of a packet's headers, taken apart and put together by shifts and masks; the contracts say the same in division and remainder.
#![tactic(auto)]

ghost use Rattle.std.specs.Prelude.{◌≡◌};
ghost use Rattle.octets.specs.Numbers.{word16};
ghost use Rattle.fields.specs.Fields.{packet_id, id_of, sequence, control_of, header, header_of, apid_of};

// A packet ID's fields: version 3 bits, type 1 bit, data field header flag 1 bit, APID 11 bits.
#[derive(Clone, Copy)]
pub struct PacketId {
    pub version: u16,
    pub kind: u16,
    pub header: u16,
    pub apid: u16,
}

// A sequence control's fields: flags 2 bits, count 14 bits.
#[derive(Clone, Copy)]
pub struct Sequence {
    pub flags: u16,
    pub count: u16,
}

// The fields of the first octet of a TC's data field header: PUS version 3 bits, checksum flag 1 bit, ack 4 bits.
#[derive(Clone, Copy)]
pub struct Header {
    pub version: u16,
    pub checksum: u16,
    pub ack: u16,
}

// Named functions stand here in place of `From`, since each name says which of a packet's words it takes apart or puts together.
pub fn split_id(id: u16) -> PacketId
    ensures { result ≡ packet_id id }
{
    PacketId {
        version: id >> 13,
        kind: (id >> 12) & 1,
        header: (id >> 11) & 1,
        apid: id & 0x07FF,
    }
}

// The fields of the packet ID that a packet begins with; octets past its end count as 0, here and below.
pub fn id_of(packet: &[u8]) -> PacketId
    ensures { result ≡ packet_id (word16 packet.now 0) }
{
    split_id(octets::numbers::word16_at(packet, 0))
}

pub fn join_id(f: PacketId) -> u16
    ensures { result ≡ id_of f }
{
    ((f.version & 7) << 13) | ((f.kind & 1) << 12) | ((f.header & 1) << 11) | (f.apid & 0x07FF)
}

pub fn split_sequence(control: u16) -> Sequence
    ensures { result ≡ sequence control }
{
    Sequence {
        flags: control >> 14,
        count: control & 0x3FFF,
    }
}

// The fields of the sequence control behind it.
pub fn sequence_of(packet: &[u8]) -> Sequence
    ensures { result ≡ sequence (word16 packet.now 2) }
{
    split_sequence(octets::numbers::word16_at(packet, 2))
}

pub fn join_sequence(f: Sequence) -> u16
    ensures { result ≡ control_of f }
{
    ((f.flags & 3) << 14) | (f.count & 0x3FFF)
}

pub fn split_header(octet: u16) -> Header
    ensures { result ≡ header octet }
{
    Header {
        version: octet >> 5,
        checksum: (octet >> 4) & 1,
        ack: octet & 15,
    }
}

pub fn join_header(f: Header) -> u16
    ensures { result ≡ header_of f }
{
    ((f.version & 7) << 5) | ((f.checksum & 1) << 4) | (f.ack & 15)
}

// The APID of a process ID and a category.
pub fn join_apid(pid: u16, category: u16) -> u16
    ensures { result ≡ apid_of pid category }
{
    ((pid & 127) << 4) | (category & 15)
}
