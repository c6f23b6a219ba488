// The head of a telecommand packet: whether its length and its header are what document 01 asks for.
#![tactic(auto)]

ghost use Rattle.std.specs.Prelude.{◌≡◌, min};
ghost use Rattle.laws.specs.First.{wrong_number};
ghost use Rattle.heading.specs.Heading.{length_right, first_fault, header_fault};

use fields::{Header, PacketId, Sequence};
use tc::AROUND;

// The most octets of a packet.
const PACKET_MOST: usize = 248;

// The received count as a detail: itself, or 65,535 if that is less.
pub fn capped(n: usize) -> u16
    ensures { result ≡ min n 65535 }
{
    u16::try_from(n).unwrap_or(u16::MAX)
}

// Whether the received count is one that check 1 passes.
#[tactic(auto, unfolding(crate::specs::Heading::length_right))]
pub fn length_right(p: &[u8]) -> bool
    ensures { result ≡ length_right p.now }
{
    let field = octets::numbers::word16_at(p, 4);
    AROUND <= p.len() && p.len() <= PACKET_MOST && p.len() == usize::from(field) + 7
}

// The first wrong of the five header fields that check 16 looks at, from 1.
#[tactic(auto, unfolding(crate::specs::Heading::header_fault))]
pub fn header_fault(p: &[u8]) -> Option<u16>
    ensures { result ≡ wrong_number (header_fault p.now) }
{
    let id = fields::id_of(p);
    let control = fields::sequence_of(p);
    let head = tc::places::header_of(p);
    first_fault(id, control, head)
}

// The first wrong of them, once they are taken apart.
#[tactic(auto, unfolding(crate::specs::Heading::first_fault, laws::specs::First::first_from))]
fn first_fault(id: PacketId, control: Sequence, head: Header) -> Option<u16>
    ensures { result ≡ wrong_number (first_fault id control head) }
{
    if id.version != 0 {
        Some(1)
    } else if id.kind != 1 {
        Some(2)
    } else if id.header != 1 {
        Some(3)
    } else if control.flags != 3 {
        Some(4)
    } else if head.version != 0 {
        Some(5)
    } else {
        None
    }
}
