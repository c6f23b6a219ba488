// The octets of a packet that each check of the table looks at.
ghost use Rattle.std.specs.Prelude.{◌≡◌, ◌-◌};
ghost use Rattle.decide.specs.Octets.{octets_at, header_place, carried_for, block_numbered, block_octets, octets_of};

use blocks::Block;
use checks::{Check, Refusal};
use octets::copy::Span;
use requests::Request;

// Where the length field stands, where the type with the subtype behind it, and where the application data.
const LENGTH: u8 = 4;

const TYPE: u8 = 7;

const DATA: u8 = tc::HEAD as u8;

// The octets that the check looks at which refused a packet.
#[tactic(auto, unfolding(crate::specs::Octets::octets_of))]
pub fn octets_of(packet: &[u8], refusal: Refusal) -> Span
    ensures { result ≡ octets_of packet.now refusal }
{
    let check = refusal.check;
    match check {
        Check::Buffer => octets_at(0, 0),
        Check::Caller => octets_at(0, 0),
        Check::Short => octets_at(0, 1),
        Check::Length => octets_at(LENGTH, 2),
        Check::Control => Span {
            from: tc::places::control_at(packet.len()),
            to: packet.len(),
        },
        Check::Header => octets_at(header_place(refusal.detail), 1),
        Check::Apid => octets_at(0, 2),
        Check::Service => octets_at(TYPE, 1),
        Check::Subtype => octets_at(TYPE, 2),
        Check::Form => tc::places::data_span(packet),
        Check::Memory => octets_at(DATA, 1),
        Check::Right => octets_at(DATA, 1),
        Check::Outside => block_octets(packet, refusal.detail),
    }
}

// So many octets from a place on.
fn octets_at(place: u8, count: u8) -> Span
    ensures { result ≡ octets_at place count }
{
    let from = usize::from(place);
    Span {
        from,
        to: from + usize::from(count),
    }
}

// Check 16: the octet of the field that its detail names.
fn header_place(detail: u16) -> u8
    ensures { result ≡ header_place detail }
{
    if detail <= 3 {
        return 0;
    }
    if detail == 4 { 2 } else { 6 }
}

// Check 19: start and length of the block that its detail numbers.
fn block_octets(packet: &[u8], detail: u16) -> Span
    ensures { result ≡ block_octets packet.now detail }
{
    let block = block_numbered(packet, detail);
    let from = tc::HEAD + block.at;
    Span {
        from,
        to: from + blocks::HEADER,
    }
}

// The block of a packet with that number, from 1.
fn block_numbered(packet: &[u8], number: u16) -> Block
    ensures { result ≡ block_numbered packet.now number }
{
    let head = tc::places::fields(packet);
    let asked = requests::asked_for(head.kind, head.subtype);
    let application = octets::copy::placed(packet, tc::places::data_span(packet));
    blocks::reading::block_behind(carried_for(asked), application, before(number))
}

// How many octets of the application data a word of a block is, by what a packet asks for.
fn carried_for(asked: Option<Request>) -> u8
    ensures { result ≡ carried_for asked }
{
    match asked {
        Some(Request::Memory(action)) => requests::carried_by(action),
        Some(Request::Connection) => 0,
        None => 0,
    }
}

// How many stand before the one with a number from 1.
fn before(number: u16) -> u16
    ensures { result ≡ number - 1 }
{
    number.saturating_sub(1)
}
