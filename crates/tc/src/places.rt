// What stands where in a packet: its fields, its application data and its error control, of any octets at all.
ghost use Rattle.std.specs.Prelude.{◌≡◌, ◌-◌};
ghost use Rattle.octets.specs.Numbers.{octet};
ghost use Rattle.fields.specs.Fields.{header};
ghost use Rattle.tc.specs.Layout.{right_control, fields_of, data_span};

use crate::{Fields, HEAD, Method};
use fields::Header;
use octets::copy::Span;

// Where the application data stands: from octet 10 up to the error control.
pub fn data_span(p: &[u8]) -> Span
    ensures { result ≡ data_span p.now }
{
    Span {
        from: HEAD,
        to: control_at(p.len()),
    }
}

// Where the error control of a packet of that many octets stands: its last two.
pub fn control_at(octets: usize) -> usize
    ensures { result ≡ octets - 2 }
{
    octets.saturating_sub(2)
}

// The right error control of a packet: by the method that its checksum flag selects, over every octet but the last two.
#[tactic(auto, using(octets::proofs::Between::between_front), unfolding(crate::specs::Layout::error_control, crate::specs::Layout::fields_of))]
pub fn control(p: &[u8]) -> u16
    ensures { result ≡ right_control p.now }
{
    let head = header_of(p);
    crate::error_control(
        Method::from(head.checksum),
        octets::copy::part(p, 0, control_at(p.len())),
    )
}

// The fields of the first octet of the data field header; octets past the end count as 0, here and below.
pub fn header_of(p: &[u8]) -> Header
    ensures { result ≡ header (octet p.now 6) }
{
    fields::split_header(octets::numbers::octet_at(p, 6))
}

// The fields at their places.
#[tactic(auto, unfolding(crate::specs::Layout::fields_of))]
pub fn fields(p: &[u8]) -> Fields
    ensures { result ≡ fields_of p.now }
{
    let id = fields::id_of(p);
    let control = fields::sequence_of(p);
    let head = header_of(p);
    Fields {
        apid: id.apid,
        count: control.count,
        checksum: head.checksum as u8,
        ack: head.ack as u8,
        kind: octets::numbers::one(p, 7),
        subtype: octets::numbers::one(p, 8),
        pad: octets::numbers::one(p, 9),
    }
}
