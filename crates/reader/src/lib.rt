// The reader: checks 42, 1, 2 and 16 on any octets at all, the fields, and the application data as a part of the packet itself.
#![tactic(auto)]

ghost use Rattle.std.specs.Prelude.{◌≡◌};
ghost use Rattle.reader.specs.Reader.{judged, Reads};

use checks::{Check, Verdict};
use octets::copy::Span;
use tc::Fields;

// The fewest octets that can be answered with a report.
const LEAST: usize = 6;

// What the reader returns: the verdict, the fields, and the part of the packet that is its application data; where the packet is refused all fields are 0 and the part is empty.
#[derive(Clone, Copy)]
pub struct Reading {
    pub verdict: Verdict,
    pub fields: Fields,
    pub data: Span,
}

// Reads a packet.
#[tactic(auto, unfolding(crate::specs::Reader::reading_of))]
pub fn read(p: &[u8]) -> Reading
    ensures { Reads p.now result }
{
    match judge(p) {
        Ok(()) => Reading {
            verdict: Ok(()),
            fields: tc::places::fields(p),
            data: tc::places::data_span(p),
        },
        Err(refusal) => Reading {
            verdict: Err(refusal),
            fields: Fields {
                apid: 0,
                count: 0,
                checksum: 0,
                ack: 0,
                kind: 0,
                subtype: 0,
                pad: 0,
            },
            data: Span { from: 0, to: 0 },
        },
    }
}

// The verdict of the reader's checks.
#[tactic(auto, using(laws::proofs::First::wrong_is, laws::proofs::First::wrong_none), unfolding(crate::specs::Reader::judged, crate::specs::Reader::reader_rows, crate::specs::Reader::control_right, checks::specs::Table::answer))]
fn judge(p: &[u8]) -> Verdict
    ensures { result ≡ judged p.now }
{
    if p.len() < LEAST {
        return checks::refuse(Check::Short, 0);
    }
    if !heading::length_right(p) {
        return checks::refuse(Check::Length, heading::capped(p.len()));
    }
    let right = tc::places::control(p);
    let received = octets::numbers::word16_at(p, tc::places::control_at(p.len()));
    if received != right {
        return checks::refuse(Check::Control, right);
    }
    if let Some(fault) = heading::header_fault(p) {
        return checks::refuse(Check::Header, fault);
    }
    Ok(())
}
