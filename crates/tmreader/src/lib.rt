// The reader of telemetry frames: checks 60 to 63 on any octets at all, the stamp, and what the frame tells, with words and entries as parts of the frame itself.
#![tactic(auto)]

ghost use Rattle.std.specs.Prelude.{◌≡◌};
ghost use Rattle.contents.specs.Source.{contents_if};
ghost use Rattle.tmreader.specs.Reader.{flaw_number, number_of, size_right, bits_right, head_right, kind_in, kind_right, source_in, source_right, judged, time_in, stamp_in, Reads};

use contents::{Contents, Kind};
use fields::{PacketId, Sequence};
use octets::copy::Span;
use tm::{HEAD, Stamp, TIME_FIRST, UNCOUNTED};

// The checks of a frame, in checking order.
#[derive(Clone, Copy)]
pub enum Flaw {
    // Fewer than 16 octets, or not the length field plus 7.
    Size,
    // Header bits, or the octets that are zero.
    Header,
    // Type, subtype or its category.
    Kind,
    // Size, octet 1, N or lengths in the source data.
    Source,
}

// What a frame is answered: that it reads cleanly, or the first check that fails.
pub type Verdict = Result<(), Flaw>;

// What the reader returns: the verdict, the stamp, the part of the frame that is its source data, and what that tells; where the frame is refused all fields are 0, the part is empty and nothing is told.
#[derive(Clone, Copy)]
pub struct Reading {
    pub verdict: Verdict,
    pub stamp: Stamp,
    pub source: Span,
    pub contents: Option<Contents>,
}

// Where the two octets stand that are zero, and type and subtype between them.
const ZERO_AT: usize = 12;

const KIND_AT: usize = 13;

const SUBTYPE_AT: usize = 14;

const LAST_ZERO_AT: usize = 15;

// How many categories a process ID has.
const CATEGORIES: u16 = 16;

// The number of a check.
impl From<Flaw> for u8 {
    ghost from_gives = { λ flaw number. number ≡ flaw_number flaw };

    fn from(flaw: Flaw) -> u8 {
        match flaw {
            Flaw::Size => 60,
            Flaw::Header => 61,
            Flaw::Kind => 62,
            Flaw::Source => 63,
        }
    }
}

// The number of a refusal, and 0 where the frame reads cleanly.
pub fn number(v: Verdict) -> u8
    ensures { result ≡ number_of v }
{
    match v {
        Ok(()) => 0,
        Err(flaw) => flaw.into(),
    }
}

// Reads a frame.
#[tactic(auto, unfolding(crate::specs::Reader::reading_of))]
pub fn read(f: &[u8]) -> Reading
    ensures { Reads f.now result }
{
    match judge(f) {
        Ok(()) => Reading {
            verdict: Ok(()),
            stamp: stamp(f),
            source: Span {
                from: HEAD,
                to: f.len(),
            },
            contents: told(f),
        },
        Err(flaw) => Reading {
            verdict: Err(flaw),
            stamp: Stamp {
                pid: 0,
                count: 0,
                time: [0; 6],
                kind: 0,
                subtype: 0,
            },
            source: Span { from: 0, to: 0 },
            contents: None,
        },
    }
}

// The verdict of the checks.
#[tactic(auto, unfolding(crate::specs::Reader::judged, crate::specs::Reader::frame_rows, checks::specs::Table::answer))]
fn judge(f: &[u8]) -> Verdict
    ensures { result ≡ judged f.now }
{
    if !size_right(f) {
        return Err(Flaw::Size);
    }
    if !head_right(f) {
        return Err(Flaw::Header);
    }
    if !kind_right(f) {
        return Err(Flaw::Kind);
    }
    if !source_right(f) {
        return Err(Flaw::Source);
    }
    Ok(())
}

// 60: at least 16 octets, and the length field plus 7.
#[tactic(auto, unfolding(crate::specs::Reader::size_right))]
fn size_right(f: &[u8]) -> bool
    ensures { result ≡ size_right f.now }
{
    HEAD <= f.len() && f.len() == usize::from(octets::numbers::word16_at(f, 4)) + UNCOUNTED
}

// Version, type bit, header flag and sequence flags.
#[tactic(auto, unfolding(crate::specs::Reader::bits_right))]
fn bits_right(id: PacketId, control: Sequence) -> bool
    ensures { result ≡ bits_right id control }
{
    id.version == 0 && id.kind == 0 && id.header == 1 && control.flags == 3
}

// 61: the header bits, and the octets that are zero.
#[tactic(auto, unfolding(crate::specs::Reader::head_right))]
fn head_right(f: &[u8]) -> bool
    ensures { result ≡ head_right f.now }
{
    bits_right(fields::id_of(f), fields::sequence_of(f))
        && octets::numbers::octet_at(f, ZERO_AT) == 0
        && octets::numbers::octet_at(f, LAST_ZERO_AT) == 0
}

// The kind of report that type and subtype say, if they say one.
fn kind(f: &[u8]) -> Option<Kind>
    ensures { result ≡ kind_in f.now }
{
    contents::kind_of(
        octets::numbers::one(f, KIND_AT),
        octets::numbers::one(f, SUBTYPE_AT),
    )
}

// 62: one of the six kinds, and its category.
#[tactic(auto, unfolding(crate::specs::Reader::kind_right))]
fn kind_right(f: &[u8]) -> bool
    ensures { result ≡ kind_right f.now }
{
    kind(f).is_some()
        && fields::id_of(f).apid % CATEGORIES == counts::category(octets::numbers::one(f, KIND_AT))
}

// 63: source data of that kind.
fn source_right(f: &[u8]) -> bool
    ensures { result ≡ source_right f.now }
{
    contents::formed(kind(f), source(f))
}

// What the source data tells, by its kind.
fn told(f: &[u8]) -> Option<Contents>
    ensures { result ≡ contents_if (kind_in f.now) (source_in f.now) }
{
    contents::read(kind(f), source(f))
}

// The source data.
fn source(f: &[u8]) -> &[u8]
    ensures { result.now ≡ source_in f.now }
{
    octets::copy::behind(f, HEAD)
}

// The time.
fn time(f: &[u8]) -> [u8; 6]
    ensures { result ≡ time_in f.now }
{
    std::array::from_fn(|place| octets::numbers::one(f, TIME_FIRST + place))
}

// The stamp: whose frame it is, its count, its time, its type and subtype.
#[tactic(auto, unfolding(crate::specs::Reader::stamp_in))]
fn stamp(f: &[u8]) -> Stamp
    ensures { result ≡ stamp_in f.now }
{
    let id = fields::id_of(f);
    let control = fields::sequence_of(f);
    Stamp {
        pid: (id.apid / CATEGORIES) as u8,
        count: control.count,
        time: time(f),
        kind: octets::numbers::one(f, KIND_AT),
        subtype: octets::numbers::one(f, SUBTYPE_AT),
    }
}
