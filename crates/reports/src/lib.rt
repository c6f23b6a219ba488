// The reports of document 01: the source data of each, and the frames that carry it.
#![tactic(auto)]

ghost use Rattle.std.specs.Prelude.{◌++◌, ◌≡◌};
ghost use Rattle.tm.specs.Frame.{frame_of, LaysFrame};
ghost use Rattle.reports.specs.Source.{echoed, failure, dump_head, check_entry};

use tm::{HEAD, Stamp};

// Lays a dump report, (6,6), of a block's stored octets.
#[tactic(auto, using(tm::proofs::Frame::laid_frame_split, tm::proofs::Frame::frame_length))]
pub fn put_dump(
    out: &mut [u8],
    at: u16,
    stamp: Stamp,
    memory: u8,
    start: u32,
    words: u16,
    stored: &[u8],
) -> usize
    ensures { LaysFrame (frame_of stamp (dump_head memory start words ++ stored.now)) at out.old result out.new }
{
    let first = tm::head(stamp, stored.len() + 8);
    let block = dump_head(memory, start, words);
    let place = usize::from(at);
    octets::copy::put(out, place, &first);
    octets::copy::put(out, place + HEAD, &block);
    octets::copy::put(out, place + HEAD + 8, stored) + HEAD + 8
}

// What stands before the words of a dump report.
fn dump_head(memory: u8, start: u32, words: u16) -> [u8; 8]
    ensures { result ≡ dump_head memory start words }
{
    let s = octets::numbers::octets_of32(start);
    let w = octets::numbers::octets_of16(words);
    [memory, 1, s[0], s[1], s[2], s[3], w[0], w[1]]
}

// Lays a report that repeats a TC's first four octets and no more: (1,1) and (1,7).
pub fn put_echo(out: &mut [u8], at: u16, stamp: Stamp, echo: [u8; 4]) -> usize
    ensures { LaysFrame (frame_of stamp echo) at out.old result out.new }
{
    tm::put_frame(out, at, stamp, &echo)
}

// Lays a refusal, (1,2).
pub fn put_failure(
    out: &mut [u8],
    at: u16,
    stamp: Stamp,
    echo: [u8; 4],
    code: u16,
    detail: u16,
) -> usize
    ensures { LaysFrame (frame_of stamp (echo ++ failure code detail)) at out.old result out.new }
{
    let source = refusal(echo, code, detail);
    tm::put_frame(out, at, stamp, &source)
}

// The source data of a refusal.
fn refusal(echo: [u8; 4], code: u16, detail: u16) -> [u8; 8]
    ensures { result ≡ echo ++ failure code detail }
{
    let c = octets::numbers::octets_of16(code);
    let d = octets::numbers::octets_of16(detail);
    [echo[0], echo[1], echo[2], echo[3], c[0], c[1], d[0], d[1]]
}

// What a check report, (6,10), says of a block.
pub fn check_entry(start: u32, words: u16, crc: u16) -> [u8; 8]
    ensures { result ≡ check_entry start words crc }
{
    let s = octets::numbers::octets_of32(start);
    let w = octets::numbers::octets_of16(words);
    let c = octets::numbers::octets_of16(crc);
    [s[0], s[1], s[2], s[3], w[0], w[1], c[0], c[1]]
}

// A packet's first four octets; past its end they count as 0.
pub fn echo_of(packet: &[u8]) -> [u8; 4]
    ensures { result ≡ echoed packet.now }
{
    std::array::from_fn(|place| octets::numbers::one(packet, place))
}
