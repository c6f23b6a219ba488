// Lays one report into the output buffer, stamped for its sender, and counts it.
#![tactic(auto)]

ghost use Rattle.std.specs.Prelude.{◌≡◌, ◌+◌, ◌%◌, [], ◌∷◌};
ghost use Rattle.octets.specs.Copy.{laid};
ghost use Rattle.counts.specs.Counts.{counted};
ghost use Rattle.reports.specs.Source.{echoed};
ghost use Rattle.laying.specs.Reports.{echo, failed, connected, dumped, checked, asked};
ghost use Rattle.laying.specs.Lays.{stamp_for, check_first, Lays};

use blocks::Block;
use checks::Verdict;
use counts::Counts;
use map::Area;
use tm::Stamp;

// How many places a number of 16 bits tells apart.
const PLACES: usize = 65536;

// Whose reports they are, and their time.
#[derive(Clone, Copy)]
pub struct Sender {
    pub pid: u8,
    pub time: [u8; 6],
}

// How far an answer has come: the place of the next report in the output buffer, and the counts.
// It goes from report to report by value, apart from its sender and from the buffer that is lent: one value of the three would be taken apart at each call.
#[derive(Clone, Copy)]
pub struct Progress {
    pub at: u16,
    pub counts: Counts,
}

// (1,1) or (1,7), if it is asked for; octets past the packet's end count as 0.
pub fn report_echo(
    asks: bool,
    sender: Sender,
    p: Progress,
    subtype: u8,
    packet: &[u8],
    out: &mut [u8],
) -> Progress
    ensures { Lays sender p result out.old out.new (asked asks (echo subtype (echoed packet.now))) }
{
    if !asks {
        return p;
    }
    let s = stamp(sender, p.counts, 1, subtype);
    let octets = reports::put_echo(out, p.at, s, reports::echo_of(packet));
    advance(p, octets, 1)
}

// (1,2); octets past the packet's end count as 0.
pub fn report_refusal(
    v: Verdict,
    sender: Sender,
    p: Progress,
    packet: &[u8],
    out: &mut [u8],
) -> Progress
    ensures { Lays sender p result out.old out.new (failed v (echoed packet.now) ∷ []) }
{
    let s = stamp(sender, p.counts, 1, 2);
    let size = reports::put_failure(
        out,
        p.at,
        s,
        reports::echo_of(packet),
        checks::number(v),
        checks::detail(v),
    );
    advance(p, size, 1)
}

// (17,2).
pub fn report_connection(sender: Sender, p: Progress, out: &mut [u8]) -> Progress
    ensures { Lays sender p result out.old out.new (connected ∷ []) }
{
    let s = stamp(sender, p.counts, 17, 2);
    let octets = tm::put_frame(out, p.at, s, &[]);
    advance(p, octets, 17)
}

// (6,6) for one block.
pub fn report_block(
    area: Area,
    memory: u8,
    sender: Sender,
    p: Progress,
    block: Block,
    store: &[u8],
    out: &mut [u8],
) -> Progress
    ensures { Lays sender p result out.old out.new (dumped area memory store.now block ∷ []) }
{
    let s = stamp(sender, p.counts, 6, 6);
    let part = map::place::stored(area, store, block.start, block.words as u32);
    let octets = reports::put_dump(out, p.at, s, memory, block.start, block.words, part);
    advance(p, octets, 6)
}

// (6,10), one for all blocks of a check.
pub fn report_check(
    area: Area,
    sender: Sender,
    p: Progress,
    application: &[u8],
    store: &[u8],
    out: &mut [u8],
) -> Progress
    ensures { Lays sender p result out.old out.new (checked area application.now store.now ∷ []) }
{
    let s = stamp(sender, p.counts, 6, 10);
    let id = blocks::reading::memory_id(application);
    let count = blocks::reading::block_count(application);
    lay_check_head(s, id, count, p.at, out);
    let octets = memory::entries(area, application, store, (p.at as u32) + 18, out);
    advance(p, octets + 18, 6)
}

// Lays what stands before the entries of (6,10).
fn lay_check_head(stamp: Stamp, memory: u8, count: u8, at: u16, out: &mut [u8])
    ensures { out.new ≡ laid out.old at (check_first stamp memory count) }
{
    let head = tm::head(stamp, (count as usize) * 8 + 2);
    let place = at as usize;
    octets::copy::put(out, place, &head);
    octets::copy::put(out, place + 16, &[memory, count]);
}

// What the next report of a type and subtype is stamped with.
fn stamp(sender: Sender, counts: Counts, kind: u8, subtype: u8) -> Stamp
    ensures { result ≡ stamp_for sender counts kind subtype }
{
    let time = sender.time;
    Stamp {
        pid: sender.pid,
        count: counts::count_for(counts, kind),
        time,
        kind,
        subtype,
    }
}

// The progress after a report of a type that was so many octets long; a place is a number of 16 bits.
fn advance(p: Progress, octets: usize, kind: u8) -> Progress
    ensures { (result.at ≡ (p.at + octets) % 65536) × (result.counts ≡ counted p.counts kind) }
{
    Progress {
        at: p.at.wrapping_add((octets % PLACES) as u16),
        counts: counts::counted(p.counts, kind),
    }
}
