// The text of what the terminal, the reader and the writer answer.
ghost use Rattle.saying.specs.Text.{SaysBy};
ghost use Rattle.printing.specs.Answer.{code_text, verdict_text, counts_text, header_text, fields_text, written_text};

use checks::Verdict;
use counts::Counts;
use tc::Fields;
use writer::Written;

// One more than a number of 16 bits can say.
const FIELD: usize = 65536;

// 0000 for acceptance, else 01 and the low octet of the refusal's number.
#[tactic(auto, unfolding(crate::specs::Answer::code_text))]
fn put_code(text: &mut [u8], at: usize, refused: Option<u16>) -> usize
    ensures { SaysBy (code_text refused) at text result }
{
    let code = match refused {
        None => [0, 0],
        Some(number) => [1, (number % 256) as u8],
    };
    saying::octets(text, at, &code)
}

// A verdict and its detail.
pub fn put_verdict(text: &mut [u8], at: usize, v: Verdict) -> usize
    ensures { SaysBy (verdict_text v) at text result }
{
    let refused = v.err().map(|refusal| refusal.check.into());
    let first = put_code(text, at, refused);
    saying::number(text, first, checks::detail(v))
}

// How many octets were written, and both counts; the line ends.
pub fn put_counts(text: &mut [u8], at: usize, written: usize, counts: Counts) -> usize
    ensures { SaysBy (counts_text written counts) at text result }
{
    let count = saying::number(text, at, (written % FIELD) as u16);
    let reports = saying::number(text, count, counts.reports);
    let services = saying::number(text, reports, counts.services);
    saying::end(text, services)
}

// The fields of the data field header.
fn put_header(text: &mut [u8], at: usize, f: Fields) -> usize
    ensures { SaysBy (header_text f) at text result }
{
    let checksum = saying::group(text, at, &[f.checksum]);
    let ack = saying::group(text, checksum, &[f.ack]);
    let kind = saying::group(text, ack, &[f.kind]);
    let subtype = saying::group(text, kind, &[f.subtype]);
    saying::group(text, subtype, &[f.pad])
}

// The fields that the reader hands back.
pub fn put_fields(text: &mut [u8], at: usize, f: Fields) -> usize
    ensures { SaysBy (fields_text f) at text result }
{
    let apid = saying::number(text, at, f.apid);
    let count = saying::number(text, apid, f.count);
    put_header(text, count, f)
}

// The writer's answer and the packet's length, 0 where it refused.
pub fn put_written(text: &mut [u8], at: usize, written: Written) -> usize
    ensures { SaysBy (written_text written) at text result }
{
    let first = put_code(text, at, written.err().map(u16::from));
    saying::number(text, first, (written.unwrap_or(0) % FIELD) as u16)
}
