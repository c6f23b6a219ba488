// What a frame says, in octets: the verdict, the fields and the source data.
#![tactic(auto)]

ghost use Rattle.std.specs.Prelude.{◌≡◌};
ghost use Rattle.saying.specs.Text.{SaysBy};
ghost use Rattle.fieldtext.specs.Fields.{code_of, apid_in, fields_text, read_text};

use tmreader::{Reading, Verdict};

// 0000, or 01 and the number.
fn code_of(v: Verdict) -> [u8; 2]
    ensures { result ≡ code_of v }
{
    [u8::from(v.is_err()), tmreader::number(v)]
}

// The APID, and 0 of a refused frame.
fn apid_in(r: Reading) -> u16
    ensures { result ≡ apid_in r }
{
    if r.verdict.is_err() {
        return 0;
    }
    fields::join_apid(u16::from(r.stamp.pid), counts::category(r.stamp.kind))
}

// Adds APID, count, time, type and subtype.
fn put_fields(r: Reading, text: &mut [u8], at: usize) -> usize
    ensures { SaysBy (fields_text r) at text result }
{
    let stamp = r.stamp;
    let first = saying::number(text, at, apid_in(r));
    let second = saying::number(text, first, stamp.count);
    let third = saying::group(text, second, &stamp.time);
    let fourth = saying::group(text, third, &[stamp.kind]);
    saying::group(text, fourth, &[stamp.subtype])
}

// Adds the verdict on a frame, its fields and its source data, in octets.
pub fn put_read(frame: &[u8], text: &mut [u8], at: usize) -> usize
    ensures { SaysBy (read_text frame.now) at text result }
{
    let reading = tmreader::read(frame);
    let first = saying::octets(text, at, &code_of(reading.verdict));
    let second = put_fields(reading, text, first);
    saying::last(text, second, octets::copy::placed(frame, reading.source))
}
