// Prints published vectors, one a line: the CRC of document 01's P1 and of the four messages of source document 004's appendix A4.4, and behind them the ISO checksum of the four of ECSS-E-70-41A's annex.
#![tactic(auto)]

use std::io;

// P1's three messages, the last of which is the first of A4.4's four, and A4.4's other three; the annex has the same four.
const MESSAGES: [&[u8]; 6] = [
    b"",
    b"\x00",
    b"\x00\x00",
    b"\x00\x00\x00",
    b"\xAB\xCD\xEF\x01",
    b"\x14\x56\xF8\x9A\x00\x01",
];

// Where A4.4's messages begin.
const FIRST_OF_FOUR: usize = 2;

fn main(rt: HostRuntime) -> io::Result<()> {
    for octets in MESSAGES {
        show(&rt, crc::crc(crc::ALL_ONES, octets))?;
    }
    for octets in &MESSAGES[FIRST_OF_FOUR..] {
        show(&rt, iso::checksum(octets))?;
    }
    Ok(())
}

fn show(rt: &impl Print, value: u16) -> io::Result<()> {
    println!(rt; "{value:04x}")
}
