// Works out the CRC of 64 KiB a thousand times, each time over octets that the one before has changed, and prints the last: what `pearlwinch bench` times.
#![tactic(auto)]

use std::io;

// How many octets there are.
const LENGTH: usize = 65536;

fn main(rt: HostRuntime) -> io::Result<()> {
    let mut octets = [0u8; LENGTH];
    for _ in 0usize..1000 {
        turn(&mut octets);
    }
    let last = crc::crc(crc::ALL_ONES, &octets);
    println!(rt; "{last:04x}")
}

// The CRC of the octets takes the place of the first two.
fn turn(octets: &mut [u8; LENGTH]) {
    let value = crc::crc(crc::ALL_ONES, octets);
    octets[..2].copy_from_slice(&value.to_be_bytes());
}
