// The CRC of document 01 over any octets, from any start.
#![tactic(auto)]

mod tables;

ghost use Rattle.std.specs.Prelude.{◌≡◌};
ghost use Rattle.crc.specs.Register.{bits_of, take_bits, crc_from};

use tables::{Lookup, TURN};

// What the CRC of a packet or of a block starts from.
pub const ALL_ONES: u16 = 0xFFFF;

// The CRC that goes on from a value over the octets given, in their order.
pub fn crc(start: u16, octets: &[u8]) -> u16
    ensures { result ≡ crc_from start octets.now }
{
    Lookup::new().in_turns(start, octets)
}

impl Lookup {
    // The CRC by the tables: one turn after another, and then the octets left over.
    #[tactic(auto, using(crate::proofs::Laws::crc_from_chunk, crate::proofs::Laws::crc_from_parted), unfolding(crate::specs::Register::crc_from))]
    fn in_turns(&self, start: u16, octets: &[u8]) -> u16
        ensures { result ≡ crc_from start octets.now }
    {
        let mut register = start;
        let (turns, rest) = octets.as_chunks::<TURN>();
        for turn in turns {
            register = self.take_turn(register, turn);
        }
        self.one_by_one(register, rest)
    }

    // The CRC by the first table: one octet after another.
    #[tactic(auto, using(crate::proofs::Laws::crc_from_octet), unfolding(crate::specs::Register::crc_from))]
    fn one_by_one(&self, start: u16, octets: &[u8]) -> u16
        ensures { result ≡ crc_from start octets.now }
    {
        let mut register = start;
        for octet in octets {
            register = self.take_octet(register, *octet);
        }
        register // what the next part goes on from
    }

    // The register after the octets of a turn: what each of them leaves, once the register has been added to the first two.
    #[tactic(auto, using(crate::proofs::Leaves::crc_from_four))]
    fn take_turn(&self, register: u16, octets: &[u8; TURN]) -> u16
        ensures { result ≡ crc_from register octets.now }
    {
        let [high, low] = register.to_be_bytes();
        let first = self.entry(3, high ^ octets[0]);
        let second = self.entry(2, low ^ octets[1]);
        let third = self.entry(1, octets[2]);
        let fourth = self.entry(0, octets[3]);
        first ^ (second ^ (third ^ fourth))
    }

    // The register after one octet: what its high octet and the one that comes leave together, and its low octet moved up.
    #[tactic(auto, using(crate::proofs::Leaves::take_bits_leaves))]
    fn take_octet(&self, register: u16, octet: u8) -> u16
        ensures { result ≡ take_bits register (bits_of octet) }
    {
        let [high, _] = register.to_be_bytes();
        self.entry(0, high ^ octet) ^ (register << 8)
    }
}
