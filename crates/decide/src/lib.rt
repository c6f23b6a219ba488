// Decides on a packet: the common checks, and then those of what it asks for.
#![tactic(auto)]

ghost use Rattle.std.specs.Prelude.{◌≡◌};
ghost use Rattle.decide.specs.Table.{caller_right, packet_decision, decision_of};

use checks::Check;
use counts::Counts;
use map::Profile;
use serving::Decision;

pub mod looks;

// What goes from packet to packet besides the store.
#[derive(Clone, Copy)]
pub struct State {
    pub counts: Counts,
}

// The fewest octets of an output buffer.
const OUT_LEAST: usize = 4096;

// The decision on a packet: 40, 41, and then the checks on the packet itself.
#[tactic(auto, using(crate::proofs::Checked::at_buffer, crate::proofs::Checked::at_caller, crate::proofs::Checked::at_packet))]
pub fn decide(profile: Profile, state: State, store: usize, out: usize, packet: &[u8]) -> Decision
    ensures { result ≡ decision_of profile state store out packet.now }
{
    if out < OUT_LEAST {
        return checks::refuse(Check::Buffer, 0);
    }
    if !caller_right(profile, state, store) {
        return checks::refuse(Check::Caller, 0);
    }
    decide_packet(profile, packet)
}

// The decision by the checks on the packet itself: the reader's, and then those of what the packet asks for.
#[tactic(auto, using(crate::proofs::Checked::at_reader, crate::proofs::Checked::at_request))]
pub fn decide_packet(profile: Profile, packet: &[u8]) -> Decision
    ensures { result ≡ packet_decision profile packet.now }
{
    let reading = reader::read(packet);
    reading.verdict?;
    addressing::judge_request(profile, reading.fields, reading.data, packet)
}

// Check 41: what the caller hands in besides the output buffer.
#[tactic(auto, unfolding(crate::specs::Table::caller_right))]
fn caller_right(profile: Profile, state: State, store: usize) -> bool
    ensures { result ≡ caller_right profile state store }
{
    sound::is_sound(profile, store) && sound::store_allowed(store) && counts::in_range(state.counts)
}
