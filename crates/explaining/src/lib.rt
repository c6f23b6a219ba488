// Why a packet is refused: the first check that fails, and where in the packet it looks.
#![tactic(auto)]

ghost use Rattle.std.specs.Prelude.{◌≡◌, ◌-◌};
ghost use Rattle.explaining.specs.Explanation.{reason_for, explanation_of};

use checks::Refusal;
use map::Profile;
use octets::copy::Span;

// The number of the check that fails and its detail, and the first and the last offset of its octets; the last stands before the first where there are none.
#[derive(Clone, Copy)]
pub struct Reason {
    pub number: u16,
    pub detail: u16,
    pub first: usize,
    pub last: usize,
}

// What is said of a packet: it is accepted, or why it is refused.
pub type Explanation = Result<(), Reason>;

// What is said of a packet under a profile.
#[tactic(auto, using(crate::proofs::Explained::explained_accepted, crate::proofs::Explained::explained_refused))]
pub fn explain(profile: Profile, packet: &[u8]) -> Explanation
    ensures { result ≡ explanation_of profile packet.now }
{
    match decide::decide_packet(profile, packet) {
        Ok(_) => Ok(()),
        Err(refusal) => Err(because(packet, refusal)),
    }
}

// Why it is refused.
fn because(packet: &[u8], refusal: Refusal) -> Reason
    ensures { result ≡ reason_for packet.now refusal }
{
    let octets = decide::looks::octets_of(packet, refusal);
    Reason {
        number: refusal.check.into(),
        detail: refusal.detail,
        first: octets.from,
        last: last(octets),
    }
}

// The last offset of some octets.
fn last(octets: Span) -> usize
    ensures { result ≡ octets.to - 1 }
{
    octets.to.saturating_sub(1)
}
