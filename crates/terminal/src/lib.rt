// The terminal of document 01: one telecommand packet in; verdict, frames, counts and store out.
#![tactic(auto)]

ghost use Rattle.std.specs.Prelude.{◌≡◌};
ghost use Rattle.terminal.specs.Outcome.{input, Answered};

use checks::Verdict;
use decide::State;
use laying::{Progress, Sender};
use map::Profile;

mod act; // act.rt: what an accepted packet does, and its reports

// What a packet is answered: the verdict, the octets written at the front of the output buffer, and the state afterwards.
#[derive(Clone, Copy)]
pub struct Outcome {
    pub verdict: Verdict,
    pub written: usize,
    pub state: State,
}

// Answers one packet, whatever it is: decides first, and acts after. The frames due fill the front of the output buffer.
pub fn answer(
    profile: Profile,
    state: State,
    time: [u8; 6],
    packet: &[u8],
    store: &mut [u8],
    out: &mut [u8],
) -> Outcome
    ensures { Answered (input profile state time packet.now store.old out.old) result store.new out.new }
{
    let sender = Sender {
        pid: profile.pid,
        time,
    };
    let start = Progress {
        at: 0,
        counts: state.counts,
    };
    match decide::decide(profile, state, store.len(), out.len(), packet) {
        Ok(work) => {
            let end = act::carry_out(sender, work, start, packet, store, out);
            outcome_of(Ok(()), end)
        }
        Err(refusal) => {
            let verdict = Err(refusal);
            if checks::is_silent(verdict) {
                return Outcome {
                    verdict,
                    written: 0,
                    state,
                };
            }
            let end = laying::report_refusal(verdict, sender, start, packet, out);
            outcome_of(verdict, end)
        }
    }
}

// The outcome of a verdict whose reports were laid from the front of the output buffer on.
fn outcome_of(verdict: Verdict, p: Progress) -> Outcome
    ensures { result ≡ record { verdict = verdict; written = p.at; state = record { counts = p.counts } } }
{
    Outcome {
        verdict,
        written: p.at as usize,
        state: State { counts: p.counts },
    }
}
