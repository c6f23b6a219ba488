// Whether a packet asks this terminal for something that it serves, and then the checks of the service asked.
#![tactic(auto)]

ghost use Rattle.std.specs.Prelude.{◌≡◌, ◌+◌, ◌*◌};
ghost use Rattle.octets.specs.Copy.{placed};
ghost use Rattle.addressing.specs.Requested.{request_decision, service_decision};

use checks::Check;
use map::Profile;
use octets::copy::Span;
use requests::Request;
use serving::{Decision, Task, Work};
use tc::Fields;

// Checks 0, 3 and 4, and then those of the service asked.
#[tactic(auto, unfolding(crate::specs::Requested::request_rows, checks::specs::Table::answer))]
pub fn judge_request(profile: Profile, fields: Fields, data: Span, packet: &[u8]) -> Decision
    ensures { result ≡ request_decision profile fields «data» (placed «data» packet.now) }
{
    let addressed = fields::join_apid(profile.pid as u16, tc::CATEGORY);
    if fields.apid != addressed {
        return checks::refuse(Check::Apid, fields.apid);
    }
    if !requests::is_served(profile.flags, fields.kind) {
        return checks::refuse(Check::Service, fields.kind as u16);
    }
    let asked = requests::asked_for(fields.kind, fields.subtype);
    if !requests::is_offered(profile.flags, asked) {
        return checks::refuse(Check::Subtype, pair(fields.kind, fields.subtype));
    }
    judge_service(profile, asked, fields.ack, data, packet)
}

// The checks of the service asked.
#[tactic(auto, unfolding(checks::specs::Table::answer))]
fn judge_service(
    profile: Profile,
    asked: Option<Request>,
    ack: u8,
    data: Span,
    packet: &[u8],
) -> Decision
    ensures { result ≡ service_decision profile asked ack «data» (placed «data» packet.now) }
{
    let application = octets::copy::placed(packet, data);
    match asked {
        Some(Request::Memory(action)) => serving::judge_memory(
            profile,
            action,
            ack,
            data,
            application,
        ),
        Some(Request::Connection) => serving::judge_connection(ack, data, application),
        None => Ok(Work {
            task: Task::Idle,
            ack,
            data,
        }),
    }
}

// A type and a subtype as one number.
fn pair(kind: u8, subtype: u8) -> u16
    ensures { result ≡ kind * 256 + subtype }
{
    (kind as u16) * octets::numbers::VALUES + (subtype as u16)
}
