// What is decided on a packet, and the checks of each service.
#![tactic(auto)]

ghost use Rattle.std.specs.Prelude.{◌≡◌};
ghost use Rattle.serving.specs.Services.{connection_decision, memory_decision, area_decision};

use checks::{Check, Refusal, refuse};
use map::{Area, Profile};
use octets::copy::Span;
use requests::Action;

// What service 6 is to do, and on which area.
#[derive(Clone, Copy)]
pub struct Job {
    pub action: Action,
    pub area: Area,
}

// What an accepted packet has the terminal do.
#[derive(Clone, Copy)]
pub enum Task {
    Idle,
    Memory(Job),
    Connection,
}

// What was found on the way to acceptance, and is handed on: the task, the ack, and the part of the packet that is its application data.
#[derive(Clone, Copy)]
pub struct Work {
    pub task: Task,
    pub ack: u8,
    pub data: Span,
}

// What is decided on a packet: the work of one that is accepted, or the refusal of the first check that fails.
pub type Decision = Result<Work, Refusal>;

// Service 17: check 5, there is no application data.
#[tactic(auto, unfolding(crate::specs::Services::connection_rows, checks::specs::Table::answer))]
pub fn judge_connection(ack: u8, data: Span, application: &[u8]) -> Decision
    ensures { result ≡ connection_decision ack «data» application.now }
{
    if application.len() != 0 {
        return refuse(Check::Form, 0);
    }
    Ok(Work {
        task: Task::Connection,
        ack,
        data,
    })
}

// Service 6: check 5 for the head and for the blocks, then 17, 18 and 19.
#[tactic(auto, unfolding(crate::specs::Services::memory_rows, checks::specs::Table::answer))]
pub fn judge_memory(
    profile: Profile,
    action: Action,
    ack: u8,
    data: Span,
    application: &[u8],
) -> Decision
    ensures { result ≡ memory_decision profile action ack «data» application.now }
{
    if !blocks::shape::head_right(application) {
        return refuse(Check::Form, 0);
    }
    let form = blocks::shape::form(
        requests::carried_by(action),
        requests::most_words(action),
        application,
    );
    if let Err(k) = form {
        return refuse(Check::Form, k);
    }
    let id = blocks::reading::memory_id(application);
    let Some(area) = map::place::find(profile, id) else {
        return refuse(Check::Memory, id as u16);
    };
    judge_area(area, action, ack, data, application)
}

// Checks 18 and 19 on the area that was found.
#[tactic(auto, using(laws::proofs::First::wrong_is, laws::proofs::First::wrong_none), unfolding(crate::specs::Services::area_rows, checks::specs::Table::answer))]
fn judge_area(area: Area, action: Action, ack: u8, data: Span, application: &[u8]) -> Decision
    ensures { result ≡ area_decision area action ack «data» application.now }
{
    if !requests::right_for(area.rights, action) {
        let id = blocks::reading::memory_id(application);
        return refuse(Check::Right, id as u16);
    }
    let outside = requests::first_outside(area, requests::carried_by(action), application);
    if let Some(k) = outside {
        return refuse(Check::Outside, k);
    }
    Ok(Work {
        task: Task::Memory(Job { action, area }),
        ack,
        data,
    })
}
