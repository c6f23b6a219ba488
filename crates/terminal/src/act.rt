// Acts on a decision: lays the reports due into the output buffer, one after another, and writes a load's words into the store.
ghost use Rattle.std.specs.Prelude.{◌≡◌, ◌≤◌, length};
ghost use Rattle.octets.specs.Copy.{placed};
ghost use Rattle.requests.specs.declared.Action.TheVariants.{Dump};
ghost use Rattle.serving.specs.Services.{Formed, FormedFor};
ghost use Rattle.terminal.specs.Done.{memory_done, done};
ghost use Rattle.terminal.specs.Act.{echo_size, service_most, Did, Serves, CarriesOut};

use laying::{Progress, Sender};
use map::Area;
use requests::Action;
use serving::{Job, Task, Work};

// (6,6) for each block, in order.
// The first three functions here each require a place and a form: no one value has both, so a type that kept them would be made only to be taken apart.
fn dump(
    area: Area,
    sender: Sender,
    p: Progress,
    application: &[u8],
    store: &[u8],
    out: &mut [u8],
) -> Progress
    requires { (p.at ≤ echo_size) × Formed Dump application.now }
    ensures { Did service_most sender p result out.old out.new (memory_done area Dump application.now store.now).reports }
{
    let carried = requests::carried_by(Action::Dump);
    let memory = blocks::reading::memory_id(application);
    let mut q = p;
    for block in blocks::reading::blocks(carried, application) {
        q = laying::report_block(area, memory, sender, q, block, store, out);
    }
    q
}

// Does what service 6 is asked for on an area.
fn serve_memory(
    sender: Sender,
    job: Job,
    p: Progress,
    application: &[u8],
    store: &mut [u8],
    out: &mut [u8],
) -> Progress
    requires { (p.at ≤ echo_size) × Formed job.action application.now }
    ensures { Serves sender p result out.old out.new (memory_done job.area job.action application.now store.old) store.new }
{
    match job.action {
        Action::Load => {
            memory::load(job.area, application, store);
            p
        }
        Action::Dump => dump(job.area, sender, p, application, store, out),
        Action::Check => laying::report_check(job.area, sender, p, application, store, out),
    }
}

// Does what a task says, and lays the service's reports.
fn serve(
    sender: Sender,
    task: Task,
    p: Progress,
    application: &[u8],
    store: &mut [u8],
    out: &mut [u8],
) -> Progress
    requires { (p.at ≤ echo_size) × FormedFor task application.now }
    ensures { Serves sender p result out.old out.new (done task application.now store.old) store.new }
{
    match task {
        Task::Idle => p,
        Task::Memory(job) => serve_memory(sender, job, p, application, store, out),
        Task::Connection => laying::report_connection(sender, p, out),
    }
}

// Answers an accepted packet: (1,1) if asked, its work, (1,7) if asked.
pub(crate) fn carry_out(
    sender: Sender,
    work: Work,
    p: Progress,
    packet: &[u8],
    store: &mut [u8],
    out: &mut [u8],
) -> Progress
    requires { (p.at ≡ 0) × ((4 ≤ length packet.now) × FormedFor work.task (placed work.«data» packet.now)) }
    ensures { CarriesOut sender work p result packet.now out.old out.new store.old store.new }
{
    let ack = work.ack;
    let application = octets::copy::placed(packet, work.data);
    let first = laying::report_echo(ack % 2 == 1, sender, p, 1, packet, out);
    let next = serve(sender, work.task, first, application, store, out);
    laying::report_echo(ack / 8 % 2 == 1, sender, next, 7, packet, out)
}
