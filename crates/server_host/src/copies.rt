//! Requests, lines, answers and steps once more, with their blocks and letters shared.

ghost use Rattle.std.specs.Prelude.{◌≡◌, IfOk};
ghost use Rattle.spec_rules.specs.declared.step.Step.TheVariants.{Boot};
ghost use Rattle.server_host.specs.Desks.{boot_end, ended, job_ended};

use crate::StepEnd;
use petal_base::NoMemory;
use script_lines::{Answer, Line, Request};
use spec_rules::{Step, WorkEnd};

/// The same request again. It takes no memory.
pub fn request_again(request: &Request) -> Request
    ensures { result ≡ request.now }
{
    match request {
        Request::Disk { name, tuple } => Request::Disk {
            name: name.copy(),
            tuple: tuple.copy(),
        },
        Request::Write {
            name,
            block,
            pattern,
        } => Request::Write {
            name: name.copy(),
            block: *block,
            pattern: *pattern,
        },
        Request::Read { name, snap, block } => Request::Read {
            name: name.copy(),
            snap: snap.as_ref().map(|snap| snap.copy()),
            block: *block,
        },
        Request::Snap { name, snap } => Request::Snap {
            name: name.copy(),
            snap: snap.copy(),
        },
        Request::Move { name, tuple } => Request::Move {
            name: name.copy(),
            tuple: tuple.copy(),
        },
        Request::Stop { server } => Request::Stop { server: *server },
        Request::StopAt { server, at } => Request::StopAt {
            server: *server,
            at: *at,
        },
        Request::Fault {
            server,
            which,
            kind,
            at,
        } => Request::Fault {
            server: *server,
            which: *which,
            kind: *kind,
            at: *at,
        },
        Request::Start { server } => Request::Start { server: *server },
        Request::Blank { server } => Request::Blank { server: *server },
        Request::Settle => Request::Settle,
    }
}

/// The same line again. It takes no memory.
pub fn line_again(line: &Line) -> Line
    ensures { result ≡ line.now }
{
    Line {
        number: line.number,
        phase: line.phase,
        client: line.client,
        request: request_again(&line.request),
    }
}

/// The same answer again.
pub fn answer_again(answer: &Answer) -> Result<Answer, NoMemory>
    ensures { IfOk result (λ again. again ≡ answer.now) }
{
    Ok(answer.clone()?)
}

/// A job that ended so.
fn job_taken(end: StepEnd) -> Step
    ensures { result ≡ job_ended end }
{
    match end {
        StepEnd::Done => Step::Work(WorkEnd::Done),
        StepEnd::Fault(end) => Step::Work(WorkEnd::Fault(end)),
        StepEnd::StopIn(end) => Step::StopIn(end),
    }
}

/// A boot that ended so: it fails where the plan of a device stops the server.
fn boot_taken(end: StepEnd) -> Step
    ensures { result ≡ Boot (boot_end end) }
{
    match end {
        StepEnd::Done => Step::Boot(WorkEnd::Done),
        StepEnd::Fault(end) | StepEnd::StopIn(end) => Step::Boot(WorkEnd::Fault(end)),
    }
}

/// The step that was taken, where its job or its boot ended so.
pub fn step_taken(step: &Step, end: StepEnd) -> Result<Step, NoMemory>
    ensures { IfOk result (λ taken. taken ≡ ended step.now end) }
{
    match step {
        Step::Call { line } => Ok(Step::Call { line: *line }),
        Step::Deliver { letter } => Ok(Step::Deliver {
            letter: letter.share()?,
        }),
        Step::Tick => Ok(Step::Tick),
        Step::Work(_) | Step::StopIn(_) => Ok(job_taken(end)),
        Step::Stop => Ok(Step::Stop),
        Step::Blank => Ok(Step::Blank),
        Step::Boot(_) => Ok(boot_taken(end)),
        Step::Arm { which, plan } => Ok(Step::Arm {
            which: *which,
            plan: *plan,
        }),
        Step::Glance { line, round } => Ok(Step::Glance {
            line: *line,
            round: *round,
        }),
    }
}
