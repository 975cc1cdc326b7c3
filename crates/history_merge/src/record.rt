//! A record once more.

ghost use Rattle.std.specs.Prelude.{◌≡◌, IfOk};

use petal_base::NoMemory;
use petal_world::copies::{letters_again, told_again};
use spec_history::Record;
use spec_rules::Step;
use std::alloc::Global;

/// The same step, which shares the letter that comes in it.
fn step_again(step: &Step) -> Result<Step, NoMemory>
    ensures { IfOk result (λ again. again ≡ step.now) }
{
    match step {
        Step::Call { line } => Ok(Step::Call { line: *line }),
        Step::Deliver { letter } => Ok(Step::Deliver {
            letter: letter.share()?,
        }),
        Step::Tick => Ok(Step::Tick),
        Step::Work(end) => Ok(Step::Work(*end)),
        Step::StopIn(end) => Ok(Step::StopIn(*end)),
        Step::Stop => Ok(Step::Stop),
        Step::Blank => Ok(Step::Blank),
        Step::Boot(end) => Ok(Step::Boot(*end)),
        Step::Arm { which, plan } => Ok(Step::Arm {
            which: *which,
            plan: *plan,
        }),
        Step::Glance { line, round } => Ok(Step::Glance {
            line: *line,
            round: *round,
        }),
    }
}

/// The same record, which shares its letters and the block of its answer.
pub fn record_again(alloc: Global, own: &Record) -> Result<Record, NoMemory>
    ensures { IfOk result (λ again. again ≡ own.now) }
{
    Ok(Record {
        actor: own.actor,
        stamp: own.stamp,
        phase: own.phase,
        step: step_again(&own.step)?,
        sent: letters_again(alloc, own.sent.as_slice())?,
        answer: told_again(&own.answer)?,
    })
}
