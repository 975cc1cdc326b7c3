//! The jobs of a server, in order.

ghost use Rattle.std.specs.Prelude.{◌≡◌, ◌≤◌, ◌<◌, ◌+◌, ◌-◌, drop, ◌++◌, length, OnOk};
ghost use Rattle.std.specs.VecDeque.{deque_len, deque_capacity};
ghost use Rattle.server_log.specs.Said.{apply_first, letter_again};
ghost use Rattle.pair_memory.specs.JobResult.{follow_up};
ghost use Rattle.petal_msg.specs.Kinds.{is_logged, subject_of};
ghost use Rattle.spec_rules.specs.Jobs.{is_log_job};
ghost use Rattle.server_jobs.specs.Kind.{kind_of};

use pair_memory::FollowUp;
use petal_base::NoMemory;
use petal_msg::{Body, SharedLetter};
use spec_rules::Job;
use std::collections::VecDeque;

/// Whether a letter is of the agreed log.
fn is_logged(body: &Body) -> bool
    ensures { result ≡ is_logged (subject_of body.now) }
{
    match body {
        Body::Down { .. }
        | Body::Propose { .. }
        | Body::Pax(_)
        | Body::Ask { .. }
        | Body::News { .. } => true,
        _ => false,
    }
}

/// Whether the job is of the agreed log, and not of the pairs.
fn is_log_job(job: &Job) -> bool
    ensures { result ≡ is_log_job job.now }
{
    match job {
        Job::Letter(letter) => is_logged(&letter.get().body),
        Job::Stage(_) | Job::Repair(_) | Job::Sweep => false,
        Job::Apply | Job::Start => true,
    }
}

/// Which part of a server does a job.
#[derive(Clone, Copy, PartialEq, Eq)]
pub enum Kind {
    /// A job of the pairs.
    OfPairs,
    /// A job of the agreed log, which at most notes of a link that a ballot for its `Caught` was started.
    OfLog,
    /// The next entry of the log is applied, which changes the pairs too.
    Applies,
}

/// Which part of a server does the job.
pub fn kind_of(job: &Job) -> Kind
    ensures { result ≡ kind_of job.now }
{
    match job {
        Job::Apply => Kind::Applies,
        _ => {
            if is_log_job(job) {
                Kind::OfLog
            } else {
                Kind::OfPairs
            }
        }
    }
}

/// There is room for so many jobs more, and one.
pub fn make_room(jobs: &mut VecDeque<Job>, more: usize) -> Result<(), NoMemory>
    ensures same { jobs.new.items ≡ jobs.old.items }
    ensures room { OnOk result (deque_len jobs.new + more + 1 ≤ deque_capacity jobs.new) }
{
    jobs.reserve(more.saturating_add(1))?;
    Ok(())
}

/// Jobs more, for which there is room.
pub fn add_all(jobs: &mut VecDeque<Job>, more: Vec<Job>)
    requires { deque_len jobs.old + length more.items ≤ deque_capacity jobs.old }
    ensures { jobs.new.items ≡ jobs.old.items ++ more.items }
{
    for job in more {
        jobs.push_back_reserved(job);
    }
}

/// The first job is done, and another may follow it up. It takes no memory.
pub fn go_on(jobs: &mut VecDeque<Job>, follow: Option<FollowUp>)
    requires { 0 < deque_len jobs.old }
    ensures { jobs.new.items ≡ drop 1 jobs.old.items ++ follow_up follow }
{
    let _ = jobs.pop_front();
    match follow {
        Some(FollowUp::Stage(cell)) => jobs.push_back_reserved(Job::Stage(cell)),
        Some(FollowUp::Repair(link)) => jobs.push_back_reserved(Job::Repair(link)),
        Some(FollowUp::Sweep) => jobs.push_back_reserved(Job::Sweep),
        None => {}
    }
}

/// The first job is done; that an entry is applied may follow it up, and a letter again, for which there is room.
pub fn enter(jobs: &mut VecDeque<Job>, apply: bool, again: Option<SharedLetter>)
    requires some { 0 < deque_len jobs.old }
    requires room { deque_len jobs.old + 1 ≤ deque_capacity jobs.old }
    ensures jobs { jobs.new.items ≡ drop 1 jobs.old.items ++ apply_first apply (letter_again again) }
    ensures capacity { deque_capacity jobs.new ≡ deque_capacity jobs.old }
    ensures len { deque_len jobs.new ≤ deque_len jobs.old + 1 }
{
    let _ = jobs.pop_front();
    if apply {
        jobs.push_back_reserved(Job::Apply);
    }
    if let Some(letter) = again {
        jobs.push_back_reserved(Job::Letter(letter));
    }
}
