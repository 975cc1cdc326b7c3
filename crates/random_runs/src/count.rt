//! What is counted of a run.

use oracle_events::old_reads;
use petal_msg::Body;
use petal_world::{CommitEnd, Host, Step, WorkEnd};
use script_lines::{Answer, Request};
use world_probe::Run;

fn is(answer: Option<&Answer>, wanted: &Answer) -> bool {
    match answer {
        Some(answer) => *answer == *wanted,
        None => false,
    }
}

// Whether the answer is a block.
fn is_shown(answer: Option<&Answer>) -> bool {
    match answer {
        Some(Answer::Data(_)) => true,
        _ => false,
    }
}

/// What was counted in some runs.
#[derive(Clone, Copy, Debug, PartialEq, Eq)]
pub struct Count {
    /// The lines that were answered.
    pub answered: usize,
    /// Those of these that were answered `nospace`.
    pub no_space: usize,
    /// Those that were answered `unavailable`.
    pub unavailable: usize,
    /// The snapshots that were taken.
    pub snapshots: usize,
    /// The reads of a snapshot that were answered with a block.
    pub old_reads: usize,
    /// The moves that began.
    pub moves: usize,
    /// How often a server was told that the new map of a move has an entry.
    pub fills: usize,
    /// The reads that were answered by the map that their disk leaves.
    pub by_old_map: usize,
    /// How often a server was stopped by the operator.
    pub stops: usize,
    /// How often one got a blank data device.
    pub blanks: usize,
    /// How often one booted.
    pub boots: usize,
    /// The jobs and boots in which a device failed.
    pub faults: usize,
    /// The jobs in which a plan stopped the server.
    pub stopped_in: usize,
    /// How often a device got a plan.
    pub plans: usize,
    /// The waits that ended, since all was settled.
    pub settled: usize,
    /// The jobs that had made their commit when a device failed in them.
    pub committed_jobs: usize,
    /// The boots that had made theirs.
    pub committed_boots: usize,
    /// The jobs that had made their commit when a plan stopped the server in them.
    pub committed_stops: usize,
    /// The jobs right after whose commit the server stopped, so that nobody got its letters.
    pub cut_jobs: usize,
    /// The boots right after which the server stopped, so that nobody heard of it.
    pub cut_boots: usize,
}

impl Count {
    /// Of no run.
    pub fn new() -> Count {
        Count {
            answered: 0,
            no_space: 0,
            unavailable: 0,
            snapshots: 0,
            old_reads: 0,
            moves: 0,
            fills: 0,
            by_old_map: 0,
            stops: 0,
            blanks: 0,
            boots: 0,
            faults: 0,
            stopped_in: 0,
            plans: 0,
            settled: 0,
            committed_jobs: 0,
            committed_boots: 0,
            committed_stops: 0,
            cut_jobs: 0,
            cut_boots: 0,
        }
    }

    /// Of some runs and of some more.
    pub fn and(self, more: Count) -> Count {
        Count {
            answered: self.answered.saturating_add(more.answered),
            no_space: self.no_space.saturating_add(more.no_space),
            unavailable: self.unavailable.saturating_add(more.unavailable),
            snapshots: self.snapshots.saturating_add(more.snapshots),
            old_reads: self.old_reads.saturating_add(more.old_reads),
            moves: self.moves.saturating_add(more.moves),
            fills: self.fills.saturating_add(more.fills),
            by_old_map: self.by_old_map.saturating_add(more.by_old_map),
            stops: self.stops.saturating_add(more.stops),
            blanks: self.blanks.saturating_add(more.blanks),
            boots: self.boots.saturating_add(more.boots),
            faults: self.faults.saturating_add(more.faults),
            stopped_in: self.stopped_in.saturating_add(more.stopped_in),
            plans: self.plans.saturating_add(more.plans),
            settled: self.settled.saturating_add(more.settled),
            committed_jobs: self.committed_jobs.saturating_add(more.committed_jobs),
            committed_boots: self.committed_boots.saturating_add(more.committed_boots),
            committed_stops: self.committed_stops.saturating_add(more.committed_stops),
            cut_jobs: self.cut_jobs.saturating_add(more.cut_jobs),
            cut_boots: self.cut_boots.saturating_add(more.cut_boots),
        }
    }

    // One more line, which has this answer.
    fn add(&mut self, request: &Request, answer: Option<&Answer>) {
        let snapped = match request {
            Request::Snap { .. } => is(answer, &Answer::Ok),
            _ => false,
        };
        let moved = match request {
            Request::Move { .. } => is(answer, &Answer::Ok),
            _ => false,
        };
        let read = match request {
            Request::Read { snap: Some(_), .. } => is_shown(answer),
            _ => false,
        };
        let settled = match request {
            Request::Settle => is(answer, &Answer::Ok),
            _ => false,
        };
        let more = Count {
            answered: usize::from(answer.is_some()),
            no_space: usize::from(is(answer, &Answer::NoSpace)),
            unavailable: usize::from(is(answer, &Answer::Unavailable)),
            snapshots: usize::from(snapped),
            old_reads: usize::from(read),
            moves: usize::from(moved),
            settled: usize::from(settled),
            ..Count::new()
        };
        *self = self.and(more);
    }
}

/// Whether both are stops, blanks, boots or jobs that ended alike.
fn is_alike(step: &Step, wanted: &Step) -> bool {
    match (step, wanted) {
        (Step::Stop, Step::Stop) | (Step::Blank, Step::Blank) => true,
        (Step::Boot(end), Step::Boot(other)) | (Step::Work(end), Step::Work(other)) => {
            *end == *other
        }
        (Step::StopIn(end), Step::StopIn(other)) => *end == *other,
        _ => false,
    }
}

fn steps<H: Host>(run: &Run<H>, wanted: &Step) -> usize {
    run.records()
        .iter()
        .filter(|record| is_alike(&record.step, wanted))
        .count()
}

/// Whether a device gets a plan.
fn is_plan(step: &Step) -> bool {
    match step {
        Step::Arm { plan: Some(_), .. } => true,
        _ => false,
    }
}

fn plans<H: Host>(run: &Run<H>) -> usize {
    run.records()
        .iter()
        .filter(|record| is_plan(&record.step))
        .count()
}

fn is_filled(body: &Body) -> bool {
    match body {
        Body::Filled { .. } => true,
        _ => false,
    }
}

// How often a server was told that the new map has an entry.
fn fills<H: Host>(run: &Run<H>) -> usize {
    run.sent
        .iter()
        .filter(|letter| is_filled(&letter.get().body))
        .count()
}

/// What is counted of a run, but for what was cut off, which only its choices know.
pub fn counted<H: Host>(run: &Run<H>) -> Count {
    let mut count = Count::new();
    for line in run.script().lines.as_slice() {
        count.add(&line.request, run.answer(line.number));
    }
    count.fills = fills(run);
    count.by_old_map = old_reads(run.records());
    count.stops = steps(run, &Step::Stop);
    count.blanks = steps(run, &Step::Blank);
    count.boots = steps(run, &Step::Boot(WorkEnd::Done));
    count.faults = run.failed();
    count.stopped_in = run.stopped();
    count.plans = plans(run);
    count.committed_jobs = steps(run, &Step::Work(WorkEnd::Fault(CommitEnd::After)));
    count.committed_boots = steps(run, &Step::Boot(WorkEnd::Fault(CommitEnd::After)));
    count.committed_stops = steps(run, &Step::StopIn(CommitEnd::After));
    count
}
