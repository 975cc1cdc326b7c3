//! What an operation does next.

ghost use Rattle.std.specs.Prelude.{◌≡◌};
ghost use Rattle.spec_rules.specs.Writes as writes;

use busy_marks::MarkKind;
use pair_memory::JobContext;
use petal_msg::{Action, Pending, Stage};

/// Nothing is done yet.
pub fn first_stage() -> Stage
    ensures { result ≡ writes.first_stage }
{
    Stage {
        reserved: false,
        busy: false,
        stale: false,
        put: false,
        paired: false,
        trimmed: false,
        index: 0,
    }
}

/// What a pending operation does next, by its cell's link as it now is; `Drop` exactly where this server does not lead the link.
pub fn next_stage(here: &JobContext, pending: &Pending) -> Action
    ensures { result ≡ writes.next_stage here.now.state here.now.me pending.now }
{
    if !here.leads_link(pending.cell) {
        Action::Drop
    } else if here.in_both(pending.cell) {
        both_action(&pending.stage)
    } else {
        alone_action(&pending.stage)
    }
}

/// In Both: the block is marked busy before the lead puts, and the mark outlives the operation.
fn both_action(stage: &Stage) -> Action
    ensures { result ≡ writes.both_action stage.now }
{
    if !stage.reserved {
        Action::Reserve
    } else if !stage.busy && !stage.put {
        Action::Mark(MarkKind::Busy)
    } else if !stage.put {
        Action::Put
    } else if !stage.paired {
        Action::Replicate
    } else {
        Action::Answer
    }
}

/// At a holder that is alone: the block is marked stale, since the other server misses the put.
fn alone_action(stage: &Stage) -> Action
    ensures { result ≡ writes.alone_action stage.now }
{
    if !stage.stale {
        Action::Mark(MarkKind::Stale)
    } else if !stage.put {
        Action::Put
    } else if stage.busy {
        Action::Unmark(MarkKind::Busy)
    } else {
        Action::Answer
    }
}
