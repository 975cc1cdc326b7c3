//! A snapshot is taken: a fence holds writes until each server has reported, and then the epoch rises.

ghost use Rattle.std.specs.Prelude.{◌≡◌, ◌++◌, [], ◌∷◌, length, None, Some};
ghost use Rattle.petal_base.specs.Block.{fill_block};
ghost use Rattle.spec_machine.specs.declared.event.Event.TheVariants.{Freeze};
ghost use Rattle.petal_msg.specs.declared.body.Body.TheVariants.{Held};
ghost use Rattle.spec_history.specs.Contents.{content_at};
ghost use Rattle.spec_history.specs.Examples.{vol};
ghost use Rattle.test_history.specs.Returned.{last_said, mending, wants_of};
ghost use Rattle.test_history.specs.Snapshots.{awaited_by, epochs_by, fenced, fenced_after, fenced_log, frozen, frozen_log, held_moves, left_log, mon};
ghost use Rattle.test_history.specs.Snapshots.{passed_after, report_of, reported, reported_after, reported_log, snaps_by, told_of_vote, writing};

/// The fence awaits all servers, until each has reported. A server that leaves makes it await all that are In once more.
pub fn a_fence_awaits_reports()
    ensures all { awaited_by fenced_log ≡ Some (0 ∷ 1 ∷ 2 ∷ []) }
    ensures one { awaited_by reported_log ≡ Some (2 ∷ []) }
    ensures waits { epochs_by reported_log ≡ 0 ∷ [] }
    ensures none { awaited_by frozen_log ≡ None }
    ensures rises { epochs_by frozen_log ≡ 1 ∷ [] }
    ensures stands { snaps_by frozen_log ≡ (record { name = mon; epoch = 0 } ∷ []) ∷ [] }
    ensures again { awaited_by left_log ≡ Some (0 ∷ 1 ∷ []) }
    ensures without { epochs_by (left_log ++ report_of 1 ∷ report_of 0 ∷ []) ≡ 1 ∷ [] }
{}

/// While it is active a new write is held, and a server wants its report, unless one of its own writes is under way.
pub fn a_fence_holds_writes()
    ensures held { last_said (fenced_after held_moves) ≡ Held 2 ∷ [] }
    ensures pending { ((fenced_after held_moves).servers 0).own.pairs.pending ≡ [] }
    ensures wants { wants_of fenced 0 ≡ report_of 0 ∷ [] }
    ensures drains { wants_of writing 0 ≡ [] }
    ensures other { wants_of writing 1 ≡ report_of 1 ∷ [] }
{}

/// A server whose own report is chosen goes on holding writes, until the entry at which the fence takes effect: then the write is
/// opened, and its lead asks the second server for a slot.
pub fn a_fence_holds_until_it_takes_effect()
    ensures wants { wants_of reported 0 ≡ [] }
    ensures other { wants_of reported 2 ≡ report_of 2 ∷ [] }
    ensures held { last_said (reported_after held_moves) ≡ Held 2 ∷ [] }
    ensures pending { ((reported_after held_moves).servers 0).own.pairs.pending ≡ [] }
    ensures opened { length ((passed_after held_moves).servers 0).own.pairs.pending ≡ 1 }
    ensures sent { length (passed_after held_moves).sent ≡ 2 }
{}

/// The machine is told of the snapshot at the vote that chooses the last report. The block holds there what it held before.
pub fn a_snapshot_keeps_its_block()
    ensures told { told_of_vote ≡ Some (Freeze vol mon ∷ []) }
    ensures before { content_at mending frozen 0 0 0 ≡ fill_block 7 }
    ensures now { content_at mending frozen 0 1 0 ≡ fill_block 8 }
{}
