//! Servers that stop by themselves.

ghost use Rattle.std.specs.Prelude.{◌≡◌, List, [], ◌∷◌, length, false};
ghost use Rattle.busy_marks.specs.declared.marks.Mark.{Mark};
ghost use Rattle.busy_marks.specs.declared.marks.MarkKind.TheVariants.{Busy};
ghost use Rattle.petal_base.specs.Block.{fill_block};
ghost use Rattle.spec_rules.specs.declared.step.CommitEnd.TheVariants.{Before, After};
ghost use Rattle.spec_history.specs.Examples.{cell_at, chain_at, marks_at, one_entry};
ghost use Rattle.test_history.specs.Stops.{AreAllMarks, failed_acts, full_after, trio_after};

/// A device fails in the job that puts, before its commit: nothing was put, the server has stopped, and the two others are
/// told, by the letters after the three of the write.
pub fn a_device_fails_before_a_put()
    ensures stopped { ((trio_after (failed_acts Before)).servers 0).life.running ≡ false }
    ensures chain { chain_at (trio_after (failed_acts Before)) 0 0 ≡ [] }
    ensures told { length (trio_after (failed_acts Before)).sent ≡ 5 }
{}

/// The same after the commit: the block was put, and it is marked.
pub fn a_device_fails_after_a_put()
    ensures stopped { ((trio_after (failed_acts After)).servers 0).life.running ≡ false }
    ensures chain { chain_at (trio_after (failed_acts After)) 0 0 ≡ one_entry 1 (fill_block 7) }
    ensures marked { marks_at (trio_after (failed_acts After)) 0 ≡ record { kind = Busy; cell = cell_at 0 } ∷ [] }
    ensures told { length (trio_after (failed_acts After)).sent ≡ 5 }
{}

/// A lead with as many marks as there may be, none of them on the block that is written, does not mark it: it stops, and the two others
/// are told.
pub fn a_lead_with_all_its_marks_stops()
    ensures stopped { (marks : List Mark) → AreAllMarks marks → ((full_after marks).servers 0).life.running ≡ false }
    ensures unmarked { (marks : List Mark) → AreAllMarks marks → marks_at (full_after marks) 0 ≡ marks }
    ensures told { (marks : List Mark) → AreAllMarks marks → length (full_after marks).sent ≡ 5 }
{}
