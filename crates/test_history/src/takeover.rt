//! A secondary stops in the middle of a write, and its lead goes on alone.

ghost use Rattle.std.specs.Prelude.{◌≡◌, [], ◌∷◌, false};
ghost use Rattle.busy_marks.specs.declared.marks.MarkKind.TheVariants.{Busy, Stale};
ghost use Rattle.petal_base.specs.Block.{fill_block, zero_block};
ghost use Rattle.script_lines.specs.declared.answer.Answer.TheVariants as answer;
ghost use Rattle.spec_rules.specs.World.{chosen_log};
ghost use Rattle.spec_history.specs.Contents.{content_at};
ghost use Rattle.spec_history.specs.Examples.{cell_at, chain_at, crowd_disk, marks_at, one_entry};
ghost use Rattle.test_history.specs.Stops.{alone_acts, chosen_acts, leave_of_1, stop_acts, trio, trio_after, voting_acts};

/// The write's lead has put, its second server has not, and the second server stops: the block is marked busy, and the
/// content is that of the second server still.
pub fn a_secondary_stops_in_a_write()
    ensures stopped { ((trio_after stop_acts).servers 1).life.running ≡ false }
    ensures primary { chain_at (trio_after stop_acts) 0 0 ≡ one_entry 1 (fill_block 7) }
    ensures secondary { chain_at (trio_after stop_acts) 1 0 ≡ [] }
    ensures marked { marks_at (trio_after stop_acts) 0 ≡ record { kind = Busy; cell = cell_at 0 } ∷ [] }
    ensures content { content_at trio (trio_after stop_acts) 0 0 0 ≡ zero_block }
{}

/// While one of three servers has voted for the Leave of the stopped one, nothing is chosen; with the second vote it is, and
/// the content is now that of the lead.
pub fn a_leave_is_chosen()
    ensures before { chosen_log trio (trio_after voting_acts) ≡ crowd_disk ∷ [] }
    ensures old { content_at trio (trio_after voting_acts) 0 0 0 ≡ zero_block }
    ensures chosen { chosen_log trio (trio_after chosen_acts) ≡ crowd_disk ∷ leave_of_1 ∷ [] }
    ensures new { content_at trio (trio_after chosen_acts) 0 0 0 ≡ fill_block 7 }
{}

/// The lead that has applied the Leave marks the block stale, takes the busy mark away and answers the write. The copy of the
/// stopped server has not changed.
pub fn a_lead_goes_on_alone()
    ensures answers { (trio_after alone_acts).answers ≡ (2, answer.Ok) ∷ (3, answer.Ok) ∷ [] }
    ensures primary { chain_at (trio_after alone_acts) 0 0 ≡ one_entry 1 (fill_block 7) }
    ensures secondary { chain_at (trio_after alone_acts) 1 0 ≡ [] }
    ensures marked { marks_at (trio_after alone_acts) 0 ≡ record { kind = Stale; cell = cell_at 0 } ∷ [] }
    ensures pending { ((trio_after alone_acts).servers 0).own.pairs.pending ≡ [] }
{}
