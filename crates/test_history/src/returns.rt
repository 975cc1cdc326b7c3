//! A primary had put and not sent its copy when it stopped. It returns, and its put is dropped.

ghost use Rattle.std.specs.Prelude.{◌≡◌, [], ◌∷◌, length, true, false, None, Some};
ghost use Rattle.petal_base.specs.Block.{fill_block, zero_block};
ghost use Rattle.spec_rules.specs.State.{in_both, is_alone_on};
ghost use Rattle.spec_rules.specs.World.{chosen_state};
ghost use Rattle.spec_history.specs.Contents.{content_at};
ghost use Rattle.spec_history.specs.Examples.{cell_at, chain_at, marks_at, one_entry};
ghost use Rattle.test_history.specs.Copies.{asked_moves, back_after, both_moves, dropped_moves, early_after, gone_moves, in_moves};
ghost use Rattle.test_history.specs.Copies.{level_moves, marked_moves, tidied_moves, written_moves};
ghost use Rattle.test_history.specs.Returned.{busy_0, caught_by, join_of_0, leave_of_0, link_0, mending, progress_at, stale_0, wants_of};

/// The secondary, which holds the link alone, hears of the primary's mark and makes it its own. Its copy of the block is without
/// an entry, so the primary drops its put, one entry a job. The contents are what they were: the put never counted. In Both the
/// primary takes the mark away that its earlier life left.
pub fn a_returning_primary_drops_its_put()
    ensures old { content_at mending (back_after []) 0 0 0 ≡ zero_block }
    ensures marked { marks_at (back_after marked_moves) 1 ≡ stale_0 ∷ [] }
    ensures page { progress_at (back_after marked_moves) 1 ≡ (link_0, record { after = Some 0; paged = false; copied = None; caught = false }) ∷ [] }
    ensures dropped { chain_at (back_after dropped_moves) 0 0 ≡ [] }
    ensures unmarked { marks_at (back_after level_moves) 1 ≡ [] }
    ensures wants { wants_of (back_after level_moves) 1 ≡ caught_by 1 1 0 2 ∷ [] }
    ensures both { in_both (chosen_state mending (back_after both_moves)) (cell_at 0) ≡ true }
    ensures left { marks_at (back_after both_moves) 0 ≡ busy_0 ∷ [] }
    ensures tidied { marks_at (back_after tidied_moves) 0 ≡ [] }
    ensures new { content_at mending (back_after tidied_moves) 0 0 0 ≡ zero_block }
{}

/// The same with a boot before the Leave is chosen. The server leads the link by its own state, but is not In as itself: it
/// drops the client's write, and takes no part in its links until its Leave and its Join are chosen. Then the secondary, which
/// has been alone from the Leave on, asks for its marks.
pub fn a_primary_boots_before_its_leave()
    ensures dropped { length (early_after written_moves).sent ≡ 1 }
    ensures pending { ((early_after written_moves).servers 0).own.pairs.pending ≡ [] }
    ensures wants { wants_of (early_after written_moves) 0 ≡ leave_of_0 ∷ [] }
    ensures old { content_at mending (early_after written_moves) 0 0 0 ≡ zero_block }
    ensures alone { is_alone_on (chosen_state mending (early_after gone_moves)) 1 (cell_at 0) ≡ true }
    ensures joins { wants_of (early_after gone_moves) 0 ≡ join_of_0 ∷ [] }
    ensures still { is_alone_on (chosen_state mending (early_after in_moves)) 1 (cell_at 0) ≡ true }
    ensures kept { chain_at (early_after asked_moves) 0 0 ≡ one_entry 1 (fill_block 7) }
    ensures marked { marks_at (early_after asked_moves) 1 ≡ stale_0 ∷ [] }
    ensures new { content_at mending (early_after asked_moves) 0 0 0 ≡ zero_block }
{}
