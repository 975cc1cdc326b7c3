//! A secondary has stopped and returned, and the primary, which holds their link alone, brings it up to date.

ghost use Rattle.std.specs.Prelude.{◌≡◌, [], ◌∷◌, length, true, false, None, Some};
ghost use Rattle.petal_base.specs.Block.{fill_block};
ghost use Rattle.petal_msg.specs.declared.body.Body.TheVariants.{Held};
ghost use Rattle.spec_rules.specs.State.{in_both, is_alone_on};
ghost use Rattle.spec_rules.specs.World.{chosen_state};
ghost use Rattle.spec_history.specs.Contents.{content_at};
ghost use Rattle.spec_history.specs.Examples.{cell_at, chain_at, marks_at, one_entry};
ghost use Rattle.test_history.specs.Copies.{again_moves, caught_moves, copied_moves, held_moves, late_moves, page_moves, returned_after};
ghost use Rattle.test_history.specs.Copies.{rewritten_moves, second_moves, sync_moves, trim_moves};
ghost use Rattle.test_history.specs.Returned.{caught_by, copying_0, last_said, link_0, mending, progress_at, stale_0, wants_of};

/// The block that the primary wrote alone is copied, stage by stage: the secondary has no mark, drops nothing, and puts the
/// entry with the primary's version; then the primary's mark is taken away, and nothing is left but to want the link's Caught.
pub fn a_block_is_copied()
    ensures paged { progress_at (returned_after page_moves) 0 ≡ (link_0, record { after = None; paged = true; copied = None; caught = false }) ∷ [] }
    ensures trimmed { ((returned_after trim_moves).servers 0).own.copies.pending ≡ copying_0 1 true 0 }
    ensures put { chain_at (returned_after sync_moves) 1 0 ≡ one_entry 2 (fill_block 8) }
    ensures unmarked { marks_at (returned_after sync_moves) 0 ≡ [] }
    ensures closed { ((returned_after copied_moves).servers 0).own.copies.pending ≡ [] }
    ensures copied { progress_at (returned_after copied_moves) 0 ≡ (link_0, record { after = None; paged = true; copied = Some 0; caught = false }) ∷ [] }
    ensures wants { wants_of (returned_after copied_moves) 0 ≡ caught_by 0 1 1 2 ∷ [] }
    ensures alone { is_alone_on (chosen_state mending (returned_after copied_moves)) 0 (cell_at 0) ≡ true }
{}

/// From the ballot for the Caught on a client's write is held.
pub fn a_write_waits_for_a_caught()
    ensures flagged { progress_at (returned_after held_moves) 0 ≡ (link_0, record { after = None; paged = true; copied = Some 0; caught = true }) ∷ [] }
    ensures held { last_said (returned_after held_moves) ≡ Held 2 ∷ [] }
    ensures pending { ((returned_after held_moves).servers 0).own.pairs.pending ≡ [] }
{}

/// Once the Caught is chosen the link is in Both, and the contents are those of the secondary, which are the same. The primary
/// that has applied it keeps nothing of the copies.
pub fn a_link_is_both_again()
    ensures both { in_both (chosen_state mending (returned_after caught_moves)) (cell_at 0) ≡ true }
    ensures content { content_at mending (returned_after caught_moves) 0 0 0 ≡ fill_block 8 }
    ensures progress { progress_at (returned_after caught_moves) 0 ≡ [] }
{}

/// The first copy of a block sent its entry twice, and the block was written again. When the second copy has trimmed, the first
/// entry comes once more: it is of an earlier Trim, and is dropped. Else the secondary would have it for the second copy's.
pub fn a_late_entry_is_dropped()
    ensures written { chain_at (returned_after rewritten_moves) 0 0 ≡ one_entry 3 (fill_block 9) }
    ensures marked { marks_at (returned_after rewritten_moves) 0 ≡ stale_0 ∷ [] }
    ensures second { ((returned_after again_moves).servers 0).own.copies.pending ≡ copying_0 3 false 0 }
    ensures dropped { chain_at (returned_after late_moves) 1 0 ≡ one_entry 2 (fill_block 8) }
    ensures waits { ((returned_after late_moves).servers 1).own.copies.last ≡ (cell_at 0, record { op = 3; epochs = 0 ∷ []; index = 0 }) ∷ [] }
    ensures silent { length (returned_after late_moves).sent ≡ 14 }
    ensures put { chain_at (returned_after second_moves) 1 0 ≡ one_entry 3 (fill_block 9) }
{}
