//! Runs that are computed: they show that the definitions are not empty, and what they say.

ghost use Rattle.std.specs.Prelude.{◌≡◌, [], ◌∷◌, ◌++◌, length, Some};
ghost use Rattle.busy_marks.specs.declared.marks.MarkKind.TheVariants.{Busy};
ghost use Rattle.petal_base.specs.Block.{fill_block, zero_block};
ghost use Rattle.script_lines.specs.declared.answer.Answer.TheVariants as answer;
ghost use Rattle.spec_machine.specs.declared.event.Event.TheVariants.{Make};
ghost use Rattle.spec_rules.specs.Store.{free_of};
ghost use Rattle.spec_rules.specs.World.{chosen_log, server_state};
ghost use Rattle.spec_history.specs.Contents.{content_at};
ghost use Rattle.spec_history.specs.Examples.{after_clash_moves, again_moves, cell_at, chain_at, clash_moves, crowd_after, crowd_disk, crowded};
ghost use Rattle.spec_history.specs.Examples.{declined_moves, early, early_moves, fill_moves, forgetful, freed_moves, late_moves, make_moves, marks_at};
ghost use Rattle.spec_history.specs.Examples.{mindful, one_entry, pair_disk, put_moves, read_moves, refused_moves, rival_disk, rivals, rows_at, sevens};
ghost use Rattle.spec_history.specs.Examples.{stray_moves, strays, events_of_moves, tidy_moves, twin_moves, twins, two_blocks, two_writes_moves, vol};
ghost use Rattle.spec_history.specs.Examples.{world_of, write_moves};

/// A client's disk is chosen by two servers and applied by both, and its client hears of it.
pub fn a_disk_is_made()
    ensures answers { (world_of sevens make_moves).answers ≡ (1, answer.Ok) ∷ [] }
    ensures chosen { chosen_log sevens (world_of sevens make_moves) ≡ pair_disk ∷ [] }
    ensures first { ((world_of sevens make_moves).servers 0).log.applied ≡ pair_disk ∷ [] }
    ensures second { ((world_of sevens make_moves).servers 1).log.applied ≡ pair_disk ∷ [] }
{}

/// Then it writes a block of sevens and reads it back: the answers, the newest first, the two copies of the block, and what
/// the disk holds.
pub fn a_write_is_read_back()
    ensures answers { (world_of sevens (make_moves ++ write_moves ++ read_moves)).answers
        ≡ (3, answer.Data (fill_block 7)) ∷ (2, answer.Ok) ∷ (1, answer.Ok) ∷ [] }
    ensures primary { chain_at (world_of sevens (make_moves ++ write_moves ++ read_moves)) 1 5 ≡ one_entry 1 (fill_block 7) }
    ensures secondary { chain_at (world_of sevens (make_moves ++ write_moves ++ read_moves)) 0 5 ≡ one_entry 1 (fill_block 7) }
    ensures content { content_at sevens (world_of sevens (make_moves ++ write_moves)) 0 0 5 ≡ fill_block 7 }
{}

/// While the write's lead has put and its second server was not told yet, the block is marked busy at the lead. After the
/// write it still is. At a tick of the lead the mark goes.
pub fn a_write_marks_its_block()
    ensures primary { chain_at (world_of sevens (make_moves ++ put_moves)) 1 5 ≡ one_entry 1 (fill_block 7) }
    ensures secondary { chain_at (world_of sevens (make_moves ++ put_moves)) 0 5 ≡ [] }
    ensures marked { marks_at (world_of sevens (make_moves ++ put_moves)) 1 ≡ record { kind = Busy; cell = cell_at 5 } ∷ [] }
    ensures still_marked { marks_at (world_of sevens (make_moves ++ write_moves)) 1 ≡ record { kind = Busy; cell = cell_at 5 } ∷ [] }
    ensures unmarked { marks_at (world_of sevens (make_moves ++ write_moves ++ tidy_moves)) 1 ≡ [] }
{}

/// Two blocks that were written one after the other are marked busy at their lead. At a tick of the lead both marks go by one job.
pub fn two_old_marks_go_together()
    ensures marked { marks_at (world_of two_blocks two_writes_moves) 1
        ≡ record { kind = Busy; cell = cell_at 5 } ∷ record { kind = Busy; cell = cell_at 7 } ∷ [] }
    ensures unmarked { marks_at (world_of two_blocks (two_writes_moves ++ tidy_moves)) 1 ≡ [] }
{}

/// After the write both servers have its number, in the row of its map, link and client.
pub fn a_write_leaves_its_number()
    ensures primary { rows_at (world_of sevens (make_moves ++ write_moves)) 1 ≡ record { map = 0; link = 1; client = 0; seq = 2 } ∷ [] }
    ensures secondary { rows_at (world_of sevens (make_moves ++ write_moves)) 0 ≡ record { map = 0; link = 1; client = 0; seq = 2 } ∷ [] }
{}

/// A second disk of the same name is answered by its own entry of the log.
pub fn a_name_is_taken()
    ensures answers { (world_of twins (make_moves ++ twin_moves)).answers ≡ (2, answer.Exists) ∷ (1, answer.Ok) ∷ [] }
    ensures chosen { length (chosen_log twins (world_of twins (make_moves ++ twin_moves))) ≡ 2 }
{}

/// A read of a name that no disk has is answered by its own Witness.
pub fn a_name_is_unknown()
    ensures answers { (world_of strays stray_moves).answers ≡ (1, answer.NoDisk) ∷ [] }
    ensures chosen { length (chosen_log strays (world_of strays stray_moves)) ≡ 1 }
{}

/// Two servers propose for one place. The one that is refused remembers the round, and its command is chosen later.
pub fn two_servers_propose()
    ensures refused { ((world_of rivals clash_moves).servers 0).log.refused ≡ 1 }
    ensures chosen { chosen_log rivals (world_of rivals (clash_moves ++ after_clash_moves)) ≡ rival_disk ∷ pair_disk ∷ [] }
    ensures first { ((world_of rivals (clash_moves ++ after_clash_moves)).servers 0).log.applied ≡ rival_disk ∷ pair_disk ∷ [] }
    ensures second { ((world_of rivals (clash_moves ++ after_clash_moves)).servers 1).log.applied ≡ rival_disk ∷ pair_disk ∷ [] }
{}

/// A client reads a disk that it doesn't know yet, and that is chosen before its Witness: the read goes on, two entries later.
pub fn a_disk_is_read_early()
    ensures answers { (world_of early early_moves).answers ≡ (2, answer.Data zero_block) ∷ [] }
{}

/// The machine is told of the disk at the step that chooses it.
pub fn a_choice_makes_the_disk()
    ensures told { events_of_moves sevens make_moves ≡ Some (Make vol ∷ []) }
{}

/// All letters of the write are handed over a second time, in the reverse order: both copies stay as they are, nothing is
/// pending, and nothing more is answered. The letters that come of it say again what was said.
pub fn a_letter_comes_twice_and_in_reverse()
    ensures answers { (world_of sevens (make_moves ++ write_moves ++ again_moves)).answers ≡ (2, answer.Ok) ∷ (1, answer.Ok) ∷ [] }
    ensures primary { chain_at (world_of sevens (make_moves ++ write_moves ++ again_moves)) 1 5 ≡ one_entry 1 (fill_block 7) }
    ensures secondary { chain_at (world_of sevens (make_moves ++ write_moves ++ again_moves)) 0 5 ≡ one_entry 1 (fill_block 7) }
    ensures pending { ((world_of sevens (make_moves ++ write_moves ++ again_moves)).servers 1).own.pairs.pending ≡ [] }
    ensures queue { ((world_of sevens (make_moves ++ write_moves ++ again_moves)).servers 1).queue ≡ [] }
    ensures said { length (world_of sevens (make_moves ++ write_moves ++ again_moves)).sent ≡ 24 }
{}

/// The second server of a write has no free slot: the write is answered so, neither copy has changed, and the lead's slot
/// is free again.
pub fn a_write_finds_no_slot()
    ensures answers { (crowd_after (fill_moves ++ declined_moves ++ refused_moves)).answers ≡ (3, answer.NoSpace) ∷ (2, answer.Ok) ∷ [] }
    ensures primary { chain_at (crowd_after (fill_moves ++ declined_moves ++ refused_moves)) 2 2 ≡ [] }
    ensures secondary { chain_at (crowd_after (fill_moves ++ declined_moves ++ refused_moves)) 0 2 ≡ [] }
    ensures free { free_of ((crowd_after (fill_moves ++ declined_moves ++ refused_moves)).servers 2).own.store ≡ 1 }
{}

/// Why a request that is refused for want of a slot is remembered as finished. The third write is refused at its lead, and
/// its client was told. Then a slot is free there, and the write's letter comes again: nothing is opened. A server that had
/// forgotten what it has finished would have opened the write of which its client was told that it failed.
pub fn a_full_write_is_remembered()
    ensures answers { (crowd_after (fill_moves ++ declined_moves ++ freed_moves)).answers ≡ (4, answer.NoSpace) ∷ (2, answer.Ok) ∷ [] }
    ensures free { free_of ((crowd_after (fill_moves ++ declined_moves ++ freed_moves)).servers 2).own.store ≡ 1 }
    ensures remembered { (mindful (server_state crowded (crowd_after []) 2) 2
        ((crowd_after (fill_moves ++ declined_moves ++ freed_moves ++ late_moves)).servers 2)).server.own.pairs.pending ≡ [] }
    ensures forgotten { length (forgetful (server_state crowded (crowd_after []) 2) 2
        ((crowd_after (fill_moves ++ declined_moves ++ freed_moves ++ late_moves)).servers 2)).server.own.pairs.pending ≡ 1 }
{}
