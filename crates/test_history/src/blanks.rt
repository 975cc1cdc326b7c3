//! A server comes back with an empty store.

ghost use Rattle.std.specs.Prelude.{◌≡◌, [], ◌∷◌, ◌++◌, true, false, None, Some};
ghost use Rattle.petal_base.specs.Block.{fill_block};
ghost use Rattle.petal_msg.specs.declared.letter.Actor.TheVariants as actor;
ghost use Rattle.script_lines.specs.declared.answer.Answer.TheVariants as answer;
ghost use Rattle.spec_rules.specs.State.{authority, is_alone_on};
ghost use Rattle.spec_rules.specs.Store.{blank_store};
ghost use Rattle.spec_rules.specs.World.{MayStep, blank_joins_in, chosen_log, chosen_state};
ghost use Rattle.spec_rules.specs.declared.step.Step.TheVariants.{Blank, Boot, Stop};
ghost use Rattle.spec_rules.specs.declared.step.WorkEnd.TheVariants.{Done};
ghost use Rattle.spec_history.specs.Contents.{content_at};
ghost use Rattle.spec_history.specs.Examples.{cell_at, chain_at, one_entry};
ghost use Rattle.test_history.specs.Blanks.{asked_acts, awake_acts, blank_join_of_1, blanked_acts, blanking, filled_acts, joined_acts, kept_chain, left_acts};
ghost use Rattle.test_history.specs.Blanks.{lost_after, other_moves, refused_moves, stopped_acts, twofold_after, wants_at};
ghost use Rattle.test_history.specs.Returned.{caught_by, link_0, progress_at};
ghost use Rattle.test_history.specs.Stops.{leave_of_1};

/// The operator's line blanks a server that runs: it stops, its store is a blank one, and it boots, each of these steps in turn.
/// The store from before still counts, and so does the block that it had.
pub fn a_line_blanks_a_server()
    ensures stops { MayStep blanking (twofold_after asked_acts) (actor.Server 1) Stop }
    ensures blanks { MayStep blanking (twofold_after stopped_acts) (actor.Server 1) Blank }
    ensures boots { MayStep blanking (twofold_after blanked_acts) (actor.Server 1) (Boot Done) }
    ensures blank { ((twofold_after awake_acts).servers 1).own.store ≡ blank_store 4 }
    ensures answered { (twofold_after awake_acts).answers ≡ (4, answer.Ok) ∷ [] }
    ensures kept { kept_chain (twofold_after awake_acts) ≡ one_entry 1 (fill_block 7) }
    ensures content { content_at blanking (twofold_after awake_acts) 0 0 0 ≡ fill_block 7 }
{}

/// Its Join says that its store is empty, and from then on the empty store counts. The primary holds their link alone and has to
/// copy all that it has. The server's store waits to be filled until it applies its Join.
pub fn a_blank_server_joins()
    ensures leaves { wants_at (twofold_after awake_acts) 1 ≡ leave_of_1 ∷ [] }
    ensures joins { wants_at (twofold_after left_acts) 1 ≡ blank_join_of_1 ∷ [] }
    ensures before { kept_chain (twofold_after left_acts) ≡ one_entry 1 (fill_block 7) }
    ensures fresh { ((twofold_after left_acts).servers 1).own.store.fresh ≡ true }
    ensures counted { blank_joins_in blanking (chosen_log blanking (twofold_after joined_acts)) 1 ≡ 1 }
    ensures after { kept_chain (twofold_after joined_acts) ≡ [] }
    ensures settled { ((twofold_after joined_acts).servers 1).own.store.fresh ≡ false }
    ensures alone { is_alone_on (chosen_state blanking (twofold_after joined_acts)) 0 (cell_at 0) ≡ true }
    ensures content { content_at blanking (twofold_after joined_acts) 0 0 0 ≡ fill_block 7 }
{}

/// The primary copies a block that is marked at neither of the two, and then wants the link's Caught.
pub fn a_blank_server_is_filled()
    ensures chain { chain_at (twofold_after filled_acts) 1 0 ≡ one_entry 1 (fill_block 7) }
    ensures copied { progress_at (twofold_after filled_acts) 0 ≡ (link_0, record { after = None; paged = true; copied = Some 0; caught = false }) ∷ [] }
    ensures wants { wants_at (twofold_after filled_acts) 0 ≡ caught_by 0 1 1 2 ∷ [] }
{}

/// The holder of a link came back with nothing while the other server is Out: the link is Lost, and a write of its block is
/// answered that it is unavailable. A block of another link, which a third server holds, is written.
pub fn a_lost_link_is_unavailable()
    ensures lost { authority (chosen_state blanking (lost_after [])) (cell_at 0) ≡ None }
    ensures refused { (lost_after refused_moves).answers ≡ (2, answer.Unavailable) ∷ [] }
    ensures other { (lost_after (refused_moves ++ other_moves)).answers ≡ (3, answer.Ok) ∷ (2, answer.Unavailable) ∷ [] }
    ensures still { authority (chosen_state blanking (lost_after (refused_moves ++ other_moves))) (cell_at 0) ≡ None }
{}
