//! The operator starts a server.

ghost use Rattle.std.specs.Prelude.{◌≡◌, [], ◌∷◌, ◌++◌, length, true, false};
ghost use Rattle.petal_msg.specs.declared.letter.Actor.TheVariants as actor;
ghost use Rattle.spec_paxos.specs.declared.record.StateRecord.TheVariants.{Inc};
ghost use Rattle.script_lines.specs.declared.answer.Answer.TheVariants as answer;
ghost use Rattle.spec_rules.specs.State.{is_alone_on, is_in};
ghost use Rattle.spec_rules.specs.World.{MayAct, MayBoot, MayStep, chosen_log, chosen_state};
ghost use Rattle.spec_rules.specs.declared.step.CommitEnd.TheVariants.{Before, After};
ghost use Rattle.spec_rules.specs.declared.step.Step.TheVariants.{Boot, Glance};
ghost use Rattle.spec_rules.specs.declared.step.WorkEnd.TheVariants.{Done, Fault};
ghost use Rattle.spec_history.specs.Examples.{cell_at, crowd_disk, crowd_log};
ghost use Rattle.test_history.specs.Boots.{asked_again_acts, awake_acts, boot_acts, comeback, comeback_after, join_of_1, joined_acts, left_acts};
ghost use Rattle.test_history.specs.Boots.{seen_acts, seen_again_acts, start_acts, wants_of_1};
ghost use Rattle.test_history.specs.Stops.{leave_of_1};

/// The operator's line boots a server that is stopped: it runs as its next incarnation, which stands on its state device, with
/// the entries applied that are known there, and both others are told that the incarnation before has stopped. It takes no step
/// until it was glanced at, whose letter answers the line.
pub fn a_line_starts_a_server()
    ensures may { MayStep comeback (comeback_after start_acts) (actor.Server 1) (Boot Done) }
    ensures runs { ((comeback_after (boot_acts Done)).servers 1).life ≡ record { running = true; inc = 2 } }
    ensures records { ((comeback_after (boot_acts Done)).servers 1).log.records ≡ crowd_log.records ++ Inc 2 ∷ [] }
    ensures applied { ((comeback_after (boot_acts Done)).servers 1).log.applied ≡ crowd_disk ∷ [] }
    ensures told { length (comeback_after (boot_acts Done)).sent ≡ 5 }
    ensures waits { MayAct (comeback_after (boot_acts Done)) 1 → ⊥ }
    ensures glance { MayStep comeback (comeback_after (boot_acts Done)) (actor.Server 1) (Glance 3 0) }
    ensures answered { (comeback_after awake_acts).answers ≡ (3, answer.Ok) ∷ (2, answer.Ok) ∷ [] }
{}

/// A line that starts a server that runs allows no boot, changes nothing at it, and is answered by a glance at once.
pub fn a_start_of_a_running_server_does_nothing()
    ensures may_not { MayBoot (comeback_after asked_again_acts) 1 → ⊥ }
    ensures glance { MayStep comeback (comeback_after asked_again_acts) (actor.Server 1) (Glance 4 0) }
    ensures same { (comeback_after seen_again_acts).servers 1 ≡ (comeback_after awake_acts).servers 1 }
    ensures answered { (comeback_after seen_again_acts).answers ≡ (4, answer.Ok) ∷ (3, answer.Ok) ∷ (2, answer.Ok) ∷ [] }
{}

/// A device fails in the boot, before the incarnation is raised or after it: the server stays stopped, tells nobody, and the
/// line is answered so.
pub fn a_boot_fails()
    ensures before { ((comeback_after (boot_acts (Fault Before))).servers 1).life ≡ record { running = false; inc = 1 } }
    ensures after { ((comeback_after (boot_acts (Fault After))).servers 1).life ≡ record { running = false; inc = 2 } }
    ensures records { ((comeback_after (boot_acts (Fault After))).servers 1).log.records ≡ crowd_log.records ++ Inc 2 ∷ [] }
    ensures told { length (comeback_after (boot_acts (Fault After))).sent ≡ 3 }
    ensures answered { (comeback_after (seen_acts (Fault Before) 3)).answers ≡ (3, answer.Failed) ∷ (2, answer.Ok) ∷ [] }
{}

/// A server that booted before anyone wanted the Leave of its former incarnation wants that Leave itself, then its Join, and
/// then nothing. It is In as itself once its Join is applied. The other servers still hold its links alone.
pub fn a_server_joins_again()
    ensures leaves { wants_of_1 (comeback_after awake_acts) ≡ leave_of_1 ∷ [] }
    ensures joins { wants_of_1 (comeback_after left_acts) ≡ join_of_1 ∷ [] }
    ensures rests { wants_of_1 (comeback_after joined_acts) ≡ [] }
    ensures chosen { chosen_log comeback (comeback_after joined_acts) ≡ crowd_disk ∷ leave_of_1 ∷ join_of_1 ∷ [] }
    ensures out { is_in (chosen_state comeback (comeback_after left_acts)) 1 2 ≡ false }
    ensures back { is_in (chosen_state comeback (comeback_after joined_acts)) 1 2 ≡ true }
    ensures applied { ((comeback_after joined_acts).servers 1).log.applied ≡ crowd_disk ∷ leave_of_1 ∷ join_of_1 ∷ [] }
    ensures first { is_alone_on (chosen_state comeback (comeback_after joined_acts)) 0 (cell_at 0) ≡ true }
    ensures second { is_alone_on (chosen_state comeback (comeback_after joined_acts)) 2 (cell_at 1) ≡ true }
{}
