//! The operator waits until all is settled.

ghost use Rattle.std.specs.Prelude.{◌≡◌, [], ◌∷◌, true};
ghost use Rattle.petal_msg.specs.declared.letter.Actor.TheVariants as actor;
ghost use Rattle.script_lines.specs.declared.answer.Answer.TheVariants as answer;
ghost use Rattle.spec_rules.specs.World.{MayStep, round_of};
ghost use Rattle.spec_rules.specs.declared.step.Step.TheVariants.{Glance};
ghost use Rattle.spec_history.specs.Examples.{chain_at, marks_at};
ghost use Rattle.test_history.specs.Returned.{mending, stale_0};
ghost use Rattle.test_history.specs.Settles.{calm_after, filled_after, full_acts, narrow, round_acts, settle_acts, told_acts, waiting_after};

/// A copy finds no slot at the server that returned: it ends, its block stays marked, and a glance at the holder answers the
/// operator's line so.
pub fn a_copy_finds_no_slot()
    ensures chain { chain_at (filled_after full_acts) 1 0 ≡ [] }
    ensures marked { marks_at (filled_after full_acts) 0 ≡ stale_0 ∷ [] }
    ensures closed { ((filled_after full_acts).servers 0).own.copies.pending ≡ [] }
    ensures full { ((filled_after full_acts).servers 0).own.copies.full ≡ true }
    ensures glance { MayStep narrow (filled_after settle_acts) (actor.Server 0) (Glance 3 1) }
    ensures answered { (filled_after told_acts).answers ≡ (3, answer.NoSpace) ∷ [] }
{}

/// A round that has shown each server ends the line where all is settled. While a link is held alone whose two servers are In,
/// another round begins.
pub fn a_settle_goes_round_by_round()
    ensures waits { (waiting_after round_acts).answers ≡ [] }
    ensures round { round_of ((waiting_after round_acts).clients 8).asked ≡ 2 }
    ensures answered { (calm_after round_acts).answers ≡ (3, answer.Ok) ∷ [] }
{}
