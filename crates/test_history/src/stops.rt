//! The operator stops a server.

ghost use Rattle.std.specs.Prelude.{◌≡◌, [], ◌∷◌, length, false};
ghost use Rattle.petal_msg.specs.declared.letter.Actor.TheVariants as actor;
ghost use Rattle.script_lines.specs.declared.answer.Answer.TheVariants as answer;
ghost use Rattle.spec_rules.specs.World.{MayStep, MayStop};
ghost use Rattle.spec_rules.specs.declared.step.Step.TheVariants.{Glance, Stop};
ghost use Rattle.test_history.specs.Stops.{asked_acts, asked_again_acts, seen_acts, seen_again_acts, stopped_acts, trio, trio_after};

/// The operator's line stops a server that runs: its step is allowed, after which the server has no job, and both others are
/// told. A glance at it follows, and its letter answers the line.
pub fn a_line_stops_a_server()
    ensures may { MayStep trio (trio_after asked_acts) (actor.Server 1) Stop }
    ensures stopped { ((trio_after stopped_acts).servers 1).life.running ≡ false }
    ensures told { length (trio_after stopped_acts).sent ≡ 2 }
    ensures glance { MayStep trio (trio_after stopped_acts) (actor.Server 1) (Glance 3 0) }
    ensures answered { (trio_after seen_acts).answers ≡ (3, answer.Ok) ∷ [] }
{}

/// A line that stops a stopped server allows no stop, changes nothing at it, and is answered by a glance at once.
pub fn a_stop_of_a_stopped_server_does_nothing()
    ensures may_not { MayStop (trio_after asked_again_acts) 1 → ⊥ }
    ensures glance { MayStep trio (trio_after asked_again_acts) (actor.Server 1) (Glance 4 0) }
    ensures same { (trio_after seen_again_acts).servers 1 ≡ (trio_after seen_acts).servers 1 }
    ensures answered { (trio_after seen_again_acts).answers ≡ (4, answer.Ok) ∷ (3, answer.Ok) ∷ [] }
    ensures told { length (trio_after seen_again_acts).sent ≡ 4 }
{}
