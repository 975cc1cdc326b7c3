//! What is plain of histories.

ghost use Rattle.std.specs.Prelude.{◌≡◌, List, [], ◌++◌, Some};
ghost use Rattle.script_lines.specs.declared.script.Script.{Script};
ghost use Rattle.spec_rules.specs.Agreement.{HasSchedule};
ghost use Rattle.spec_rules.specs.World.{Setting, start};
ghost use Rattle.spec_history.specs.Claims.{Keeps};
ghost use Rattle.spec_history.specs.Events.{IsRunOf, events_of};
ghost use Rattle.spec_history.specs.Legal.{IsLegal};
ghost use Rattle.spec_history.specs.Steps.{AreSteps};
ghost use Rattle.spec_history.specs.Text.{text_of};
ghost use Rattle.spec_history.specs.declared.record.Record.{Record};

/// A history without steps is legal for each script; the machine is told nothing of it, which is a run; and nothing is
/// printed.
pub fn a_history_without_steps()
    ensures legal { (script : Script) → IsLegal script [] }
    ensures told { (script : Script) → events_of script [] ≡ Some [] }
    ensures run { (script : Script) → IsRunOf (events_of script []) }
    ensures text { text_of [] ≡ [] }
{}

/// The beginning of a list of allowed steps is one, and that of a legal history is legal.
pub fn a_beginning_is_legal()
    ensures steps { (script : Script) (prefix suffix : List Record) → AreSteps script (prefix ++ suffix) → AreSteps script prefix }
    ensures legal { (script : Script) (prefix suffix : List Record) → IsLegal script (prefix ++ suffix) → IsLegal script prefix }
{}

/// What every legal history is to keep holds of the one without steps.
pub fn the_start_keeps_the_rules()
    ensures { (script : Script) → Keeps script [] }
{}

/// The start is that of a schedule of agreement in which nothing happened.
pub fn the_start_has_a_schedule()
    ensures { (setting : Setting) → HasSchedule setting.servers (start setting) }
{}
