//! From the actors' own lists to one legal history: a list of all actors' records, in which each actor's are steps of its own from the
//! start and each is joined to the others, is legal.
//!
//! To the layers above it promises this of every such list, and that the list can be made record by record. It speaks of definitions
//! alone, and knows nothing of code.
#![tactic(auto)]

ghost use Rattle.std.specs.Prelude.{◌≡◌, ◌<◌, ◌++◌, ◌∷◌, [], ℕ, List, None, Some, slice_get};
ghost use Rattle.petal_msg.specs.declared.letter.Actor.TheVariants.{Client};
ghost use Rattle.petal_msg.specs.declared.letter.Letter.{Letter};
ghost use Rattle.script_lines.specs.declared.request.Line.{Line};
ghost use Rattle.script_lines.specs.declared.script.Script.{Script};
ghost use Rattle.spec_rules.specs.Lists.{In};
ghost use Rattle.spec_rules.specs.World.{Deed, IsAnswered, IsFree, lines_of, setting_of, start};
ghost use Rattle.spec_rules.specs.declared.step.Step.TheVariants.{Call};
ghost use Rattle.spec_history.specs.Controls.{errand_along, no_errand};
ghost use Rattle.spec_history.specs.Legal.{IsLegal, ObeyScript};
ghost use Rattle.spec_history.specs.Steps.{AreSteps, world_after};
ghost use Rattle.spec_history.specs.declared.record.Record.{Record};
ghost use Rattle.law_merge.specs.Alone.{client_along, of_client, of_server, server_along};
ghost use Rattle.law_merge.specs.Called.{IsOpenOrAnswered};
ghost use Rattle.law_merge.specs.Hands.{hand_along};
ghost use Rattle.law_merge.specs.Joined.{AreJoinedIn, IsJoined, MakeOneRun};
ghost use Rattle.law_merge.specs.OwnLines.{KeepsToScript, TakeTurnsIn};
ghost use Rattle.law_merge.specs.Phases.{HaveDone};

/// Where the actors' own records make one run, they are a legal history.
pub fn one_run_is_legal()
    ensures { (script : Script) (records : List Record) → MakeOneRun script records → IsLegal script records }
{}

/// A letter that stands in a record was sent.
pub fn a_recorded_letter_was_sent()
    ensures { (script : Script) (records : List Record) (own : Record) (letter : Letter) → AreSteps script records → In own records
        → In letter own.sent → In letter (world_after (setting_of script) (start (setting_of script)) records).sent }
{}

/// A server that is not at its own hand by its own records is not at the operator's.
pub fn a_server_is_free_by_its_own_records()
    ensures { (script : Script) (records : List Record) (n : ℕ) → hand_along None (of_server n records) ≡ None
        → IsFree (world_after (setting_of script) (start (setting_of script)) records) n }
{}

/// What a server has at its own hand by its own records is at the operator's, where each step comes in its line's turn.
pub fn a_servers_own_hand_is_the_operators()
    ensures { (script : Script) (records : List Record) (n : ℕ) (deed : Deed) → TakeTurnsIn script records
        → hand_along None (of_server n records) ≡ Some deed → (world_after (setting_of script) (start (setting_of script)) records).control.hand
        ≡ Some (n, deed) }
{}

/// Joined records with one more that is joined to them are joined.
pub fn joined_records_grow()
    ensures { (script : Script) (prefix : List Record) (own : Record) → AreJoinedIn script prefix
        → IsJoined (setting_of script) (world_after (setting_of script) (start (setting_of script)) prefix)
        (errand_along (setting_of script) (start (setting_of script)) no_errand prefix) own
        → AreJoinedIn script (prefix ++ own ∷ []) }
{}

/// What an actor is in the world is what its own records make of it.
pub fn an_actor_is_what_its_own_records_make()
    ensures server { (script : Script) (records : List Record) (n : ℕ) → (world_after (setting_of script) (start (setting_of script)) records).servers n
        ≡ server_along (setting_of script) n ((start (setting_of script)).servers n) (of_server n records) }
    ensures client { (script : Script) (records : List Record) (c : ℕ) → (world_after (setting_of script) (start (setting_of script)) records).clients c
        ≡ client_along (setting_of script) c ((start (setting_of script)).clients c) (of_client c records) }
{}

/// A line that was called is open, or it was answered: by the record of its call, and by how many lines its client has called.
pub fn a_called_line_is_open_or_answered()
    ensures recorded { (script : Script) (records : List Record) (own : Record) (caller number : ℕ) → AreSteps script records → In own records
        → own.actor ≡ Client caller → own.step ≡ Call number
        → IsOpenOrAnswered (world_after (setting_of script) (start (setting_of script)) records) caller number }
    ensures counted { (script : Script) (records : List Record) (caller place : ℕ) (line : Line) → AreSteps script records
        → slice_get (lines_of script.lines caller) place ≡ Some line
        → place < ((world_after (setting_of script) (start (setting_of script)) records).clients caller).seq
        → IsOpenOrAnswered (world_after (setting_of script) (start (setting_of script)) records) caller line.number }
{}

/// Where each client, by its own records of a prefix, has done the phases before one, each line of theirs was answered from then on.
pub fn ended_phases_are_answered()
    ensures { (script : Script) (prefix suffix : List Record) (phase : ℕ) (line : Line) → AreSteps script (prefix ++ suffix)
        → HaveDone script phase prefix → In line script.lines → line.phase < phase
        → IsAnswered (world_after (setting_of script) (start (setting_of script)) (prefix ++ suffix)).answers line.number }
{}

/// Where each server's own records keep to the lines that name it, and what a line gives comes while it is the operator's last one, the
/// records obey the script.
pub fn own_turns_obey_the_script()
    ensures { (script : Script) (records : List Record) → ((n : ℕ) → KeepsToScript script n (of_server n records)) → TakeTurnsIn script records
        → ObeyScript script records }
{}
