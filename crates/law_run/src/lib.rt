//! The law of lock step: the events of every legal history of a sound script are a run of the plain machine, and the contents
//! are its disks', also where servers come back with nothing.
//!
//! To the layer above it promises the whole law: agreement, the two-copy rule, marks before puts, the rules of requests, of moves, of who is
//! Out and of proposals, the run, the contents and the snapshots. It speaks of definitions alone and knows nothing of code.
#![tactic(auto)]

ghost use Rattle.std.specs.Prelude.{◌≡◌, ℕ, List, Ok};
ghost use Rattle.petal_script.specs.Script.{script_of};
ghost use Rattle.spec_history.specs.Claims.{AreHeld, Keeps, Law, machine_after};
ghost use Rattle.spec_history.specs.Events.{IsRunOf, events_of};
ghost use Rattle.law_state.specs.Histories.{AreSteps, IsSound, Record, Script, setting_of, start, world_after};

/// What the machine is told of a legal history of a sound script is a run of it: each event is allowed where it is told.
pub fn events_are_a_run()
    ensures { (script : Script) (records : List Record) → IsSound script → AreSteps script records → IsRunOf (events_of script records) }
{}

/// After it, the machine has the disks of the chosen state, each with the contents of the world and of its snapshots, by the stores that
/// count and but for blocks of links that are Lost, and no other.
pub fn contents_are_the_machines()
    ensures { (script : Script) (records : List Record) → IsSound script → AreSteps script records
        → AreHeld (setting_of script) (world_after (setting_of script) (start (setting_of script)) records) (machine_after (events_of script records)).disks }
{}

/// The whole law: every legal history of a sound script keeps agreement, the two-copy rule, that of empty stores and those of requests and
/// of moves, has leads put only on marked blocks, is a run of the plain machine, has the machine's contents, and never changes a snapshot;
/// who is Out has stopped, and who has started a ballot for a `Caught`, or wants to report to a fence, has nothing under way that this holds.
pub fn every_history_keeps_the_law()
    ensures { Law }
{}

/// A script that is read is sound, so the whole law holds of every legal history of it.
pub fn read_scripts_are_sound()
    ensures sound { (text : List ℕ) (script : Script) → script_of text ≡ Ok script → IsSound script }
    ensures law { (text : List ℕ) (script : Script) (records : List Record) → script_of text ≡ Ok script → AreSteps script records → Keeps script records }
{}
