//! Runs, and the one induction over them; and of what a job is made: a few effects on the server's own part, and letters, each with what was
//! so when it was had or said.
//!
//! To the laws above it promises that a run has what the first world has and each record keeps; that a job keeps what each of its effects
//! keeps; what is known of a run, of its next record, and of where a letter was sent; and where entries move. It knows nothing of what any
//! law says.
#![tactic(auto)]

ghost use Rattle.std.specs.Prelude.{ℕ, List};
ghost use Rattle.law_jobs.specs.ComingCells.{AreComing};
ghost use Rattle.law_jobs.specs.Effects.{Becomes};
ghost use Rattle.law_jobs.specs.Sayings.{Says};
ghost use Rattle.law_state.specs.Histories.{AreSteps, IsSound, Record, Script, setting_of, start, world_after};
ghost use Rattle.law_steps.specs.Did.{Did};
ghost use Rattle.law_steps.specs.DidStep.{Handled, own_place};
ghost use Rattle.spec_rules.specs.Lists.{In};
ghost use Rattle.spec_rules.specs.Server.{JobResult, Post};
ghost use Rattle.spec_rules.specs.World.{Setting, World};

/// What a server's own part becomes by a job, it becomes by effects, one after the other, each of which the server may have had, and all on one
/// cell, if they are on any.
pub fn a_job_is_a_list_of_effects()
    ensures { (setting : Setting) (w : World) (n : ℕ) (done : JobResult) → Did (Handled w n) (own_place setting w n) (w.servers n).own done
        → Becomes (Handled w n) (own_place setting w n) (w.servers n).own done.own }
{}

/// Each letter of a job is one that the server may say.
pub fn a_job_says_what_it_may()
    ensures { (setting : Setting) (w : World) (n : ℕ) (done : JobResult) → Did (Handled w n) (own_place setting w n) (w.servers n).own done
        → (post : Post) → In post done.posts → Says (Handled w n) (own_place setting w n) (w.servers n).own done.own post }
{}

/// After every legal history, each entry that was ever sent so that it moves is of a cell whose region was on its way at the letter's
/// revision, and so is each operation that was opened for one, at the revision at which it was.
pub fn entries_move_to_cells_on_their_way()
    ensures { (script : Script) (records : List Record) → IsSound script → AreSteps script records
        → AreComing (setting_of script) (world_after (setting_of script) (start (setting_of script)) records) }
{}
