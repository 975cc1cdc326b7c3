//! The law of agreement: over every schedule, two commands that are chosen for one place are equal ("The Part-Time
//! Parliament", 1998; "Paxos Made Simple", 2001).
//!
//! To the layers above it promises this and what goes with it: what is chosen stays chosen, only what a server wanted is
//! chosen, what is told of a place is what was chosen there, and what a letter says stands on its sender's device; and what the records
//! on all state devices tell of the chosen log (`chosen`). It speaks of the definitions of `spec_paxos` alone and knows nothing of code.
#![tactic(auto)]

ghost use Rattle.std.specs.Prelude.{◌≡◌, ◌≤◌, ◌<◌, ◌+◌, ◌++◌, ℕ, Bool, true, List, [], ◌∷◌, Option, Some};
ghost use Rattle.petal_command.specs.declared.ballot.Ballot.{Ballot};
ghost use Rattle.petal_command.specs.declared.command.Command.{Command};
ghost use Rattle.petal_command.specs.declared.pax.Pax.TheVariants.{Promise, Accepted, Chosen};
ghost use Rattle.spec_paxos.specs.Member.{In};
ghost use Rattle.spec_paxos.specs.Quorum.{IsMajority};
ghost use Rattle.spec_paxos.specs.Acceptor.{rank};
ghost use Rattle.spec_paxos.specs.Schedule.{Sent, sent, vote, World, Event, Starts, Handed, Boots, Goes, StopsAfter, run, begin, IsChosen, IsWanted};

mod chosen;

pub use chosen::{log_is_the_longest_run, log_only_grows, majorities_choose};

/// Two majorities share a server.
pub fn majorities_meet()
    ensures { (n : ℕ) (p q : ℕ → Bool) → IsMajority n p → IsMajority n q → (s : ℕ) × (s < n) × (p s ≡ true) × (q s ≡ true) }
{}

/// In every schedule of n servers, two commands chosen for one place are equal.
pub fn one_value()
    ensures { (n : ℕ) (events : List Event) (place : ℕ) (v u : Command) → n ≤ 256 → IsChosen n (run n events begin) place v
        → IsChosen n (run n events begin) place u → v ≡ u }
{}

/// What is chosen stays chosen, and some server wanted it.
pub fn chosen_stays()
    ensures lasting { (n : ℕ) (early late : List Event) (place : ℕ) (v : Command) → n ≤ 256 → IsChosen n (run n early begin) place v
        → IsChosen n (run n (early ++ late) begin) place v }
    ensures wanted { (n : ℕ) (events : List Event) (place : ℕ) (v : Command) → n ≤ 256 → IsChosen n (run n events begin) place v → IsWanted events place v }
{}

/// What a letter tells to be chosen, and what a state device knows to be chosen, is chosen.
pub fn told_is_chosen()
    ensures letters { (n : ℕ) (events : List Event) (from place : ℕ) (v : Command) → n ≤ 256 → In (sent from (Chosen place v)) (run n events begin).letters
        → IsChosen n (run n events begin) place v }
    ensures devices { (n : ℕ) (events : List Event) (s place : ℕ) (v : Command) → n ≤ 256 → (run n events begin).known s place ≡ Some v
        → IsChosen n (run n events begin) place v }
{}

/// A promise or an acceptance in a letter ever sent stands on its sender's device.
pub fn letters_stand()
    ensures promises { (n : ℕ) (events : List Event) (from place : ℕ) (b : Ballot) (before : Option (Ballot × Command)) → n ≤ 256
        → In (sent from (Promise place b before)) (run n events begin).letters → rank (Some b) ≤ rank ((run n events begin).acceptors from place).promised }
    ensures acceptances { (n : ℕ) (events : List Event) (from place : ℕ) (b : Ballot) → n ≤ 256
        → In (sent from (Accepted place b)) (run n events begin).letters → (v : Command) × In (vote from place b v) (run n events begin).votes }
{}

/// The law speaks of something: three servers choose a command for place 1, though one of them stops after its commit and
/// boots again, and the third learns of it.
pub fn some_value()
    ensures { (v : Command) → (run 3 (Starts 0 1 1 v Goes ∷ Handed 0 0 Goes ∷ Handed 1 1 Goes ∷ Handed 0 0 Goes ∷ Handed 1 0 Goes ∷ Handed 0 0 Goes
        ∷ Handed 1 1 StopsAfter ∷ Boots 1 Goes ∷ Handed 1 1 Goes ∷ Handed 0 0 Goes ∷ Handed 1 0 Goes ∷ Handed 0 2 Goes ∷ []) begin).known 2 1 ≡ Some v }
{}
