//! The law of agreement for standing ballots, in which one promise covers every place from a stated one on: over every
//! schedule, two commands that are chosen for one place are equal ("The Part-Time Parliament", 1998; "Paxos Made Simple", 2001).
//!
//! To the layers above it promises this and what goes with it: what is chosen stays chosen, only what a server wanted is
//! chosen, what is told of a place is what was chosen there, and what a letter says stands on its sender's device. It speaks of the
//! definitions of `spec_paxos` alone and knows nothing of code.
#![tactic(auto)]

ghost use Rattle.std.specs.Prelude.{◌≡◌, ◌≤◌, ◌++◌, ℕ, List, [], ◌∷◌, Option, Some};
ghost use Rattle.petal_command.specs.declared.ballot.Ballot.{Ballot};
ghost use Rattle.petal_command.specs.declared.command.Command.{Command};
ghost use Rattle.law_standing.specs.Runs.{three};
ghost use Rattle.spec_paxos.specs.Member.{In};
ghost use Rattle.spec_paxos.specs.Acceptor.{rank};
ghost use Rattle.spec_paxos.specs.standing.Letters.{Report, Promise, Accepted, Chosen};
ghost use Rattle.spec_paxos.specs.standing.Kept.{promised_at, known_at};
ghost use Rattle.spec_paxos.specs.standing.Kept.{Accepted as Vote};
ghost use Rattle.spec_paxos.specs.standing.Schedule.{Setting, Fits, Event, Starts, Proposes, Handed, Boots, Goes, StopsAfter, sent, run, begin};
ghost use Rattle.spec_paxos.specs.standing.Schedule.{IsChosen, IsWanted};

mod schedules;

pub use law_agreement::majorities_meet;
pub use schedules::{a_later_ballot_takes_over, the_least_until_counts};

/// In every schedule, two commands chosen for one place are equal.
pub fn one_value()
    ensures { (o : Setting) (events : List Event) (place : ℕ) (v u : Command) → Fits o → IsChosen o.servers (run o events begin) place v
        → IsChosen o.servers (run o events begin) place u → v ≡ u }
{}

/// What is chosen stays chosen, and some server wanted it.
pub fn chosen_stays()
    ensures lasting { (o : Setting) (early late : List Event) (place : ℕ) (v : Command) → Fits o → IsChosen o.servers (run o early begin) place v
        → IsChosen o.servers (run o (early ++ late) begin) place v }
    ensures wanted { (o : Setting) (events : List Event) (place : ℕ) (v : Command) → Fits o → IsChosen o.servers (run o events begin) place v
        → IsWanted events place v }
{}

/// What a letter tells to be chosen, and what a state device knows to be chosen, is chosen.
pub fn told_is_chosen()
    ensures letters { (o : Setting) (events : List Event) (server place : ℕ) (v : Command) → Fits o
        → In (sent server (Chosen place v)) (run o events begin).letters → IsChosen o.servers (run o events begin) place v }
    ensures devices { (o : Setting) (events : List Event) (server place : ℕ) (v : Command) → Fits o
        → known_at ((run o events begin).devices server) place ≡ Some v → IsChosen o.servers (run o events begin) place v }
{}

/// A promise or an acceptance in a letter ever sent stands on its sender's device: the promise for every place from its own on, and
/// with it the acceptances that it lists.
pub fn letters_stand()
    ensures promises { (o : Setting) (events : List Event) (server first : ℕ) (b : Ballot) (until : Option ℕ) (listed : List Report) → Fits o
        → In (sent server (Promise first b until listed)) (run o events begin).letters → (place : ℕ) → first ≤ place
        → rank (Some b) ≤ rank (promised_at ((run o events begin).devices server) place) }
    ensures lists { (o : Setting) (events : List Event) (server first : ℕ) (b : Ballot) (until : Option ℕ) (listed : List Report) → Fits o
        → In (sent server (Promise first b until listed)) (run o events begin).letters → (r : Report) → In r listed
        → In (Vote r.0 r.1 r.2) ((run o events begin).devices server) }
    ensures acceptances { (o : Setting) (events : List Event) (server place : ℕ) (b : Ballot) → Fits o
        → In (sent server (Accepted place b)) (run o events begin).letters → (v : Command) × In (Vote place b v) ((run o events begin).devices server) }
{}

/// The law speaks of something: three servers choose a command for place 1, though one of them stops after its commit and
/// boots again, and the third learns of it.
pub fn some_value()
    ensures { (v : Command) → known_at ((run three (Starts 0 1 1 Goes ∷ Handed 0 0 Goes ∷ Handed 1 1 Goes ∷ Handed 0 0 Goes ∷ Handed 1 0 Goes
        ∷ Proposes 0 1 v ∷ Handed 0 0 Goes ∷ Handed 1 1 StopsAfter ∷ Boots 1 Goes ∷ Handed 1 1 Goes ∷ Handed 0 0 Goes ∷ Handed 1 0 Goes
        ∷ Handed 0 2 Goes ∷ []) begin).devices 2) 1 ≡ Some v }
{}
