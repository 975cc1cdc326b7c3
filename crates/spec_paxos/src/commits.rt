//! What a commit keeps: of the records of one place each, and of those of standing ballots.

ghost use Rattle.std.specs.Prelude.{◌≡◌, ◌≤◌, ◌⊎◌, ℕ, true, List, Some, is_some};
ghost use Rattle.petal_command.specs.declared.ballot.Ballot.{Ballot};
ghost use Rattle.petal_command.specs.declared.command.Command.{Command};
ghost use Rattle.spec_paxos.specs.Acceptor.{rank};
ghost use Rattle.spec_paxos.specs.Kept.{AddsNothing, Commits, committed, adds_nothing, known_at, acceptor_of, inc_of};
ghost use Rattle.spec_paxos.specs.Member.{In};
ghost use Rattle.spec_paxos.specs.declared.record.StateRecord.{StateRecord};
ghost use Rattle.spec_paxos.specs.declared.record.StateRecord.TheVariants.{Accepted, Chosen};
ghost use Rattle.spec_paxos.specs.standing.Kept as standing;

/// The test tells which record changes nothing, and so which records there are after a commit.
pub fn commit_is_told()
    ensures tested { (records : List StateRecord) (entry : StateRecord) → adds_nothing records entry ≡ true → AddsNothing records entry }
    ensures untested { (records : List StateRecord) (entry : StateRecord) → AddsNothing records entry → adds_nothing records entry ≡ true }
    ensures after { (old new : List StateRecord) (entry : StateRecord) → Commits old new entry → new ≡ committed old entry }
{}

/// A commit loses no record and no known place, and an acceptance that is committed stands.
pub fn commit_keeps()
    ensures records { (r : StateRecord) (records : List StateRecord) (entry : StateRecord) → In r records → In r (committed records entry) }
    ensures votes { (records : List StateRecord) (place : ℕ) (b : Ballot) (c : Command) → In (Accepted place b c) (committed records (Accepted place b c)) }
    ensures known { (records : List StateRecord) (entry : StateRecord) (q : ℕ) → is_some (known_at records q) ≡ true
        → is_some (known_at (committed records entry) q) ≡ true }
    ensures from { (records : List StateRecord) (entry : StateRecord) (q : ℕ) (c : Command) → known_at (committed records entry) q ≡ Some c
        → (known_at records q ≡ Some c) ⊎ (entry ≡ Chosen q c) }
{}

/// The same of the records of standing ballots.
pub fn standing_commit_is_told()
    ensures tested { (records : List standing.StateRecord) (entry : standing.StateRecord) → standing.adds_nothing records entry ≡ true
        → standing.AddsNothing records entry }
    ensures untested { (records : List standing.StateRecord) (entry : standing.StateRecord) → standing.AddsNothing records entry
        → standing.adds_nothing records entry ≡ true }
    ensures after { (old new : List standing.StateRecord) (entry : standing.StateRecord) → standing.Commits old new entry
        → new ≡ standing.committed old entry }
{}

/// The same of the records of standing ballots; and a promise that is committed covers every place from its own on.
pub fn standing_commit_keeps()
    ensures records { (r : standing.StateRecord) (records : List standing.StateRecord) (entry : standing.StateRecord) → In r records
        → In r (standing.committed records entry) }
    ensures votes { (records : List standing.StateRecord) (place : ℕ) (b : Ballot) (c : Command)
        → In (standing.Accepted place b c) (standing.committed records (standing.Accepted place b c)) }
    ensures promises { (records : List standing.StateRecord) (first : ℕ) (b : Ballot) (place : ℕ) → first ≤ place
        → rank (Some b) ≤ rank (standing.promised_at (standing.committed records (standing.PromiseFrom first b)) place) }
    ensures known { (records : List standing.StateRecord) (entry : standing.StateRecord) (q : ℕ) → is_some (standing.known_at records q) ≡ true
        → is_some (standing.known_at (standing.committed records entry) q) ≡ true }
    ensures from { (records : List standing.StateRecord) (entry : standing.StateRecord) (q : ℕ) (c : Command)
        → standing.known_at (standing.committed records entry) q ≡ Some c → (standing.known_at records q ≡ Some c) ⊎ (entry ≡ standing.Chosen q c) }
{}
