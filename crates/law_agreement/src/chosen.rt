//! What the records on all state devices tell of the chosen log: a place's command is the one that a majority accepted in one
//! ballot, the log is the longest run of such places, and with more records it only grows. It holds of any records in which no place
//! has two chosen commands.

ghost use Rattle.std.specs.Prelude.{◌≡◌, ◌≤◌, ◌+◌, ◌++◌, ℕ, List, length, slice_get, Some, None};
ghost use Rattle.petal_command.specs.declared.command.Command.{Command};
ghost use Rattle.spec_paxos.specs.Chosen.{Devices, IsChosenBy, chosen_at, chosen_log};
ghost use Rattle.law_agreement.specs.Single.{IsSingle, IsKept};

/// A command is told to be chosen exactly where a majority has accepted it in one ballot.
pub fn majorities_choose()
    ensures told { (n : ℕ) (devices : Devices) (place : ℕ) (c : Command) → chosen_at n devices place ≡ Some c → IsChosenBy n devices place c }
    ensures tells { (n : ℕ) (devices : Devices) (place : ℕ) (c : Command) → IsSingle n devices → IsChosenBy n devices place c
        → chosen_at n devices place ≡ Some c }
{}

/// The log has the command of each of its places, ends before the first place without one, and has each place before.
pub fn log_is_the_longest_run()
    ensures tells { (n : ℕ) (devices : Devices) (i : ℕ) (c : Command) → slice_get (chosen_log n devices) i ≡ Some c → chosen_at n devices (i + 1) ≡ Some c }
    ensures ends { (n : ℕ) (devices : Devices) → chosen_at n devices (length (chosen_log n devices) + 1) ≡ None }
    ensures has { (n : ℕ) (devices : Devices) (i : ℕ) (c : Command) → i ≤ length (chosen_log n devices) → chosen_at n devices (i + 1) ≡ Some c
        → slice_get (chosen_log n devices) i ≡ Some c }
    ensures prefix { (n : ℕ) (devices : Devices) (run : List Command)
        → ((i : ℕ) (c : Command) → slice_get run i ≡ Some c → chosen_at n devices (i + 1) ≡ Some c)
        → (later : List Command) × (chosen_log n devices ≡ run ++ later) }
{}

/// What is chosen stays chosen, and the log only grows, where each record is kept.
pub fn log_only_grows()
    ensures chosen { (n : ℕ) (devices later : Devices) (place : ℕ) (c : Command) → IsKept devices later → IsChosenBy n devices place c
        → IsChosenBy n later place c }
    ensures log { (n : ℕ) (devices later : Devices) → IsKept devices later → IsSingle n later
        → (more : List Command) × (chosen_log n later ≡ chosen_log n devices ++ more) }
{}
