//! What the tests for equality tell.

ghost use Rattle.std.specs.Prelude.{◌≡◌, true};
ghost use Rattle.petal_command.specs.declared.ballot.Ballot.{Ballot};
ghost use Rattle.petal_command.specs.declared.command.Command.{Command};
ghost use Rattle.petal_command.specs.Ballot.{same};
ghost use Rattle.petal_command.specs.Same.{same_command};

/// Two ballots or commands are found to be one exactly where they are equal.
pub fn tests_tell_equality()
    ensures ballots { (a b : Ballot) → same a b ≡ true → a ≡ b }
    ensures commands { (a b : Command) → same_command a b ≡ true → a ≡ b }
    ensures one_command { (a b : Command) → a ≡ b → same_command a b ≡ true }
{}
