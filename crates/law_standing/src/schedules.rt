//! Two schedules, computed.

ghost use Rattle.std.specs.Prelude.{◌≡◌, ℕ, true, List, [], ◌∷◌, Option, Some, None, slice_get};
ghost use Rattle.petal_command.specs.declared.ballot.Ballot.{Ballot};
ghost use Rattle.petal_command.specs.declared.command.Command.{Command};
ghost use Rattle.law_standing.specs.Runs.{three, three_lists_one, first, second, third, takes_over, before_third, with_third};
ghost use Rattle.spec_paxos.specs.standing.Letters.{Prepare, Promise, Accept, Accepted, Refuse};
ghost use Rattle.spec_paxos.specs.standing.Proposer.{Standing, asking};
ghost use Rattle.spec_paxos.specs.standing.Schedule.{sent, run, begin};

/// Server 0 proposes x for place 1, and only it accepts that. Server 1 then starts a ballot from place 1 on: it stands for all places,
/// proposes x again for place 1, whatever it wants, and y for place 2. The older ballot is refused from then on.
pub fn a_later_ballot_takes_over()
    ensures stands { (x y : Command) → (run three (takes_over x y) begin).proposers 1
        ≡ Some (Standing (record { from = 1; ballot = second; until = None; reported = (1, first, x) ∷ [] }) true (Some (asking 2 y))) }
    ensures letters { (x y : Command) → (run three (takes_over x y) begin).letters
        ≡ sent 0 (Refuse 1 first second) ∷ sent 1 (Accept 2 second y) ∷ sent 1 (Accept 1 second x)
        ∷ sent 1 (Promise 1 second None []) ∷ sent 0 (Promise 1 second None ((1, first, x) ∷ [])) ∷ sent 1 (Prepare 1 second)
        ∷ sent 0 (Accepted 1 first) ∷ sent 0 (Accept 1 first x)
        ∷ sent 2 (Promise 1 first None []) ∷ sent 0 (Promise 1 first None []) ∷ sent 0 (Prepare 1 first) ∷ [] }
{}

/// Where a promise lists one acceptance at most: place 2 has c chosen in the second ballot, and server 0 still has a of the first one
/// there. The third ballot hears server 0 up to place 2 and server 1 up to place 1, so it proposes nothing for place 2.
pub fn the_least_until_counts()
    ensures { (a b c d e : Command) → (run three_lists_one (with_third a b c d e) begin).letters
        ≡ sent 2 (Accept 1 third b)
        ∷ sent 1 (Promise 1 third (Some 1) ((1, second, b) ∷ [])) ∷ sent 0 (Promise 1 third (Some 2) ((2, first, a) ∷ [])) ∷ sent 2 (Prepare 1 third)
        ∷ (run three_lists_one (before_third a b c d) begin).letters }
{}
