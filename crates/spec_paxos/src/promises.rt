//! What a promise for every place from a stated one on covers, and what it lists.

ghost use Rattle.std.specs.Prelude.{◌≡◌, ◌≤◌, ℕ, List};
ghost use Rattle.spec_paxos.specs.Acceptor.{rank};
ghost use Rattle.spec_paxos.specs.standing.Acceptor.{listed, until_of};
ghost use Rattle.spec_paxos.specs.standing.Kept.{StateRecord, promised_at, promised_from, next_accepted};
ghost use Rattle.spec_paxos.specs.standing.Listing.{IsNext, IsListing};

/// The highest ballot from a place on is the highest one of all places from it on.
pub fn highest_is_of_one_place()
    ensures of_all { (records : List StateRecord) (first place : ℕ) → first ≤ place
        → rank (promised_at records place) ≤ rank (promised_from records first) }
    ensures of_one { (records : List StateRecord) (first : ℕ)
        → (place : ℕ) × (first ≤ place) × (rank (promised_at records place) ≡ rank (promised_from records first)) }
{}

/// The next acceptance is that of the least place.
pub fn next_is_the_least_place()
    ensures { (records : List StateRecord) (first : ℕ) → IsNext records first (next_accepted records first) }
{}

/// A promise lists each acceptance of its range, and none else.
pub fn a_promise_lists_its_range()
    ensures { (records : List StateRecord) (first most : ℕ) → 1 ≤ most
        → IsListing records first most (until_of records (listed records first most)) (listed records first most) }
{}
