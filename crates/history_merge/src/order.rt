//! The order of a history.

ghost use Rattle.std.specs.Prelude.{◌≡◌};
ghost use Rattle.history_merge.specs.Order.{actor_cmp, record_cmp};
ghost use Rattle.history_merge.specs.Recorded.{sender_cmp};

use petal_base::Stamp;
use petal_msg::{Actor, Letter};
use spec_history::Record;
use std::cmp::Ordering;

/// Servers stand before clients.
fn compare_actors(one: Actor, other: Actor) -> Ordering
    ensures { result ≡ actor_cmp one other }
{
    match (one, other) {
        (Actor::Server(n), Actor::Server(m)) => n.cmp(&m),
        (Actor::Server(_), Actor::Client(_)) => Ordering::Less,
        (Actor::Client(_), Actor::Server(_)) => Ordering::Greater,
        (Actor::Client(c), Actor::Client(d)) => c.cmp(&d),
    }
}

/// By stamp, and at one stamp by actor.
pub fn compare(one: &Record, other: &Record) -> Ordering
    ensures { result ≡ record_cmp one.now other.now }
{
    one.stamp
        .cmp(&other.stamp)
        .then(compare_actors(one.actor, other.actor))
}

/// Where a record stands beside the step by which a letter says that it was sent.
pub fn compare_with_sender(own: &Record, letter: &Letter) -> Ordering
    ensures { result ≡ sender_cmp own.now letter.now }
{
    own.stamp
        .cmp(&letter.stamp)
        .then(compare_actors(own.actor, letter.from))
}
