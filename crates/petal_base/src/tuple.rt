//! The servers over which a disk is spread.

ghost use Rattle.std.specs.Prelude.{◌≡◌, ◌≤◌, ◌<◌, List, ℕ, take, length, nat_eq, nat_lt, IsTrue, true, ◌&&◌};
ghost use Rattle.std.specs.List.{list_any, list_all};
ghost use Rattle.petal_base.specs.Tuple.{tuple_of, is_tuple, distinct};

use crate::{MAX_SERVERS, ServerId};
use std::alloc::AllocError;
use std::marker::Model;

const MOST: usize = 8;

/// 2 to 8 distinct servers in order, each below 8: link i has primary `ids[i]` and its neighbour, the next in the tuple,
/// as secondary (chained declustering). Contracts see the list of the numbers.
#[derive(Drop)]
pub struct Tuple {
    ids: [u8; MOST],
    len: usize,
}

impl Model for Tuple {
    ghost use Rattle.std.specs.Prelude.{◌≡◌, ◌≤◌, List, ℕ, take, true};
    ghost use Rattle.petal_base.specs.Tuple.{is_tuple};

    ghost Value = { List ℕ };

    ghost view = { λ t. take t.len t.ids };

    ghost invariant = { λ t. (t.len ≤ 8) × (is_tuple 8 (take t.len t.ids) ≡ true) };
}

impl Tuple {
    /// The tuple of these servers; None exactly where they are not 2 to 8 distinct ones below `servers` and below 8.
    pub fn new(ids: &[ServerId], servers: u8) -> Option<Tuple>
        ensures { result ≡ tuple_of servers ids.now }
    {
        if !is_tuple(ids, servers) {
            return None;
        }
        let mut own = [0; MOST];
        own[..ids.len()].copy_from_slice(ids);
        Some(Tuple {
            ids: own,
            len: ids.len(),
        })
    }

    /// The servers in order.
    pub fn ids(&self) -> &[ServerId]
        ensures value { result.now ≡ self.now }
        ensures tuple { IsTrue (is_tuple 8 self.now) }
    {
        &self.ids[..self.len]
    }

    /// The same tuple again. It takes no memory.
    pub fn copy(&self) -> Tuple
        ensures { result ≡ self.now }
    {
        Tuple {
            ids: self.ids,
            len: self.len,
        }
    }
}

fn is_tuple(ids: &[u8], servers: u8) -> bool
    ensures { result ≡ is_tuple servers ids.now }
{
    ids.len() >= 2 && ids.len() <= MOST && are_servers(ids, servers) && are_distinct(ids)
}

fn are_servers(ids: &[u8], servers: u8) -> bool
    ensures { result ≡ list_all (λ n. nat_lt n servers && nat_lt n 8) ids.now }
{
    ids.iter().all(|n| *n < servers && *n < MAX_SERVERS)
}

fn are_distinct(ids: &[u8]) -> bool
    ensures { result ≡ distinct ids.now }
{
    match ids.split_first() {
        None => true,
        Some((first, others)) => !others.contains(first) && are_distinct(others),
    }
}

impl PartialEq for Tuple {
    ghost use Rattle.std.specs.Prelude.{nat_eq};
    ghost use Rattle.std.specs.Cmp.{partial_equiv_from_equiv};
    ghost use Rattle.std.specs.Cmp.Lexicographic.{pointwise, nat_list_eq_equiv};

    ghost eq = { pointwise nat_eq };

    ghost laws = { partial_equiv_from_equiv nat_list_eq_equiv };

    fn eq(&self, other: &Self) -> bool {
        self.ids() == other.ids()
    }
}

impl Eq for Tuple {
    ghost use Rattle.std.specs.Cmp.Lexicographic.{nat_list_eq_equiv};

    ghost laws = { nat_list_eq_equiv };
}

impl Clone for Tuple {
    ghost use Rattle.std.specs.Prelude.{◌≡◌};

    ghost is_clone = { λ x y. y ≡ x };

    fn clone(&self) -> Result<Self, AllocError> {
        Ok(self.copy())
    }
}
