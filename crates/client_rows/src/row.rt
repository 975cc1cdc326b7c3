//! One row.

ghost use Rattle.std.specs.Cmp.{partial_order_from_own_ties};
ghost use Rattle.std.specs.Cmp.Rules.{comparing};
ghost use Rattle.std.proofs.Common.{rules};
ghost use Rattle.client_rows.specs.Rows.{row_cmp, same_row};
ghost use Rattle.std.specs.Ordering.{as_partial_cmp};

use petal_base::{ClientId, MapId, Seq};
use std::cmp::Ordering;

/// The greatest number of a client's requests that were put on a link of a map. Rows are compared by the map, the link and the client
/// alone: of two that are equal one takes the place of the other.
#[derive(Clone, Copy, Debug)]
pub struct Row {
    pub map: MapId,
    pub link: u8,
    pub client: ClientId,
    pub seq: Seq,
}

impl PartialEq for Row {
    ghost eq = { same_row };

    ghost laws = { Prim.search (comparing, rules) };

    fn eq(&self, other: &Row) -> bool {
        self.map == other.map && self.link == other.link && self.client == other.client
    }
}

impl Eq for Row {
    ghost laws = { Prim.search (comparing, rules) };
}

impl Ord for Row {
    ghost cmp = { row_cmp };

    ghost total = { Prim.search (comparing, rules) };

    ghost matches_partial_cmp = { Prim.search (comparing, rules) };

    ghost matches_eq = { Prim.search (comparing, rules) };

    fn cmp(&self, other: &Row) -> Ordering {
        self.map
            .cmp(&other.map)
            .then(self.link.cmp(&other.link))
            .then(self.client.cmp(&other.client))
    }
}

impl PartialOrd for Row {
    ghost partial_cmp = { as_partial_cmp row_cmp };

    ghost laws = { partial_order_from_own_ties (Prim.search (comparing, rules)) (Prim.search (comparing, rules)) };

    fn partial_cmp(&self, other: &Row) -> Option<Ordering> {
        Some(self.cmp(other))
    }
}
