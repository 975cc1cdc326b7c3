//! What is known of links: how far a holder is, and what is filled.

ghost use Rattle.std.specs.Prelude.{◌≡◌, [], not, filter, is_some, IsSome, OnOk, OnErr};
ghost use Rattle.std.specs.List.Sorted.{IsStrictlySortedBy};
ghost use Rattle.std.specs.Map.{keys_of};
ghost use Rattle.petal_table.specs.Table.{at, put, without};
ghost use Rattle.spec_rules.specs.State.{id_of, link_cmp, link_named};
ghost use Rattle.pair_memory.specs.Copies.{id_of_key, key_of};
ghost use Rattle.pair_memory.specs.Ended.{link_ends};

use crate::job_context::JobContext;
use global_state::{GlobalState, LinkRow};
use petal_base::{MapId, NoMemory};
use petal_command::Command;
use petal_msg::LinkId;
use petal_table::Table;
use std::alloc::Global;
use std::marker::Model;

/// A link's name as a key, by map and then by number.
#[derive(Clone, Copy, Debug, PartialEq, Eq, PartialOrd, Ord)]
pub struct LinkKey {
    pub map: MapId,
    pub link: u8,
}

/// What stands at each link. Contracts see the rows by rising link.
#[derive(Drop)]
pub struct LinkTable<X> {
    rows: Table<LinkKey, X>,
}

impl<X> Model for LinkTable<X> {
    ghost use Rattle.std.specs.Prelude.{List};
    ghost use Rattle.petal_msg.specs.declared.copying.LinkId.{LinkId};
    ghost use Rattle.pair_memory.specs.Copies.{by_link};

    ghost Value = { List (LinkId × X) };

    ghost view = { λ l. by_link l.rows };
}

fn key(link: LinkId) -> LinkKey
    ensures { result ≡ key_of link }
{
    LinkKey {
        map: link.map,
        link: link.link,
    }
}

/// A link's name.
pub fn link_id(row: &LinkRow) -> LinkId
    ensures { result ≡ id_of row.now }
{
    LinkId {
        map: row.map,
        link: row.link,
    }
}

/// Whether what is kept of the link ends with the entry, which makes this next state.
fn end(here: &JobContext, entry: &Command, next: &GlobalState, key: LinkKey) -> bool
    ensures { result ≡ link_ends here.now.state next.now entry.now (id_of_key key) }
{
    here.touches_link(entry, key.map, key.link) || next.link_row(key.map, key.link).is_none()
}

impl<X: Copy + Drop> LinkTable<X> {
    /// No link. It takes no memory.
    pub fn new(alloc: Global) -> LinkTable<X>
        ensures { result ≡ [] }
    {
        LinkTable {
            rows: Table::new(alloc),
        }
    }

    /// What stands at the link.
    #[tactic(auto, using(crate::proofs::ByLink::at_link, crate::proofs::ByLink::sorted_links))]
    pub fn get(&self, link: LinkId) -> Option<X>
        ensures value { result ≡ at link_cmp self.now link }
        ensures sorted { IsStrictlySortedBy link_cmp (keys_of self.now) }
    {
        // What `len` promises tells the proof that the rows rise by link.
        let _ = self.rows.len();
        self.rows.get(&key(link)).copied()
    }

    /// It stands at the link from now on.
    pub fn put(&mut self, link: LinkId, value: X) -> Result<(), NoMemory>
        ensures ok { OnOk result (self.new ≡ put link_cmp self.old link value) }
        ensures err { OnErr result (self.new ≡ self.old) }
    {
        self.rows.put(key(link), value)
    }

    /// It stands at a link at which something stood. It takes no memory.
    #[tactic(auto, using(crate::proofs::ByLink::at_link))]
    pub fn replace(&mut self, link: LinkId, value: X)
        requires { IsSome (at link_cmp self.old link) }
        ensures { self.new ≡ put link_cmp self.old link value }
    {
        self.rows.replace(key(link), value);
    }

    /// Nothing stands at the link from now on.
    pub fn remove(&mut self, link: LinkId)
        ensures { self.new ≡ without link_cmp self.old link }
    {
        let _ = self.rows.remove(&key(link));
    }

    /// Nothing stands from now on at the links of which nothing is kept after the entry, which makes this next state.
    pub fn drop_ended(&mut self, here: &JobContext, entry: &Command, next: &GlobalState)
        ensures { self.new ≡ filter (λ row. not (link_ends here.now.state next.now entry.now row.0)) self.old }
    {
        self.rows.retain(|key, _| !end(here, entry, next, *key));
    }

    /// Only what stands at links of this state's live maps stays.
    pub fn keep_live(&mut self, state: &GlobalState)
        ensures { self.new ≡ filter (λ row. is_some (link_named state.now row.0)) self.old }
    {
        self.rows
            .retain(|key, _| state.link_row(key.map, key.link).is_some());
    }
}
