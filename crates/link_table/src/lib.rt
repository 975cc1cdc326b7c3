//! The links of live maps, and who may serve each.
//!
//! To the layer above it promises the list of rows that each change gives. It knows nothing of incarnations, of regions and
//! of which map a disk is on.
#![tactic(auto)]

ghost use Rattle.std.specs.Prelude.{◌≡◌, ◌≤◌, [], ◌++◌, IfOk, OnOk, OnErr, length, true, option_copied};
ghost use Rattle.std.specs.List.{All};
ghost use Rattle.link_table.specs.Numbers.{IsNumbered};
ghost use Rattle.global_tables.specs.Link.{link_at, new_rows, new_row, new_state, is_up, left, row_left, left_state, joined, row_blanked, blanked_state};
ghost use Rattle.global_tables.specs.Link.{caught, row_caught, dropped, has_server, other_of, is_link, row_between};

pub use global_tables::{LinkRow, LinkState};
use petal_base::{MapId, NoMemory, ServerId, Tuple};
use std::alloc::{AllocError, Global};
use std::marker::Model;

/// The rows of all live maps' links. Contracts see the list of the rows.
#[derive(Drop)]
pub struct Links {
    rows: Vec<LinkRow>,
}

impl Model for Links {
    ghost use Rattle.std.specs.Prelude.{List};
    ghost use Rattle.std.specs.List.{All};
    ghost use Rattle.global_tables.specs.declared.link.LinkRow.{LinkRow};
    ghost use Rattle.link_table.specs.Numbers.{IsNumbered};

    ghost Value = { List LinkRow };

    ghost view = { λ l. l.rows.items };

    ghost invariant = { λ l. All IsNumbered l.rows.items };
}

impl Links {
    /// No link. It takes no memory.
    pub fn new(alloc: Global) -> Links
        ensures { result ≡ [] }
    {
        Links {
            rows: Vec::new(alloc),
        }
    }

    /// The link; None exactly where the map is not live or has no such link.
    pub fn get(&self, map: MapId, link: u8) -> Option<&LinkRow>
        ensures { option_copied result ≡ link_at self.now map link }
    {
        self.rows.iter().find(|row| is_link(map, link, row))
    }

    /// All rows.
    pub fn rows(&self) -> &[LinkRow]
        ensures rows { result.now ≡ self.now }
        ensures numbered { All IsNumbered result.now }
    {
        &self.rows
    }

    /// A row for each link of a new map. `up` tells for each server whether it is In.
    pub fn add_map(
        &mut self,
        alloc: Global,
        map: MapId,
        tuple: &Tuple,
        up: &[bool],
    ) -> Result<(), NoMemory>
        ensures ok { OnOk result (self.new ≡ self.old ++ new_rows map tuple.now up.now) }
        ensures err { OnErr result (self.new ≡ self.old) }
    {
        let rows = new_rows(alloc, map, tuple.ids(), up)?;
        self.rows.extend_from_slice(&rows)?;
        Ok(())
    }

    /// A server leaves: each of its links in `Both` is then held by the other server alone.
    pub fn leave(&mut self, alloc: Global, server: ServerId) -> Result<(), NoMemory>
        ensures ok { OnOk result (self.new ≡ left self.old server) }
        ensures err { OnErr result (self.new ≡ self.old) }
    {
        self.rows = all_left(alloc, &self.rows, server)?;
        Ok(())
    }

    /// A server joins. Where it is `blank`, each link that it held alone is `Lost`, and each link of its that the other
    /// server holds has to be copied whole.
    pub fn join(&mut self, alloc: Global, server: ServerId, blank: bool) -> Result<(), NoMemory>
        ensures ok { OnOk result (self.new ≡ joined self.old server blank) }
        ensures err { OnErr result (self.new ≡ self.old) }
    {
        if blank {
            self.rows = all_blanked(alloc, &self.rows, server)?;
        }
        Ok(())
    }

    /// The link is `Both`.
    pub fn caught(&mut self, alloc: Global, map: MapId, link: u8) -> Result<(), NoMemory>
        ensures ok { OnOk result (self.new ≡ caught self.old map link) }
        ensures err { OnErr result (self.new ≡ self.old) }
    {
        self.rows = all_caught(alloc, &self.rows, map, link)?;
        Ok(())
    }

    /// The rows of a map are gone.
    pub fn drop_map(&mut self, alloc: Global, map: MapId) -> Result<(), NoMemory>
        ensures ok { OnOk result (self.new ≡ dropped self.old map) }
        ensures err { OnErr result (self.new ≡ self.old) }
    {
        self.rows = all_but(alloc, &self.rows, map)?;
        Ok(())
    }

    /// The same links again.
    pub fn copy(&self) -> Result<Links, NoMemory>
        ensures { IfOk result (λ links. links ≡ self.now) }
    {
        Ok(Links {
            rows: self.rows.clone()?,
        })
    }
}

/// Whether the row is that link of that map.
pub fn is_link(map: MapId, link: u8, row: &LinkRow) -> bool
    ensures { result ≡ is_link map link row.now }
{
    row.map == map && row.link == link
}

fn is_up(up: &[bool], server: ServerId) -> bool
    ensures { result ≡ is_up up.now server }
{
    up.get(server as usize).copied().unwrap_or(false)
}

fn new_state(
    primary_in: bool,
    secondary_in: bool,
    primary: ServerId,
    secondary: ServerId,
) -> LinkState
    ensures { result ≡ new_state primary_in secondary_in primary secondary }
{
    match (primary_in, secondary_in) {
        (true, true) => LinkState::Both,
        (true, false) | (false, false) => LinkState::Only {
            holder: primary,
            full_copy_needed: false,
        },
        (false, true) => LinkState::Only {
            holder: secondary,
            full_copy_needed: false,
        },
    }
}

fn row_between(map: MapId, up: &[bool], link: u8, primary: ServerId, secondary: ServerId) -> LinkRow
    ensures { result ≡ row_between map up.now link primary secondary }
{
    LinkRow {
        map,
        link,
        primary,
        secondary,
        state: new_state(is_up(up, primary), is_up(up, secondary), primary, secondary),
    }
}

fn new_rows(
    alloc: Global,
    map: MapId,
    ids: &[ServerId],
    up: &[bool],
) -> Result<Vec<LinkRow>, AllocError>
    requires { length ids.now ≤ 8 }
    ensures { IfOk result (λ rows. rows.items ≡ new_rows map ids.now up.now) }
{
    (0..ids.len())
        .map(|i| row_between(map, up, i as u8, ids[i], ids[(i + 1) % ids.len()]))
        .collect(alloc)
}

/// Whether the server is one of the link's two.
pub fn has_server(server: ServerId, row: &LinkRow) -> bool
    ensures { result ≡ has_server server row.now }
{
    row.primary == server || row.secondary == server
}

fn left_state(other: ServerId, state: LinkState) -> LinkState
    ensures { result ≡ left_state other state }
{
    match state {
        LinkState::Both => LinkState::Only {
            holder: other,
            full_copy_needed: false,
        },
        LinkState::Only {
            holder,
            full_copy_needed,
        } => LinkState::Only {
            holder,
            full_copy_needed,
        },
        LinkState::Lost => LinkState::Lost,
    }
}

fn row_left(server: ServerId, row: &LinkRow) -> LinkRow
    ensures { result ≡ row_left server row.now }
{
    if !has_server(server, row) {
        return *row;
    }
    let other = if row.primary == server {
        row.secondary
    } else {
        row.primary
    };
    LinkRow {
        state: left_state(other, row.state),
        ..*row
    }
}

fn all_left(alloc: Global, rows: &[LinkRow], server: ServerId) -> Result<Vec<LinkRow>, AllocError>
    ensures { IfOk result (λ new. new.items ≡ left rows.now server) }
{
    rows.iter().map(|row| row_left(server, row)).collect(alloc)
}

fn blanked_state(server: ServerId, has: bool, state: LinkState) -> LinkState
    ensures { result ≡ blanked_state server has state }
{
    match state {
        LinkState::Both => LinkState::Both,
        LinkState::Only {
            holder,
            full_copy_needed,
        } => {
            if holder == server {
                LinkState::Lost
            } else {
                LinkState::Only {
                    holder,
                    full_copy_needed: has || full_copy_needed,
                }
            }
        }
        LinkState::Lost => LinkState::Lost,
    }
}

fn row_blanked(server: ServerId, row: &LinkRow) -> LinkRow
    ensures { result ≡ row_blanked server row.now }
{
    LinkRow {
        state: blanked_state(server, has_server(server, row), row.state),
        ..*row
    }
}

fn all_blanked(
    alloc: Global,
    rows: &[LinkRow],
    server: ServerId,
) -> Result<Vec<LinkRow>, AllocError>
    ensures { IfOk result (λ new. new.items ≡ joined rows.now server true) }
{
    rows.iter()
        .map(|row| row_blanked(server, row))
        .collect(alloc)
}

fn row_caught(map: MapId, link: u8, row: &LinkRow) -> LinkRow
    ensures { result ≡ row_caught map link row.now }
{
    if is_link(map, link, row) {
        LinkRow {
            state: LinkState::Both,
            ..*row
        }
    } else {
        *row
    }
}

fn all_caught(
    alloc: Global,
    rows: &[LinkRow],
    map: MapId,
    link: u8,
) -> Result<Vec<LinkRow>, AllocError>
    ensures { IfOk result (λ new. new.items ≡ caught rows.now map link) }
{
    rows.iter()
        .map(|row| row_caught(map, link, row))
        .collect(alloc)
}

fn all_but(alloc: Global, rows: &[LinkRow], map: MapId) -> Result<Vec<LinkRow>, AllocError>
    ensures { IfOk result (λ new. new.items ≡ dropped rows.now map) }
{
    rows.iter()
        .filter(|row| row.map != map)
        .copied()
        .collect(alloc)
}
