//! What a server is to a cell.

ghost use Rattle.std.specs.Prelude.{◌≡◌, option_copied};
ghost use Rattle.spec_state.specs.Role.{is_the, is_lead, leads_link, row_in_both, both, in_both, first, second, is_second};

use crate::state::GlobalState;
use global_tables::{LinkRow, LinkState};
use petal_base::{Cell, ServerId};

fn is_the(found: Option<ServerId>, server: ServerId) -> bool
    ensures { result ≡ is_the found server }
{
    match found {
        Some(found) => found == server,
        None => false,
    }
}

fn row_in_both(row: &LinkRow) -> Option<&LinkRow>
    ensures { option_copied result ≡ row_in_both row.now row.now.state }
{
    match row.state {
        LinkState::Both => Some(row),
        LinkState::Only { .. } | LinkState::Lost => None,
    }
}

impl GlobalState {
    /// Whether the server takes the cell's writes.
    pub fn is_lead(&self, server: ServerId, cell: Cell) -> bool
        ensures { result ≡ is_lead self.now server cell }
    {
        is_the(self.lead(cell), server)
    }

    /// Whether the server leads the cell's link, whatever its region.
    pub fn leads_link(&self, server: ServerId, cell: Cell) -> bool
        ensures { result ≡ leads_link self.now server cell }
    {
        is_the(self.cell_lead(cell), server)
    }

    /// Whether the cell's link has both of its servers, whatever the cell's region.
    pub fn in_both(&self, cell: Cell) -> bool
        ensures { result ≡ in_both self.now cell }
    {
        match self.row_of(cell) {
            Some(row) => row_in_both(row).is_some(),
            None => false,
        }
    }

    fn both(&self, cell: Cell) -> Option<&LinkRow>
        ensures { option_copied result ≡ both self.now cell }
    {
        if !self.live(cell) {
            return None;
        }
        match self.row_of(cell) {
            Some(row) => row_in_both(row),
            None => None,
        }
    }

    /// The server that puts the cell first, in Both.
    pub fn first(&self, cell: Cell) -> Option<ServerId>
        ensures { result ≡ first self.now cell }
    {
        match self.both(cell) {
            Some(row) => Some(row.primary),
            None => None,
        }
    }

    /// The server that follows on the cell, in Both.
    pub fn second(&self, cell: Cell) -> Option<ServerId>
        ensures { result ≡ second self.now cell }
    {
        match self.both(cell) {
            Some(row) => Some(row.secondary),
            None => None,
        }
    }

    /// Whether the server follows on the cell.
    pub fn is_second(&self, server: ServerId, cell: Cell) -> bool
        ensures { result ≡ is_second self.now server cell }
    {
        is_the(self.second(cell), server)
    }
}
