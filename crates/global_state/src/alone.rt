//! Links by their names, and those that one server holds alone.

ghost use Rattle.std.specs.Prelude.{◌≡◌, ◌&&◌, false, if◌then◌else◌, None, Some, option_copied};
ghost use Rattle.std.specs.List.{All};
ghost use Rattle.std.specs.Option.{option_map_or};
ghost use Rattle.global_tables.specs.Link.{has_server, is_link, link_at, other_of};
ghost use Rattle.link_table.specs.Numbers.{IsNumbered};
ghost use Rattle.spec_state.specs.CellState.{cell_link};
ghost use Rattle.spec_state.specs.Command.{is_alone};
ghost use Rattle.spec_state.specs.State.{is_up};

use crate::state::GlobalState;
use global_tables::LinkRow;
use link_table::{has_server, is_link};
use petal_base::{Cell, MapId, ServerId};
use state_fold::{is_alone, other_of};

/// For the other server of a link that is held alone, the holder.
pub fn holder_of(server: ServerId, row: &LinkRow) -> Option<ServerId>
    ensures { result ≡ (if has_server server row.now && is_alone (other_of server row.now) row.now.state then Some (other_of server row.now) else None) }
{
    let other = other_of(server, row);
    if has_server(server, row) && is_alone(other, row.state) {
        Some(other)
    } else {
        None
    }
}

impl GlobalState {
    /// The links of all live maps.
    pub fn links(&self) -> &[LinkRow]
        ensures links { result.now ≡ self.now.links }
        ensures numbered { All IsNumbered result.now }
    {
        self.tables.links.rows()
    }

    /// The link of this number of a live map.
    pub fn link_row(&self, map: MapId, link: u8) -> Option<&LinkRow>
        ensures { option_copied result ≡ link_at self.now.links map link }
    {
        self.tables.links.get(map, link)
    }

    /// The link of a cell of a live map.
    pub fn cell_row(&self, cell: Cell) -> Option<&LinkRow>
        ensures { option_copied result ≡ cell_link self.now cell }
    {
        self.row_of(cell)
    }

    /// Whether the cell lies on the link.
    pub fn is_on(&self, row: &LinkRow, cell: Cell) -> bool
        ensures { result ≡ option_map_or (is_link row.now.map row.now.link) (cell_link self.now cell) false }
    {
        match self.row_of(cell) {
            Some(found) => is_link(row.map, row.link, found),
            None => false,
        }
    }

    /// For the server that holds the link alone, the other one, where that is In.
    pub fn other_in(&self, server: ServerId, row: &LinkRow) -> Option<ServerId>
        ensures { result ≡ (if is_alone server row.now.state && is_up self.now (other_of server row.now) then Some (other_of server row.now) else None) }
    {
        let other = other_of(server, row);
        if is_alone(server, row.state) && self.tables.is_up(other) {
            Some(other)
        } else {
            None
        }
    }
}
