//! Which links an entry of the log touches.

ghost use Rattle.std.specs.Prelude.{◌≡◌, false};
ghost use Rattle.std.specs.Option.{option_map_or};
ghost use Rattle.global_tables.specs.Link.{link_at};
ghost use Rattle.spec_state.specs.Place.{touches, touches_cell};

use crate::state::GlobalState;
use global_tables::LinkRow;
use link_table::{has_server, is_link};
use petal_base::{Cell, MapId};
use petal_command::Command;
use state_fold::{may_catch, may_join};

impl GlobalState {
    /// Whether the entry would change this link, or make one of its two servers In or Out.
    pub fn touches(&self, entry: &Command, row: &LinkRow) -> bool
        ensures { result ≡ touches self.now entry.now row.now }
    {
        match entry {
            Command::Join { server, inc, .. } => {
                may_join(self.tables.view.member(server.get()), *inc)
                    && has_server(server.get(), row)
            }
            Command::Leave { server, inc } => {
                self.tables.is_up_as(server.get(), *inc) && has_server(server.get(), row)
            }
            Command::Caught {
                map,
                link,
                holder,
                holder_inc,
                other,
                other_inc,
            } => {
                let there = self.tables.links.get(*map, link.get()).copied();
                is_link(*map, link.get(), row)
                    && may_catch(holder.get(), other.get(), there)
                    && self.tables.is_up_as(holder.get(), *holder_inc)
                    && self.tables.is_up_as(other.get(), *other_inc)
            }
            _ => false,
        }
    }

    /// Whether the entry would change the cell's link, or make one of its two servers In or Out.
    pub fn touches_cell(&self, entry: &Command, cell: Cell) -> bool
        ensures { result ≡ touches_cell self.now entry.now cell }
    {
        match self.row_of(cell) {
            Some(row) => self.touches(entry, row),
            None => false,
        }
    }

    /// Whether the entry would change the link of this name, or make one of its two servers In or Out.
    pub fn touches_link(&self, entry: &Command, map: MapId, link: u8) -> bool
        ensures { result ≡ option_map_or (touches self.now entry.now) (link_at self.now.links map link) false }
    {
        match self.tables.links.get(map, link) {
            Some(row) => self.touches(entry, row),
            None => false,
        }
    }
}
