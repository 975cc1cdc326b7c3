//! Links: pairs of neighbouring servers of a map, each of which holds both copies of some of its blocks.

use petal_base::{MapId, ServerId};

/// Who may serve the blocks of a link.
#[derive(Clone, Copy, Debug, PartialEq, Eq)]
pub enum LinkState {
    /// Both copies are kept up to date; the primary leads.
    Both,
    /// The holder alone is up to date. `full_copy_needed`: it has to copy every block it has to the other server, which lost its own.
    Only {
        holder: ServerId,
        full_copy_needed: bool,
    },
    /// No server is known to be up to date.
    Lost,
}

/// One link of a live map.
#[derive(Clone, Copy, Debug, PartialEq, Eq)]
pub struct LinkRow {
    pub map: MapId,
    /// Its number in the map, which is the primary's place in the map's tuple.
    pub link: u8,
    pub primary: ServerId,
    /// The next server in the tuple; the first after the last.
    pub secondary: ServerId,
    pub state: LinkState,
}
