//! The region that a server is to move of a link, and how far it is.

ghost use Rattle.std.specs.Prelude.{◌≡◌, option_copied};
ghost use Rattle.spec_rules.specs.Fills as fills;
ghost use Rattle.spec_rules.specs.State.{link_cmp, id_of};
ghost use Rattle.spec_state.specs.CellState.{region_leaving};
ghost use Rattle.petal_table.specs.Table.{at};

use global_state::LinkRow;
use pair_memory::{JobContext, PairMemory, link_id};
use petal_base::Key;
use petal_command::RegionNumber;

/// The region that the server is to move of a link: it leads the link, a disk is on its way from the link's map, and the link is
/// not noted.
pub fn region_to_move(here: &JobContext, row: &LinkRow) -> Option<RegionNumber>
    ensures { result ≡ fills.region_to_move here.now.state here.now.me row.now }
{
    match here.state().row_lead(row) {
        Some(lead) if lead == here.me() => not_noted(here, row),
        _ => None,
    }
}

fn not_noted(here: &JobContext, row: &LinkRow) -> Option<RegionNumber>
    ensures { result ≡ fills.not_noted here.now.state row.now (region_leaving here.now.state row.now.map) }
{
    match here.state().region_leaving(row.map) {
        Some(region) if !here.state().noted(row.map, region.get(), row.link) => Some(region),
        _ => None,
    }
}

/// The last key of the link that the new map is known to have.
pub fn last_filled(side: &PairMemory, row: &LinkRow) -> Option<Key>
    ensures { result ≡ at link_cmp side.now.filled (id_of row.now) }
{
    side.filled.get(link_id(row))
}

/// The old link of a key of the new map.
pub fn link_before<'a>(here: &'a JobContext, key: Key) -> Option<&'a LinkRow>
    ensures { option_copied result ≡ fills.link_before here.now.state key }
{
    match here.state().source(key.cell()) {
        Some(before) => here.state().cell_row(before),
        None => None,
    }
}
