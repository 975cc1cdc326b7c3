//! For which write of a client an operation puts.

ghost use Rattle.std.specs.Prelude.{◌≡◌};
ghost use Rattle.spec_rules.specs.Writes as writes;

use pair_lock::is_clients;
use pair_memory::JobContext;
use petal_base::Origin;
use petal_msg::Pending;

/// The write of a client that an operation puts for, if it is for one: on the link of its cell, where there is one.
pub fn origin_by(here: &JobContext, op: &Pending) -> Option<Origin>
    ensures { result ≡ writes.origin_by here.now.state op.now }
{
    if !is_clients(op.kind) {
        return None;
    }
    match here.state().cell_row(op.cell) {
        Some(row) => Some(Origin::new(row.link, op.client.get(), op.seq)),
        None => None,
    }
}
