//! The global state: what the entries of the agreed log have made, applied one at a time.
//!
//! To the layer above it promises that the state after `apply` is the fold of the log with one entry more, and that each
//! reader gives that fold's value. It knows nothing of how entries are chosen, of letters, and of what any server stores.
#![tactic(auto)]

mod alone;
mod ask;
mod moving;
mod place;
mod role;
mod settled;
mod state;
mod touch;

pub use alone::holder_of;
pub use global_tables::{
    Fence, FenceKind, Latest, LinkRow, LinkState, Member, RegionState, Verdict,
};
pub use spec_state::{DiskView, Hold, Link};
pub use state::GlobalState;
