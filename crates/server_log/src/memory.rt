//! What a server has in memory of the agreed log: the entries that it has applied, the commands that it wants chosen, and its
//! proposer. Nothing here commits to a device.

mod boot;
mod done;
mod down;
mod entries;
mod envelope;
mod leaves;
mod proposer;
mod returns;
mod side;
mod tick;
mod wants;

pub use done::{LogDone, only};
pub use down::farewell;
pub use entries::{Entered, Next, known_run};
pub use envelope::{Envelope, room_for};
pub use side::LogSide;
