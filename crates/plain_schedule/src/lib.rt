//! The plain schedule: one thread steps a world round by round, phase by phase, until each line of a script is answered. It notes of
//! each actor the letters in its boxes, the lines that a client has still to call, and how long it waits to be ticked.
//!
//! It promises its caller at each phase's end the answers that stand in the records since the phase before, and at each moment a
//! history that is legal for the script. Which legal history comes out is its own choice. It knows nothing of sources, sinks or
//! what is printed, and sees a server only through `Host`.
#![tactic(auto)]

mod answers;
mod client_plan;
mod mailboxes;
mod playing;
mod rounds;
mod schedule_state;

pub use answers::Answers;
pub use petal_world::GaveUp;
pub use playing::Playing;
