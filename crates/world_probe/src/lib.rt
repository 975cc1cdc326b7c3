//! A world's run with a look into its servers: what each actor may do next, rounds of all, and copies of servers that are asked what
//! they hold.
//!
//! A world shows no more of a server than its letters. A copy takes the same steps, boots, is told of a log in which it serves
//! its links alone, or its neighbours do, and is asked by the letters of clients and servers.
//!
//! A run that is given up ends with `NoMemory` here, whatever the cause: a test fails by each in the same way.
//!
//! To the layer above it promises no more than safety. It knows nothing of how a server keeps its blocks.
#![tactic(auto)]

mod asked;
mod copy;
mod log;
mod rounds;
mod run;

pub use asked::{held, holds, is_marked_so, stores};
pub use client_core::{Order, order_of};
pub use copy::Copy;
pub use rounds::{begin, play};
pub use run::Run;
