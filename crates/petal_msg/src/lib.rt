//! Letters between servers and clients, and the plain data of the operations that they drive.
//!
//! To the layer above it promises that letters are plain values: `is_same` says whether two are one, contracts see a shared
//! letter as the letter and a block in it as its bytes, and no block is copied on the way. It knows nothing of when a
//! letter is sent or what it does.
#![tactic(auto)]

mod body;
mod copying;
mod letter;
mod operation;
mod owner;
mod retired;
mod same;

pub use body::Body;
pub use copying::{CopyAction, Copying, LastCopy, LinkId, NextCopy, Progress};
pub use letter::{Actor, Letter};
pub use operation::{
    Action, Ending, Finished, FollowProgress, LastOp, OpKind, Pending, Reply, Stage, WriterNumber,
};
pub use owner::{Shared, SharedLetter};
pub use retired::Retired;
