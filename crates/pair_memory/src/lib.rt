//! What a server has in memory of its pairs: pending operations, copies and links that move; the place where its jobs are done, and
//! what a job leaves.
//!
//! To the layer above it promises that each call leaves what the rules leave, and that each slot that is set apart is the one that
//! the pair's tables ask for. It says once what a job has to keep (`IsDone`). It knows nothing of the stages of an operation, of
//! queues, or of how letters travel.
#![tactic(auto)]

mod copies;
mod crossing;
mod ends;
mod error;
mod job_context;
mod job_result;
mod links;
mod replies;
mod sending;
mod side;
mod slots;

pub use copies::Copies;
pub use crossing::{enter_all, entry_jobs};
pub use error::WorkError;
pub use job_context::JobContext;
pub use job_result::{FollowUp, JobResult, only};
pub use kept_chains::{Store, next_marked, next_stored};
pub use links::link_id;
pub use replies::{ended, finish, say, say_to, silent};
pub use sending::with_letter;
pub use side::{PairMemory, next_number};
pub use slots::{give_back, keep, put_new, spend};
