//! The rules of one step: what a server does with each job, what a client does with each call and letter, and what a step
//! does to the world. They stand in specs/, and both the code of servers and clients and the laws over all runs cite them.
//!
//! To the layer above it promises that each rule is deterministic: the state after, the letters sent and the answer given
//! follow from the state before. It knows nothing of devices, threads or time.
#![tactic(auto)]

mod job;
mod laws;
mod step;

pub use job::Job;
pub use laws::{
    a_finished_request_changes_nothing, a_second_copy_is_put, a_second_copy_is_put_once,
    an_ended_request_is_remembered, drops_where_not_lead, letters_stay_sent,
    only_the_lead_takes_a_write,
};
pub use step::{CommitEnd, Step, WorkEnd};
