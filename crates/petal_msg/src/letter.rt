//! A letter and its two ends.

use crate::Body;
use petal_base::{ClientId, Inc, Rev, ServerId, Stamp};

/// Who takes steps. Servers come before clients in the order of a history.
#[derive(Clone, Copy, Debug, PartialEq, Eq, PartialOrd, Ord)]
pub enum Actor {
    Server(ServerId),
    /// 0 to 7 for the clients `a` to `h`, 8 for the operator.
    Client(ClientId),
}

/// One letter. `(from, stamp, nth)` names it. It is shared and never copied.
#[derive(Drop)]
pub struct Letter {
    pub from: Actor,
    /// The sender's incarnation, 0 for a client.
    pub inc: Inc,
    pub to: Actor,
    /// The sender's revision of the global state.
    pub rev: Rev,
    /// The stamp of the step that sent it.
    pub stamp: Stamp,
    /// Its place among the letters of that step, from 0.
    pub nth: u64,
    pub body: Body,
}
