//! The steps of the world.

use petal_msg::SharedLetter;
use script_lines::{Plan, Which};

/// Whether the commit of a job that a device failed in was made.
#[derive(Clone, Copy, Debug, PartialEq, Eq)]
pub enum CommitEnd {
    /// The device has what it had before the job.
    Before,
    /// The device has what the job commits.
    After,
}

/// How a server's job, or its boot, ended.
#[derive(Clone, Copy, Debug, PartialEq, Eq)]
pub enum WorkEnd {
    /// As its rule says.
    Done,
    /// A call of a device failed, which ends the incarnation.
    Fault(CommitEnd),
}

/// One atomic step of a server or a client.
#[derive(Drop)]
pub enum Step {
    /// A client calls its next line.
    Call { line: u32 },
    /// A letter that was ever sent is handed over.
    Deliver { letter: SharedLetter },
    /// A server, or a client, sends again what is not yet answered.
    Tick,
    /// A server does the first job of its queue.
    Work(WorkEnd),
    /// A server's job met the call of a device at which its plan says that the server stops.
    StopIn(CommitEnd),
    /// A running server stops.
    Stop,
    /// A stopped server gets a blank data device.
    Blank,
    /// A stopped server boots, which a failed device may end.
    Boot(WorkEnd),
    /// One of a server's devices has this plan from now on, or none.
    Arm { which: Which, plan: Option<Plan> },
    /// A server shows the operator whether it runs, for this line and this round of it.
    Glance { line: u32, round: u32 },
}
