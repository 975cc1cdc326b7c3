//! How the step ended that was taken.

use spec_rules::CommitEnd;

/// How a server's step ended. Only a job or a boot can end other than `Done`, and a boot does not end as `StopIn`.
#[derive(Clone, Copy, Debug, PartialEq, Eq)]
pub enum StepEnd {
    /// As its rule says.
    Done,
    /// A call of a device failed, which ends the incarnation.
    Fault(CommitEnd),
    /// A job met the call of a device at which its plan says that the server stops, which ends the incarnation.
    StopIn(CommitEnd),
}
