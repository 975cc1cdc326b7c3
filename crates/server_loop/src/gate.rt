//! What stands before and behind each step of a worker.

use petal_msg::Actor;

/// What kind of step.
#[derive(Clone, Copy, Debug, PartialEq, Eq)]
pub enum StepKind {
    Call,
    Deliver,
    Tick,
    Work,
    /// The steps that a line of the operator gives a server, with its glance, or a glance of a settle.
    Control,
}

/// What stands before and behind each step of a worker, outside every lock.
pub trait Gate: Sync {
    /// The actor is about to take a step.
    fn before(&self, actor: Actor, kind: StepKind);

    /// It took it, or could not; and gave the answer of this line, where it gave one.
    fn after(&self, actor: Actor, kind: StepKind, answered: Option<u32>);
}

/// It lets each step pass.
#[derive(Clone, Copy, Debug)]
pub struct OpenGate;

impl Gate for OpenGate {
    fn before(&self, _actor: Actor, _kind: StepKind) {}

    fn after(&self, _actor: Actor, _kind: StepKind, _answered: Option<u32>) {}
}
