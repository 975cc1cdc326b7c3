//! What the schedule keeps of a client.

use client_core::{Order, order_of};
use petal_base::{NoMemory, ServerId};
use script_lines::{Line, Request, Script};
use std::alloc::Global;
use std::collections::VecDeque;
use tick_backoff::Backoff;

/// A line that is to be called.
#[derive(Clone, Copy, Debug, PartialEq, Eq)]
pub struct PlannedLine {
    pub number: u32,
    pub phase: u32,
    /// What it asks of a server, where it does that.
    pub order: Option<(Order, ServerId)>,
    /// Whether it is a settle.
    pub settles: bool,
}

/// Whether the request is a settle.
fn is_settle(request: &Request) -> bool {
    match request {
        Request::Settle => true,
        _ => false,
    }
}

/// A client: the lines that it has not called yet, and the one that it called and that is not answered.
#[derive(Drop)]
pub struct ClientPlan {
    due: VecDeque<PlannedLine>,
    open: Option<PlannedLine>,
    pub patience: Backoff,
}

impl ClientPlan {
    /// A client without lines.
    pub fn new(alloc: Global) -> ClientPlan {
        ClientPlan {
            due: VecDeque::new(alloc),
            open: None,
            patience: Backoff::new(),
        }
    }

    /// The line is one more to be called.
    pub fn add(&mut self, line: &Line) -> Result<(), NoMemory> {
        self.due.push_back(PlannedLine {
            number: line.number,
            phase: line.phase,
            order: order_of(&line.request),
            settles: is_settle(&line.request),
        })?;
        Ok(())
    }

    /// Whether a line that it called is not answered.
    pub fn is_open(&self) -> bool {
        self.open.is_some()
    }

    /// The line that is to be called in this phase, where nothing is open.
    pub fn next(&self, phase: u32) -> Option<PlannedLine> {
        if self.is_open() {
            return None;
        }
        match self.due.front() {
            Some(due) if due.phase == phase => Some(*due),
            _ => None,
        }
    }

    /// The next line was called.
    pub fn called(&mut self) {
        self.open = self.due.pop_front();
        self.patience.renew();
    }

    /// The open line was answered. Gives whether it was a settle.
    pub fn answered(&mut self) -> bool {
        self.patience.renew();
        match self.open.take() {
            Some(due) => due.settles,
            None => false,
        }
    }
}

/// What is kept of each client, with its lines in order.
pub(crate) fn callers_of(
    alloc: Global,
    count: u8,
    script: &Script,
) -> Result<Vec<ClientPlan>, NoMemory> {
    let mut callers: Vec<ClientPlan> = Vec::new(alloc);
    for _ in 0..count {
        callers.push(ClientPlan::new(alloc))?;
    }
    for line in script.lines.as_slice() {
        if let Some(caller) = callers.get_mut(line.client as usize) {
            caller.add(line)?;
        }
    }
    Ok(callers)
}
