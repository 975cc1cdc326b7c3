//! What the rounds keep beside the world.

use crate::client_plan::{ClientPlan, callers_of};
use crate::mailboxes::Mailboxes;
use petal_base::{CLIENTS, NoMemory};
use script_lines::Script;
use std::alloc::Global;
use tick_backoff::Backoff;

/// The letters that are on their way, what each client has still to call, and how long each server waits to be ticked.
#[derive(Drop)]
pub struct ScheduleState {
    pub post: Mailboxes,
    pub callers: Vec<ClientPlan>,
    pub patience: Vec<Backoff>,
}

fn patience_of(alloc: Global, servers: u8) -> Result<Vec<Backoff>, NoMemory> {
    let mut patience = Vec::new(alloc);
    for _ in 0..servers {
        patience.push(Backoff::new())?;
    }
    Ok(patience)
}

impl ScheduleState {
    /// Nothing was sent or called. Each server has one box and each client two.
    pub fn new(alloc: Global, script: &Script) -> Result<ScheduleState, NoMemory> {
        let places = script.servers as usize + 2 * CLIENTS as usize;
        let patience = patience_of(alloc, script.servers)?;
        let callers = callers_of(alloc, CLIENTS, script)?;
        Ok(ScheduleState {
            post: Mailboxes::new(alloc, places, script.lose, script.twice)?,
            callers,
            patience,
        })
    }
}
