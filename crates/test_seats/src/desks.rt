//! The desk of a server that has taken no step, and what its records show.

ghost use Rattle.std.specs.Prelude.{◌≡◌};

use memory_server::MemServer;
use server_loop::{Run, Seat, ServerDesk};
use spec_history::Record;
use spec_rules::Step;
use std::alloc::Global;
use std::test::Fail;

/// The desk of server 0 of two, each with eight slots.
pub fn first_desk<J: Run>(alloc: Global) -> Result<ServerDesk<MemServer, J>, Fail>
    requires servers { J.script.servers ≡ 2 }
    requires slots { J.script.slots ≡ 8 }
{
    let host = MemServer::start(alloc, 0, 2, 8)?;
    Ok(ServerDesk::new(Seat::new(alloc, 0, host)))
}

fn letter_of(step: &Step) -> u8 {
    match step {
        Step::Call { line: _ } => b'c',
        Step::Deliver { letter: _ } => b'd',
        Step::Tick => b't',
        Step::Work(_) => b'w',
        Step::StopIn(_) => b'i',
        Step::Stop => b's',
        Step::Blank => b'b',
        Step::Boot(_) => b'B',
        Step::Arm { which: _, plan: _ } => b'a',
        Step::Glance { line: _, round: _ } => b'g',
    }
}

/// Whether the records are of these steps, one letter each, with stamps that rise.
pub fn are(records: &[Record], steps: &[u8]) -> bool {
    if records.len() != steps.len() {
        return false;
    }
    let mut clock = 0;
    for at in 0..records.len() {
        if letter_of(&records[at].step) != steps[at] || records[at].stamp <= clock {
            return false;
        }
        clock = records[at].stamp;
    }
    true
}
