//! The rule of requests: after every legal history, a request that its client has answered is pending at no running server,
//! and its Write letters come too late, or are held, everywhere; and what a server that has reported to a fence may have pending
//! (`reports`).
//!
//! To the laws above it promises this and what goes with it: a client's request of a number follows from the script; a pending
//! operation is of its client's write, which is open while its server runs, and whose cell that server has led since it opened the
//! operation; and a reply that ends a write is remembered by its sender, which led the cell at the reply's revision. It knows
//! nothing of copies or of the plain machine.
#![tactic(auto)]

ghost use Rattle.std.specs.Prelude.{List};
ghost use Rattle.spec_history.specs.Claims.{Requests};
ghost use Rattle.law_state.specs.Histories.{AreSteps, IsSound, Record, Script, setting_of, start, world_after};
ghost use Rattle.law_requests.specs.KnownRequests.{Asking};
ghost use Rattle.law_requests.specs.OpenRequests.{AreOpen};

mod reports;

pub use reports::{
    a_server_that_reported_writes_nothing, a_server_that_wants_to_report_writes_nothing,
};

/// After every legal history of a sound script, an answered request is pending at no running server, and its letters come too
/// late, or are held: also where the server has started a ballot for the Caught of the cell's link.
pub fn answered_requests_are_over()
    ensures { (script : Script) (records : List Record) → IsSound script → AreSteps script records
        → Requests (setting_of script) (world_after (setting_of script) (start (setting_of script)) records) }
{}

/// And what goes with it: open requests are those of their lines, a pending operation is of its client's write that its server
/// is not past, on a cell that this one has led since, and each letter that was ever sent tells of a request of its line.
pub fn letters_of_clients_and_replies()
    ensures { (script : Script) (records : List Record) → IsSound script → AreSteps script records
        → Asking (setting_of script) (world_after (setting_of script) (start (setting_of script)) records) }
{}

/// The request of a pending operation is open while its server runs; and, also after it stopped, while the cell has a lead by
/// what is chosen, which has not joined again since its own state, and no other server knows that it holds the cell alone.
pub fn pending_writes_are_open()
    ensures { (script : Script) (records : List Record) → IsSound script → AreSteps script records
        → AreOpen (setting_of script) (world_after (setting_of script) (start (setting_of script)) records) }
{}
