//! Whether a merged history is one run.

ghost use Rattle.std.specs.Prelude.{◌≡◌, ◌<◌, ◌+◌, IfOk, IsTrue, length};
ghost use Rattle.law_merge.specs.Joined.{AreJoinedIn};
ghost use Rattle.script_lines.specs.declared.script.Script.{Script};
ghost use Rattle.spec_history.specs.Legal.{IsLegal};
ghost use Rattle.server_host.specs.Playable.{AreNumbered, AreOrdered};
ghost use Rattle.history_merge.specs.Fronts.{IsSoFar};
ghost use Rattle.history_merge.specs.Runs.{AreOwn};

use crate::Front;
use law_merge::one_run_is_legal;
use petal_base::NoMemory;
use script_lines::Script;
use spec_history::Record;
use std::alloc::Global;

/// Takes the record at a place, where it comes next after all records before it.
fn takes(front: &mut Front, servers: u8, records: &[Record], place: usize) -> bool
    requires { place < length records.now }
    ensures { IsTrue result → (script : Script) → AreOrdered script.lines → script.servers ≡ servers → IsSoFar script records.now place front.old
        → IsSoFar script records.now (place + 1) front.new }
{
    if !front.admits(servers, records, place) {
        return false;
    }
    front.follow(&records[place]);
    true
}

/// Whether the actors' own records are joined to one run of the script, where they stand by stamp and actor: each letter that comes was
/// sent before, each step that a line of the operator gives a server comes while that line is open, in its order, and each call comes after
/// every answer of the phases before. It goes through the records once.
pub fn joined(alloc: Global, script: &Script, records: &[Record]) -> Result<bool, NoMemory>
    requires numbered { AreNumbered script.now.lines }
    requires ordered { AreOrdered script.now.lines }
    ensures joined { IfOk result (λ yes. IsTrue yes → AreOwn script.now records.now → AreJoinedIn script.now records.now) }
    ensures legal { IfOk result (λ yes. IsTrue yes → AreOwn script.now records.now → IsLegal script.now records.now) }
{
    one_run_is_legal();
    let mut front = Front::start(alloc, script)?;
    for place in 0..records.len() {
        if !takes(&mut front, script.servers, records, place) {
            return Ok(false);
        }
    }
    Ok(true)
}
