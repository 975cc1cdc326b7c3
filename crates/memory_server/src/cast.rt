//! The servers of a run that begins.

ghost use Rattle.std.specs.Prelude.{◌≡◌, All, map, IfOk};
ghost use Rattle.std.specs.List.{range_with_len};
ghost use Rattle.server_host.specs.Desks.{first_sites};
ghost use Rattle.server_store.specs.Slots.{slot_start};
ghost use Rattle.memory_server.specs.Members.{first_site};
ghost use Rattle.memory_server.specs.Armed.{armed_of};
ghost use Rattle.memory_server.specs.Server.{site_of};
ghost use Rattle.spec_rules.specs.Plans.{unarmed};

use crate::memory::MemServer;
use petal_base::Sequence;
use petal_disk::{Disk, MemDisk, Planned};
use script_lines::Script;
use server_host::HostError;
use std::alloc::Global;

fn started(alloc: Global, servers: u8, slots: u32) -> Result<Sequence<MemServer>, HostError>
    ensures sites { IfOk result (λ members. map site_of members ≡ map (first_site servers slots) (range_with_len 0 servers)) }
    ensures devices { IfOk result (λ members. All (λ server. ⟦<Planned<MemDisk> as Disk>⟧.size server.store.disk ≡ slot_start slots) members) }
    ensures unarmed { IfOk result (λ members. All (λ server. armed_of server ≡ unarmed) members) }
{
    let mut members = Sequence::new(alloc);
    for me in 0..servers {
        members.push(MemServer::start(alloc, me, servers, slots)?)?;
    }
    Ok(members)
}

/// The servers of a script, each with an empty store on a device that has exactly the bytes that the script's slots need, and
/// with a state device of its own.
///
/// # Errors
/// Out of memory; `Unexpected` where a device fails, or where the script has a single server.
pub fn members(alloc: Global, script: &Script) -> Result<Sequence<MemServer>, HostError>
    ensures sites { IfOk result (λ members. map site_of members ≡ first_sites script.now) }
    ensures devices { IfOk result (λ members. All (λ server. ⟦<Planned<MemDisk> as Disk>⟧.size server.store.disk ≡ slot_start script.now.slots) members) }
    ensures unarmed { IfOk result (λ members. All (λ server. armed_of server ≡ unarmed) members) }
{
    let members = started(alloc, script.servers, script.slots)?;
    Ok(members)
}
