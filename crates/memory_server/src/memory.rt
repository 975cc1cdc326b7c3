//! A server with disks in memory, as a world steps it.

ghost use Rattle.std.specs.Prelude.{◌≡◌, ◌∷◌, [], true, false, None, IfOk};
ghost use Rattle.server_log.specs.Done as logs;
ghost use Rattle.spec_paxos.specs.declared.record.StateRecord.TheVariants.{Inc};
ghost use Rattle.spec_rules.specs.Server.{first_server};
ghost use Rattle.spec_rules.specs.declared.step.Step.TheVariants.{Blank};
ghost use Rattle.server_host.specs.Desks.{site_after};
ghost use Rattle.server_host.specs.declared.step_end.StepEnd.TheVariants.{Done};
ghost use Rattle.server_store.specs.Shown.{Holds};
ghost use Rattle.server_store.specs.Slots.{slot_start};
ghost use Rattle.memory_server.specs.Server.{site_of};
ghost use Rattle.petal_disk.specs.Plans.{plan_state};
ghost use Rattle.spec_rules.specs.Plans.{AreLeftOf, unarmed};
ghost use Rattle.memory_server.specs.Armed.{armed_of};

use crate::failing::{of_state, of_store};
use crate::server::DeskServer;
use crate::taken::done;
use petal_base::{Inc, NoMemory, Rev, Sequence, ServerId, SlotCount};
use petal_disk::{Disk, MemDisk, Planned};
use server_host::{Host, HostError, HostResult};
use server_store::{DATA_START, SLOT_BYTES, Store};
use spec_rules::Step;
use state_store::{DEVICE_BYTES, StateStore};
use std::alloc::Global;
use std::marker::Model;

/// A server with its store and its state store, each on a disk in memory. Contracts see the core and what the stores hold.
#[derive(Drop)]
pub struct MemServer {
    server: DeskServer<MemDisk>,
}

impl Model for MemServer {
    ghost use Rattle.petal_disk.specs.declared.memory_disk.MemDisk.{MemDisk};
    ghost use Rattle.petal_disk.specs.declared.planned.Planned.{Planned};
    ghost use Rattle.memory_server.specs.Server.{Mounted};

    ghost Value = { Mounted (Planned MemDisk) };

    ghost view = { λ s. s.server };
}

/// A blank device that has exactly the bytes that so many slots need.
fn blank_device(alloc: Global, slots: u32) -> Result<MemDisk, NoMemory>
    ensures { IfOk result (λ disk. ⟦<MemDisk as Disk>⟧.size disk ≡ slot_start slots) }
{
    MemDisk::new(alloc, DATA_START + SLOT_BYTES * u64::from(slots))
}

/// The state store of a server that runs for the first time.
fn first_state(alloc: Global) -> Result<StateStore<Planned<MemDisk>>, HostError>
    ensures records { IfOk result (λ state. state.records ≡ Inc 1 ∷ []) }
    ensures holds { IfOk result (λ state. logs.HoldsAt ⟦<Planned<MemDisk> as Disk>⟧ state) }
    ensures plan { IfOk result (λ state. (plan_state state.disk).plan ≡ None) }
{
    let Ok(disk) = MemDisk::new(alloc, DEVICE_BYTES) else {
        return Err(HostError::NoMemory);
    };
    match StateStore::format(alloc, Planned::new(disk), 1) {
        Ok(state) => Ok(state),
        Err((_, error)) => Err(of_state(error)),
    }
}

/// The store on a blank device that has exactly the bytes that so many slots need. There may not be more than a store has.
fn first_store(alloc: Global, slots: u32) -> Result<Store<Planned<MemDisk>>, HostError>
    ensures blank { IfOk result (λ store. store ≡ record {
      entries = [];
      tickets = [];
      marks = [];
      rows = [];
      slots = slots;
      fresh = false;
      log = record { fresh = false; records = []; halves = store.log.halves };
      disk = store.disk;
    }) }
    ensures holds { IfOk result (λ store. Holds store (⟦<Planned<MemDisk> as Disk>⟧.seen store.disk) (⟦<Planned<MemDisk> as Disk>⟧.may_leave store.disk)) }
    ensures size { IfOk result (λ store. ⟦<Planned<MemDisk> as Disk>⟧.size store.disk ≡ slot_start slots) }
    ensures plan { IfOk result (λ store. (plan_state store.disk).plan ≡ None) }
{
    let Some(count) = SlotCount::new(slots) else {
        return Err(HostError::Unexpected);
    };
    let disk = blank_device(alloc, slots)?;
    match Store::format(alloc, Planned::new(disk), count.get(), false) {
        Ok(store) => Ok(store),
        Err((_, error)) => Err(of_store(error)),
    }
}

impl MemServer {
    /// The first incarnation of one of so many servers, with a blank device that has exactly the bytes that so many slots need,
    /// and a state device of its own.
    ///
    /// # Errors
    /// Out of memory; `Unexpected` where a device fails, where there is no such server, where it is the only one, or where it would
    /// have more slots than a store may have.
    pub fn start(
        alloc: Global,
        me: ServerId,
        servers: u8,
        slots: u32,
    ) -> Result<MemServer, HostError>
        ensures site { IfOk result (λ server. site_of server ≡ record { me = me; servers = servers; server = first_server true slots }) }
        ensures device { IfOk result (λ server. ⟦<Planned<MemDisk> as Disk>⟧.size server.store.disk ≡ slot_start slots) }
        ensures plans { IfOk result (λ server. armed_of server ≡ unarmed) }
    {
        let state = first_state(alloc)?;
        let store = first_store(alloc, slots)?;
        Ok(MemServer {
            server: DeskServer::start(alloc, me, servers, store, state)?,
        })
    }

    /// A new blank disk takes the place of the data device, where it is stopped.
    fn blank(&mut self, alloc: Global) -> Result<HostResult, HostError>
        ensures site { IfOk result (λ taken. site_of self.new ≡ site_after (site_of self.old) Blank) }
        ensures taken { IfOk result (λ taken. taken ≡ record { letters = []; end = Done }) }
        ensures plans { IfOk result (λ taken. AreLeftOf (armed_of self.old) (armed_of self.new)) }
    {
        let disk = blank_device(alloc, self.server.slots())?;
        self.server.blank(disk)?;
        Ok(done(Sequence::new(alloc)))
    }
}

impl Host for MemServer {
    ghost use Rattle.petal_disk.specs.declared.memory_disk.MemDisk.{MemDisk};
    ghost use Rattle.petal_disk.specs.declared.planned.Planned.{Planned};
    ghost use Rattle.memory_server.specs.Server.{faults_of, site_of};
    ghost use Rattle.memory_server.specs.Armed.{armed_of};

    ghost seen = { site_of };

    ghost faults = { faults_of ⟦<Planned<MemDisk> as Disk>⟧ };

    ghost armed = { armed_of };

    fn step(&mut self, alloc: Global, step: &Step) -> Result<HostResult, HostError> {
        match step {
            Step::Blank => self.blank(alloc),
            _ => self.server.step(alloc, step),
        }
    }

    fn is_running(&self) -> bool {
        self.server.is_running()
    }

    fn inc(&self) -> Inc {
        self.server.inc()
    }

    fn is_idle(&self) -> bool {
        self.server.is_idle()
    }

    fn is_spent(&self) -> bool {
        self.server.is_spent()
    }

    fn rev(&self) -> Rev {
        self.server.rev()
    }
}
