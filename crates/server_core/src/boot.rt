//! A stopped server runs again.

ghost use Rattle.std.specs.Prelude.{◌≡◌, ◌<◌, ◌+◌, [], true, false, length, IfOk, OnOk, OnErr};
ghost use Rattle.server_log.specs.Part.{Part, new_part, sender_of};
ghost use Rattle.spec_paxos.specs.Kept.{inc_of};
ghost use Rattle.spec_rules.specs.Entries.{known_run};
ghost use Rattle.spec_rules.specs.Jobs.{down_posts};
ghost use Rattle.spec_rules.specs.Log.{Log};
ghost use Rattle.spec_rules.specs.Server.{letters_of};
ghost use Rattle.spec_rules.specs.World.{greatest_u32};
ghost use Rattle.server_core.specs.Boots.{IsBoot, booted, next_voter, raised_core};

use crate::log::of_state;
use crate::server::ServerCore;
use pair_memory::WorkError;
use petal_base::{Inc, NoMemory, Sequence};
use petal_command::ServerNumber;
use petal_disk::Disk;
use petal_msg::Letter;
use server_log::{LogSide, ServerCount, farewell};
use state_store::StateStore;
use std::alloc::Global;

/// The part of the log of the incarnation after this one, which has applied what the state device knows to be chosen, and the
/// letters that tell the others that the one before has stopped.
fn next_log<E: Disk>(
    alloc: Global,
    me: ServerNumber,
    before: Inc,
    servers: ServerCount,
    state: &StateStore<E>,
) -> Result<(LogSide, Sequence<Letter>), NoMemory>
    requires { before < greatest_u32 }
    ensures voter { IfOk result (λ out. out.0.voter ≡ record { me = me; inc = before + 1; servers = servers }) }
    ensures part { (log : Log) → log.records ≡ state.now.records → IfOk result (λ out. out.0
        ≡ record (new_part (record { me = me; inc = before + 1; servers = servers })) { applied = known_run log 1 state.now.region.count }) }
    ensures letters { IfOk result (λ out. out.1 ≡ letters_of (sender_of out.0) 0 (down_posts me before servers)) }
{
    let log = LogSide::boot(alloc, me, before + 1, servers, state)?;
    let letters = log
        .envelope()
        .down_letters(alloc, me, before, servers.get())?;
    Ok((log, letters))
}

impl ServerCore {
    /// A stopped server runs as its next incarnation, and the letters, with the stamp 0, tell the others that the one before has
    /// stopped. The incarnation is raised on the state device; the entries that this one knows to be chosen are applied, up to the
    /// first that it does not know; nothing is pending, and no job waits. Its store is to be opened again before, so that no slot
    /// is set apart.
    ///
    /// # Errors
    /// `Failed` where the state device failed: the server is stopped as before, its records are as they were, and its state store
    /// is to be opened again. `NoRoom` where the journal of the state device has no room: nothing happened. `NoMemory`: the
    /// server is stopped as before, and the incarnation on its device may be raised.
    pub fn boot<E: Disk>(
        &mut self,
        alloc: Global,
        state: &mut StateStore<E>,
    ) -> Result<Sequence<Letter>, WorkError>
        requires stopped { self.old.running ≡ false }
        requires known { self.old.log.voter.inc ≡ inc_of state.old.records }
        requires raises { self.old.log.voter.inc < greatest_u32 }
        ensures { IsBoot E.Disk self.old self.new state.old state.new result }
    {
        match state.raise_inc() {
            Ok(()) => Ok(self.wake(alloc, state)?),
            Err(error) => Err(of_state(error)),
        }
    }

    /// It runs as the next incarnation, which stands on its state device.
    fn wake<E: Disk>(
        &mut self,
        alloc: Global,
        state: &StateStore<E>,
    ) -> Result<Sequence<Letter>, NoMemory>
        requires raises { self.old.log.voter.inc < greatest_u32 }
        ensures core { (log : Log) → log.records ≡ state.now.records
            → OnOk result (self.new ≡ booted self.old.log.voter (known_run log 1 state.now.region.count)) }
        ensures letters { IfOk result (λ letters. letters ≡ letters_of (sender_of self.new.log) 0
            (down_posts self.old.log.voter.me self.old.log.voter.inc self.old.log.voter.servers)) }
        ensures err { OnErr result (self.new ≡ self.old) }
    {
        let (number, before, servers) = (self.parts.log.number(), self.inc(), self.servers());
        let farewell = farewell(alloc, number, before + 1, servers.get())?;
        let (log, letters) = next_log(alloc, number, before, servers, state)?;
        self.parts.restart(alloc, log);
        self.farewell = farewell;
        Ok(letters)
    }

    /// The server's incarnation is the next one, as its state device tells after a boot that ended there.
    pub fn raise(&mut self)
        requires stopped { self.old.running ≡ false }
        requires raises { self.old.log.voter.inc < greatest_u32 }
        ensures { self.new ≡ raised_core self.old }
    {
        self.parts.log.raise();
    }
}
