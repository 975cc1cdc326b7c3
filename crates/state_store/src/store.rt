//! The state store of a server.

ghost use Rattle.std.specs.Prelude.{◌≡◌, ◌≢◌, ◌⊎◌, ◌≤◌, ◌<◌, ◌+◌, ◌==◌, ◌++◌, ◌∷◌, [], ℕ, List, Option, min, if◌then◌else◌, OnOk, OnErr, IfOk};
ghost use Rattle.std.specs.Prelude.{◌^◌, IfSome, IfErr, IsErrOf, IsOk, take, length, Some, None, false};
ghost use Rattle.petal_disk.specs.Plans.{beneath, plan_state};
ghost use Rattle.petal_disk.specs.Disk.{LeavesOnly, Within};
ghost use Rattle.petal_disk.specs.Keeping.{KeepsDevice};
ghost use Rattle.state_store.specs.Device.{header, bodies_of, AreSpelled, StandsFor, StandsForEither, Holds, WithOrWithout, LeftByFormat, IsBadOn};
ghost use Rattle.state_store.specs.Device.{header_bytes, device_bytes, JournalCounts};
ghost use Rattle.state_store.specs.Errors.{IsAppendError, IsCommitError};
ghost use Rattle.spec_paxos.specs.declared.record.StateRecord.{StateRecord};
ghost use Rattle.spec_paxos.specs.Kept.{row_of, row_after, inc_of, inc_after, AddsNothing, Commits, committed};
ghost use Rattle.spec_paxos.specs.declared.record.Row.{Row};
ghost use Rattle.spec_paxos.specs.declared.record.StateRecord.TheVariants as kind;
ghost use Rattle.state_store.specs.declared.error.StateError.TheVariants as error;
ghost use Rattle.petal_base.specs.Limits.{journal_records};

use crate::device::Device;
use crate::error::StateError;
use crate::places::Places;
use petal_base::Inc;
use petal_command::{Ballot, Command};
use petal_disk::{Disk, Plan, Planned};
use spec_paxos::StateRecord;
use std::alloc::Global;
use std::marker::Model;

/// What a server must not forget. Contracts see the records that were committed, the region of their journal, and the
/// device; what is kept for a place, and the incarnation, is what the records give.
#[derive(Drop)]
pub struct StateStore<D: Disk> {
    device: Device<D>,
    places: Places,
    inc: Inc,
}

impl<D: Disk> Model for StateStore<D> {
    ghost use Rattle.std.specs.Prelude.{◌≡◌, ℕ};
    ghost use Rattle.state_store.specs.Device.{Keeping};
    ghost use Rattle.spec_paxos.specs.Kept.{row_of, inc_of};
    ghost use Rattle.state_store.specs.Rows.{row_at};

    ghost Value = { Keeping D };

    ghost view = { λ s. s.device };

    ghost invariant = { λ s. ((place : ℕ) → row_at s.places place ≡ row_of s.device.records place) × (s.inc ≡ inc_of s.device.records) };
}

impl<D: Disk> StateStore<D> {
    /// A store with the one record of its incarnation, on a device that the journal fits. A crash at any moment leaves what
    /// it might have left before, a blank device, or this store.
    ///
    /// # Errors
    /// `Failed`, where the device failed. The device is handed back.
    pub fn format(alloc: Global, disk: D, inc: Inc) -> Result<StateStore<D>, (D, StateError)>
        requires { device_bytes ≤ D.size disk }
        ensures ok { IfOk result (λ s. s.records ≡ kind.Inc inc ∷ []) }
        ensures count { IfOk result (λ s. D.observable → s.region.count ≡ 1) }
        ensures holds { IfOk result (λ s. D.observable → Holds s.region (D.seen s.disk) (D.may_leave s.disk) s.records) }
        ensures errors { IfErr result (λ e. e.1 ≡ error.Failed) }
        ensures any_moment { IfOk result (λ s. D.observable → LeavesOnly D.moment D.left_since disk s.disk (LeftByFormat (D.may_leave disk) inc)) }
        ensures err_any_moment { IfErr result (λ e. D.observable → LeavesOnly D.moment D.left_since disk e.0 (LeftByFormat (D.may_leave disk) inc)) }
        ensures err_either { IfErr result (λ e. D.observable → LeftByFormat (λ file. file ≡ D.seen disk) inc (D.seen e.0)) }
        ensures err_size { IfErr result (λ e. D.size e.0 ≡ D.size disk) }
        ensures failed { IfErr result (λ e. D.faults disk < D.faults e.0) }
        ensures later { IfOk result (λ s. D.faults disk ≤ D.faults s.disk) }
        ensures run { IfOk result (λ s. D.came_to disk s.disk) }
        ensures err_run { IfErr result (λ e. D.came_to disk e.0) }
    {
        match Device::format(disk, inc) {
            Ok(device) => Ok(StateStore {
                device,
                places: Places::new(alloc),
                inc,
            }),
            Err(refused) => Err(refused),
        }
    }

    /// The store that a device stands for.
    ///
    /// # Errors
    /// `Blank` where the device has no header of a state device or is too short for its journal; `BadRecord` where the
    /// record of this index has no spelling, and its gate and all before it are open; `Failed`, where the device failed, and `NoMemory`. The device
    /// is handed back, and but for a sync it is as it was.
    pub fn open(alloc: Global, disk: D) -> Result<StateStore<D>, (D, StateError)>
        ensures found { IfOk result (λ s. D.observable → (take header_bytes (D.seen disk) ≡ header) × JournalCounts (D.seen disk) (bodies_of s.records)) }
        ensures spelled { IfOk result (λ s. AreSpelled s.records) }
        ensures same { (records : List StateRecord) → IfOk result (λ s. D.observable → StandsFor (D.seen disk) records → s.records ≡ records) }
        ensures holds { (records : List StateRecord)
            → IfOk result (λ s. D.observable → StandsFor (D.seen disk) records → Holds s.region (D.seen s.disk) (D.may_leave s.disk) s.records) }
        ensures blank { IfErr result (λ e. e.1 ≡ error.Blank → D.observable → device_bytes ≤ D.size disk → take header_bytes (D.seen disk) ≢ header) }
        ensures bad { (index : ℕ) → IfErr result (λ e. e.1 ≡ error.BadRecord index → D.observable → IsBadOn (D.seen disk) index) }
        ensures failed { IfErr result (λ e. e.1 ≡ error.Failed → D.faults disk < D.faults e.0) }
        ensures bad_headed { (index : ℕ)
            → IfErr result (λ e. e.1 ≡ error.BadRecord index → (device_bytes ≤ D.size disk) × (D.observable → take header_bytes (D.seen disk) ≡ header)) }
        ensures not_full { IfErr result (λ e. e.1 ≢ error.JournalFull) }
        ensures device { IfOk result (λ s. KeepsDevice D.size D.seen D.may_leave D.moment D.left_since disk s.disk) }
        ensures err_device { IfErr result (λ e. KeepsDevice D.size D.seen D.may_leave D.moment D.left_since disk e.0) }
    {
        match Device::open(alloc, disk) {
            Ok((device, kept)) => Ok(StateStore {
                device,
                places: kept.places,
                inc: kept.inc,
            }),
            Err(refused) => Err(refused),
        }
    }

    /// Loses what the device does not keep, as in a crash, and reads again the records that the device then stands for.
    ///
    /// # Errors
    /// `Blank`, `BadRecord`, `Failed` and `NoMemory`, as of `open`. The records in memory are as they were, and are not to be used.
    pub fn reopen(&mut self, alloc: Global) -> Result<(), StateError>
        ensures left { D.observable → D.may_leave self.old.disk (D.seen self.new.disk) }
        ensures same { (records : List StateRecord) → OnOk result (D.observable → StandsFor (D.seen self.new.disk) records → self.new.records ≡ records) }
        ensures holds { (records : List StateRecord) → OnOk result (D.observable → StandsFor (D.seen self.new.disk) records
            → Holds self.new.region (D.seen self.new.disk) (D.may_leave self.new.disk) self.new.records) }
        ensures err { OnErr result (self.new.records ≡ self.old.records) }
        ensures failed { IsErrOf result error.Failed → D.faults self.old.disk < D.faults self.new.disk }
        ensures later { D.faults self.old.disk ≤ D.faults self.new.disk }
        ensures not_full { ¬ IsErrOf result error.JournalFull }
        ensures crash { Within (D.may_leave self.old.disk) (D.may_leave self.new.disk) }
        ensures run { D.came_to self.old.disk self.new.disk }
    {
        let kept = self.device.reopen(alloc)?;
        self.places = kept.places;
        self.inc = kept.inc;
        Ok(())
    }

    /// How many records there are.
    pub fn records(&self) -> u32
        ensures { result ≡ self.now.region.count }
    {
        self.device.count()
    }

    /// The incarnation of the server.
    pub fn inc(&self) -> Inc
        ensures { result ≡ inc_of self.now.records }
    {
        self.inc
    }

    /// The highest ballot of the place's promises and acceptances.
    pub fn promised(&self, place: u32) -> Option<Ballot>
        ensures { result ≡ (row_of self.now.records place).promised }
    {
        self.places.row(place as u64).promised
    }

    /// What was accepted last for the place, and in which ballot.
    pub fn accepted(&self, place: u32) -> Option<(Ballot, Command)>
        ensures { result ≡ (row_of self.now.records place).accepted }
    {
        self.places.row(place as u64).accepted
    }

    /// What is known to be chosen for the place, which may be beyond the greatest that a record can name.
    pub fn chosen(&self, place: u64) -> Option<Command>
        ensures chosen { result ≡ (row_of self.now.records place).chosen }
        ensures within { IfSome result (λ _. place < 2 ^ 32) }
    {
        self.places.row(place).chosen
    }

    /// Raises the incarnation by one. The greatest number stays.
    ///
    /// # Errors
    /// `Failed` where the device failed: the store is to be opened again. `JournalFull` exactly where a commit is needed and
    /// the journal has all its records; `NoMemory`. Nothing changed at these two.
    pub fn raise_inc(&mut self) -> Result<(), StateError>
        ensures ok { OnOk result (self.new.records
            ≡ (if inc_of self.old.records == 4294967295 then self.old.records else self.old.records ++ kind.Inc (inc_of self.old.records + 1) ∷ [])) }
        ensures err { OnErr result (self.new.records ≡ self.old.records) }
        ensures full { IsErrOf result error.JournalFull → (self.old.region.count ≡ journal_records) × (self.new ≡ self.old) }
        ensures full_comes { self.old.region.count ≡ journal_records → inc_of self.old.records ≢ 4294967295 → IsErrOf result error.JournalFull }
        ensures memory { ¬ IsErrOf result error.NoMemory }
        ensures only { IfErr result IsAppendError }
        ensures failed { IsErrOf result error.Failed → D.faults self.old.disk < D.faults self.new.disk }
        ensures holds { D.observable → Holds self.old.region (D.seen self.old.disk) (D.may_leave self.old.disk) self.old.records
            → OnOk result (Holds self.new.region (D.seen self.new.disk) (D.may_leave self.new.disk) self.new.records) }
        ensures either { D.observable → Holds self.old.region (D.seen self.old.disk) (D.may_leave self.old.disk) self.old.records
            → WithOrWithout (D.seen self.new.disk) self.old.records (kind.Inc (inc_of self.old.records + 1)) }
        ensures any_moment { D.observable → Holds self.old.region (D.seen self.old.disk) (D.may_leave self.old.disk) self.old.records
            → LeavesOnly D.moment D.left_since self.old.disk self.new.disk (λ c. WithOrWithout c self.old.records (kind.Inc (inc_of self.old.records + 1))) }
        ensures later { D.faults self.old.disk ≤ D.faults self.new.disk }
        ensures run { D.came_to self.old.disk self.new.disk }
    {
        if self.inc == Inc::MAX {
            return Ok(());
        }
        let inc = self.inc + 1;
        self.device.append(&StateRecord::Inc { inc })?;
        self.inc = inc;
        Ok(())
    }

    /// Promises the ballot at the place. It commits nothing where this ballot or a higher one was promised there.
    ///
    /// # Errors
    /// `Failed` where the device failed: the store is to be opened again. `JournalFull` exactly where a commit is needed and
    /// the journal has all its records; `NoMemory`. Nothing changed at these two.
    #[tactic(auto, using(crate::proofs::Adds::promise_here))]
    pub fn promise(&mut self, place: u32, ballot: Ballot) -> Result<(), StateError>
        ensures ok { OnOk result (Commits self.old.records self.new.records (kind.Promise place ballot)) }
        ensures err { OnErr result (self.new.records ≡ self.old.records) }
        ensures full { IsErrOf result error.JournalFull
            → (self.old.region.count ≡ journal_records) × (¬ AddsNothing self.old.records (kind.Promise place ballot))
            × (self.new ≡ self.old) }
        ensures full_comes { self.old.region.count ≡ journal_records → ¬ AddsNothing self.old.records (kind.Promise place ballot)
            → IsErrOf result error.JournalFull ⊎ IsErrOf result error.NoMemory }
        ensures memory { IsErrOf result error.NoMemory → self.new ≡ self.old }
        ensures only { IfErr result IsCommitError }
        ensures failed { IsErrOf result error.Failed → D.faults self.old.disk < D.faults self.new.disk }
        ensures holds { D.observable → Holds self.old.region (D.seen self.old.disk) (D.may_leave self.old.disk) self.old.records
            → OnOk result (Holds self.new.region (D.seen self.new.disk) (D.may_leave self.new.disk) self.new.records) }
        ensures either { D.observable → Holds self.old.region (D.seen self.old.disk) (D.may_leave self.old.disk) self.old.records
            → WithOrWithout (D.seen self.new.disk) self.old.records (kind.Promise place ballot) }
        ensures any_moment { D.observable → Holds self.old.region (D.seen self.old.disk) (D.may_leave self.old.disk) self.old.records
            → LeavesOnly D.moment D.left_since self.old.disk self.new.disk
            (StandsForEither self.old.records (committed self.old.records (kind.Promise place ballot))) }
        ensures later { D.faults self.old.disk ≤ D.faults self.new.disk }
        ensures run { D.came_to self.old.disk self.new.disk }
    {
        self.commit(place, &StateRecord::Promise { place, ballot })
    }

    /// Accepts the command in the ballot at the place, which counts as a promise of the ballot.
    ///
    /// # Errors
    /// `Failed` where the device failed: the store is to be opened again. `JournalFull` exactly where a commit is needed and
    /// the journal has all its records; `NoMemory`. Nothing changed at these two.
    #[tactic(auto, using(crate::proofs::Adds::accept_here))]
    pub fn accept(
        &mut self,
        place: u32,
        ballot: Ballot,
        command: &Command,
    ) -> Result<(), StateError>
        ensures ok { OnOk result (Commits self.old.records self.new.records (kind.Accepted place ballot command.now)) }
        ensures err { OnErr result (self.new.records ≡ self.old.records) }
        ensures full { IsErrOf result error.JournalFull
            → (self.old.region.count ≡ journal_records) × (¬ AddsNothing self.old.records (kind.Accepted place ballot command.now)) × (self.new ≡ self.old) }
        ensures full_comes { self.old.region.count ≡ journal_records → ¬ AddsNothing self.old.records (kind.Accepted place ballot command.now)
            → IsErrOf result error.JournalFull ⊎ IsErrOf result error.NoMemory }
        ensures memory { IsErrOf result error.NoMemory → self.new ≡ self.old }
        ensures only { IfErr result IsCommitError }
        ensures failed { IsErrOf result error.Failed → D.faults self.old.disk < D.faults self.new.disk }
        ensures holds { D.observable → Holds self.old.region (D.seen self.old.disk) (D.may_leave self.old.disk) self.old.records
            → OnOk result (Holds self.new.region (D.seen self.new.disk) (D.may_leave self.new.disk) self.new.records) }
        ensures either { D.observable → Holds self.old.region (D.seen self.old.disk) (D.may_leave self.old.disk) self.old.records
            → WithOrWithout (D.seen self.new.disk) self.old.records (kind.Accepted place ballot command.now) }
        ensures any_moment { D.observable → Holds self.old.region (D.seen self.old.disk) (D.may_leave self.old.disk) self.old.records
            → LeavesOnly D.moment D.left_since self.old.disk self.new.disk
            (StandsForEither self.old.records (committed self.old.records (kind.Accepted place ballot command.now))) }
        ensures later { D.faults self.old.disk ≤ D.faults self.new.disk }
        ensures run { D.came_to self.old.disk self.new.disk }
    {
        self.commit(
            place,
            &StateRecord::Accepted {
                place,
                ballot,
                command: command.copy(),
            },
        )
    }

    /// Keeps that the command is chosen for the place.
    ///
    /// # Errors
    /// `Failed` where the device failed: the store is to be opened again. `JournalFull` exactly where a commit is needed and
    /// the journal has all its records; `NoMemory`. Nothing changed at these two.
    #[tactic(auto, using(crate::proofs::Adds::choose_here))]
    pub fn choose(&mut self, place: u32, command: &Command) -> Result<(), StateError>
        ensures ok { OnOk result (Commits self.old.records self.new.records (kind.Chosen place command.now)) }
        ensures err { OnErr result (self.new.records ≡ self.old.records) }
        ensures full { IsErrOf result error.JournalFull
            → (self.old.region.count ≡ journal_records) × (¬ AddsNothing self.old.records (kind.Chosen place command.now)) × (self.new ≡ self.old) }
        ensures full_comes { self.old.region.count ≡ journal_records → ¬ AddsNothing self.old.records (kind.Chosen place command.now)
            → IsErrOf result error.JournalFull ⊎ IsErrOf result error.NoMemory }
        ensures memory { IsErrOf result error.NoMemory → self.new ≡ self.old }
        ensures only { IfErr result IsCommitError }
        ensures failed { IsErrOf result error.Failed → D.faults self.old.disk < D.faults self.new.disk }
        ensures holds { D.observable → Holds self.old.region (D.seen self.old.disk) (D.may_leave self.old.disk) self.old.records
            → OnOk result (Holds self.new.region (D.seen self.new.disk) (D.may_leave self.new.disk) self.new.records) }
        ensures either { D.observable → Holds self.old.region (D.seen self.old.disk) (D.may_leave self.old.disk) self.old.records
            → WithOrWithout (D.seen self.new.disk) self.old.records (kind.Chosen place command.now) }
        ensures any_moment { D.observable → Holds self.old.region (D.seen self.old.disk) (D.may_leave self.old.disk) self.old.records
            → LeavesOnly D.moment D.left_since self.old.disk self.new.disk
            (StandsForEither self.old.records (committed self.old.records (kind.Chosen place command.now))) }
        ensures later { D.faults self.old.disk ≤ D.faults self.new.disk }
        ensures run { D.came_to self.old.disk self.new.disk }
    {
        self.commit(
            place,
            &StateRecord::Chosen {
                place,
                command: command.copy(),
            },
        )
    }

    /// Commits one record more about a place; none where it would change nothing.
    fn commit(&mut self, place: u32, entry: &StateRecord) -> Result<(), StateError>
        requires here { (row : ℕ → Row) (p : ℕ) → row_after p (row p) entry.now ≡ (if p == place then row_after place (row place) entry.now else row p) }
        requires inc { (i : ℕ) → inc_after i entry.now ≡ i }
        ensures ok { OnOk result (Commits self.old.records self.new.records entry.now) }
        ensures err { OnErr result (self.new.records ≡ self.old.records) }
        ensures full { IsErrOf result error.JournalFull
            → (self.old.region.count ≡ journal_records) × (¬ AddsNothing self.old.records entry.now) × (self.new ≡ self.old) }
        ensures full_comes { self.old.region.count ≡ journal_records → ¬ AddsNothing self.old.records entry.now
            → IsErrOf result error.JournalFull ⊎ IsErrOf result error.NoMemory }
        ensures memory { IsErrOf result error.NoMemory → self.new ≡ self.old }
        ensures only { IfErr result IsCommitError }
        ensures failed { IsErrOf result error.Failed → D.faults self.old.disk < D.faults self.new.disk }
        ensures holds { D.observable → Holds self.old.region (D.seen self.old.disk) (D.may_leave self.old.disk) self.old.records
            → OnOk result (Holds self.new.region (D.seen self.new.disk) (D.may_leave self.new.disk) self.new.records) }
        ensures either { D.observable → Holds self.old.region (D.seen self.old.disk) (D.may_leave self.old.disk) self.old.records
            → WithOrWithout (D.seen self.new.disk) self.old.records entry.now }
        ensures any_moment { D.observable → Holds self.old.region (D.seen self.old.disk) (D.may_leave self.old.disk) self.old.records
            → LeavesOnly D.moment D.left_since self.old.disk self.new.disk (StandsForEither self.old.records (committed self.old.records entry.now)) }
        ensures later { D.faults self.old.disk ≤ D.faults self.new.disk }
        ensures run { D.came_to self.old.disk self.new.disk }
    {
        if self.places.keeps(place, entry) {
            return Ok(());
        }
        self.add(place, entry)
    }

    /// Commits one record more about a place.
    fn add(&mut self, place: u32, entry: &StateRecord) -> Result<(), StateError>
        requires here { (row : ℕ → Row) (p : ℕ) → row_after p (row p) entry.now ≡ (if p == place then row_after place (row place) entry.now else row p) }
        requires inc { (i : ℕ) → inc_after i entry.now ≡ i }
        ensures ok { OnOk result (self.new.records ≡ self.old.records ++ entry.now ∷ []) }
        ensures err { OnErr result (self.new.records ≡ self.old.records) }
        ensures full { IsErrOf result error.JournalFull → (self.old.region.count ≡ journal_records) × (self.new ≡ self.old) }
        ensures full_comes { self.old.region.count ≡ journal_records → IsErrOf result error.JournalFull ⊎ IsErrOf result error.NoMemory }
        ensures memory { IsErrOf result error.NoMemory → self.new ≡ self.old }
        ensures only { IfErr result IsCommitError }
        ensures failed { IsErrOf result error.Failed → D.faults self.old.disk < D.faults self.new.disk }
        ensures holds { D.observable → Holds self.old.region (D.seen self.old.disk) (D.may_leave self.old.disk) self.old.records
            → OnOk result (Holds self.new.region (D.seen self.new.disk) (D.may_leave self.new.disk) self.new.records) }
        ensures either { D.observable → Holds self.old.region (D.seen self.old.disk) (D.may_leave self.old.disk) self.old.records
            → WithOrWithout (D.seen self.new.disk) self.old.records entry.now }
        ensures any_moment { D.observable → Holds self.old.region (D.seen self.old.disk) (D.may_leave self.old.disk) self.old.records
            → LeavesOnly D.moment D.left_since self.old.disk self.new.disk (λ c. WithOrWithout c self.old.records entry.now) }
        ensures later { D.faults self.old.disk ≤ D.faults self.new.disk }
        ensures run { D.came_to self.old.disk self.new.disk }
    {
        self.places.make_room(place)?;
        self.device.append(entry)?;
        self.places.note(place, entry);
        Ok(())
    }

    /// The device.
    pub fn into_disk(self) -> D
        ensures { result ≡ self.disk }
    {
        self.device.into_disk()
    }
}

impl<E: Disk> StateStore<Planned<E>> {
    /// Arms the device's one plan, and changes nothing else.
    pub fn arm(&mut self, plan: Plan)
        ensures disk { beneath self.new.disk ≡ beneath self.old.disk }
        ensures state { plan_state self.new.disk ≡ record (plan_state self.old.disk) { plan = Some plan; stopped = false } }
        ensures rest { self.new ≡ record self.old { disk = self.new.disk } }
    {
        self.device.arm(plan);
    }

    /// No plan counts from now on, and nothing else changes.
    pub fn disarm(&mut self)
        ensures disk { beneath self.new.disk ≡ beneath self.old.disk }
        ensures state { plan_state self.new.disk ≡ record (plan_state self.old.disk) { plan = None } }
        ensures rest { self.new ≡ record self.old { disk = self.new.disk } }
    {
        self.device.disarm();
    }

    /// Whether a plan with `stop` was met since the last arming.
    pub fn stopped(&self) -> bool
        ensures { result ≡ (plan_state self.now.disk).stopped }
    {
        self.device.stopped()
    }
}
