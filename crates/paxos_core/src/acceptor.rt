//! The acceptor, over its server's state store.

ghost use Rattle.std.specs.Prelude.{◌≡◌, ◌⊎◌, ◌≤◌, ◌<◌, if◌then◌else◌, ℕ, None, OnOk, OnErr, IfOk, IfErr, IsErrOf};
ghost use Rattle.petal_disk.specs.Disk.{LeavesOnly};
ghost use Rattle.paxos_core.specs.Needs.{Needs};
ghost use Rattle.spec_paxos.specs.Member.{put};
ghost use Rattle.spec_paxos.specs.Acceptor.{is_open, on_prepare, prepare_reply, on_accept, accept_reply};
ghost use Rattle.state_store.specs.Device.{Holds, StandsForEither, WithOrWithout};
ghost use Rattle.state_store.specs.Errors.{IsCommitError};
ghost use Rattle.spec_paxos.specs.Kept.{acceptor_of, committed};
ghost use Rattle.spec_paxos.specs.declared.record.StateRecord.TheVariants as kind;
ghost use Rattle.state_store.specs.declared.error.StateError.TheVariants as error;
ghost use Rattle.petal_base.specs.Limits.{journal_records};

use petal_command::{Ballot, Command, Pax};
use petal_disk::Disk;
use state_store::{StateError, StateStore};

/// Promises the ballot at the place, unless a higher one has a promise there. A promise that is answered stands on the
/// device, whatever crash comes.
///
/// # Errors
/// As `StateStore::promise`: `JournalFull` comes only where the journal has all its records and the promise is to be committed,
/// and there nothing but it or `NoMemory` comes.
pub fn on_prepare<D: Disk>(
    store: &mut StateStore<D>,
    place: u32,
    ballot: Ballot,
) -> Result<Pax, StateError>
    ensures reply { IfOk result (λ letter. letter ≡ prepare_reply place (acceptor_of store.old.records place) ballot) }
    ensures kept { OnOk result ((p : ℕ)
        → acceptor_of store.new.records p ≡ put (acceptor_of store.old.records) place (on_prepare (acceptor_of store.old.records place) ballot) p) }
    ensures records { OnOk result (store.new.records
        ≡ (if is_open (acceptor_of store.old.records place) ballot then committed store.old.records (kind.Promise place ballot) else store.old.records)) }
    ensures err { OnErr result (store.new.records ≡ store.old.records) }
    ensures holds { D.observable → Holds store.old.region (D.seen store.old.disk) (D.may_leave store.old.disk) store.old.records
        → OnOk result (Holds store.new.region (D.seen store.new.disk) (D.may_leave store.new.disk) store.new.records) }
    ensures any_moment { D.observable → Holds store.old.region (D.seen store.old.disk) (D.may_leave store.old.disk) store.old.records
        → LeavesOnly D.moment D.left_since store.old.disk store.new.disk (StandsForEither store.old.records
        (if is_open (acceptor_of store.old.records place) ballot then committed store.old.records (kind.Promise place ballot) else store.old.records)) }
    ensures either { D.observable → Holds store.old.region (D.seen store.old.disk) (D.may_leave store.old.disk) store.old.records
        → WithOrWithout (D.seen store.new.disk) store.old.records (kind.Promise place ballot) }
    ensures full { IsErrOf result error.JournalFull
        → (store.old.region.count ≡ journal_records) × Needs store.old.records place ballot (kind.Promise place ballot) × (store.new ≡ store.old) }
    ensures full_comes { store.old.region.count ≡ journal_records → Needs store.old.records place ballot (kind.Promise place ballot)
        → IsErrOf result error.JournalFull ⊎ IsErrOf result error.NoMemory }
    ensures memory { IsErrOf result error.NoMemory → store.new ≡ store.old }
    ensures only { IfErr result IsCommitError }
    ensures failed { IsErrOf result error.Failed → D.faults store.old.disk < D.faults store.new.disk }
    ensures later { D.faults store.old.disk ≤ D.faults store.new.disk }
    ensures run { D.came_to store.old.disk store.new.disk }
{
    if let Some(promised) = higher(store, place, ballot) {
        return Ok(Pax::Refuse {
            place,
            ballot,
            promised,
        });
    }
    let accepted = store.accepted(place);
    store.promise(place, ballot)?;
    Ok(Pax::Promise {
        place,
        ballot,
        accepted,
    })
}

/// Accepts the command in the ballot at the place, unless a higher one has a promise there. An acceptance that is answered
/// stands on the device, whatever crash comes.
///
/// # Errors
/// As `StateStore::accept`: `JournalFull` comes only where the journal has all its records and the acceptance is to be
/// committed, and there nothing but it or `NoMemory` comes.
pub fn on_accept<D: Disk>(
    store: &mut StateStore<D>,
    place: u32,
    ballot: Ballot,
    command: &Command,
) -> Result<Pax, StateError>
    ensures reply { IfOk result (λ letter. letter ≡ accept_reply place (acceptor_of store.old.records place) ballot) }
    ensures kept { OnOk result ((p : ℕ)
        → acceptor_of store.new.records p ≡ put (acceptor_of store.old.records) place (on_accept (acceptor_of store.old.records place) ballot command.now) p) }
    ensures records { OnOk result (store.new.records ≡ (if is_open (acceptor_of store.old.records place) ballot
        then committed store.old.records (kind.Accepted place ballot command.now) else store.old.records)) }
    ensures err { OnErr result (store.new.records ≡ store.old.records) }
    ensures holds { D.observable → Holds store.old.region (D.seen store.old.disk) (D.may_leave store.old.disk) store.old.records
        → OnOk result (Holds store.new.region (D.seen store.new.disk) (D.may_leave store.new.disk) store.new.records) }
    ensures any_moment { D.observable → Holds store.old.region (D.seen store.old.disk) (D.may_leave store.old.disk) store.old.records
        → LeavesOnly D.moment D.left_since store.old.disk store.new.disk (StandsForEither store.old.records
        (if is_open (acceptor_of store.old.records place) ballot then committed store.old.records (kind.Accepted place ballot command.now)
        else store.old.records)) }
    ensures either { D.observable → Holds store.old.region (D.seen store.old.disk) (D.may_leave store.old.disk) store.old.records
        → WithOrWithout (D.seen store.new.disk) store.old.records (kind.Accepted place ballot command.now) }
    ensures full { IsErrOf result error.JournalFull
        → (store.old.region.count ≡ journal_records) × Needs store.old.records place ballot (kind.Accepted place ballot command.now) × (store.new ≡ store.old) }
    ensures full_comes { store.old.region.count ≡ journal_records → Needs store.old.records place ballot (kind.Accepted place ballot command.now)
        → IsErrOf result error.JournalFull ⊎ IsErrOf result error.NoMemory }
    ensures memory { IsErrOf result error.NoMemory → store.new ≡ store.old }
    ensures only { IfErr result IsCommitError }
    ensures failed { IsErrOf result error.Failed → D.faults store.old.disk < D.faults store.new.disk }
    ensures later { D.faults store.old.disk ≤ D.faults store.new.disk }
    ensures run { D.came_to store.old.disk store.new.disk }
{
    if let Some(promised) = higher(store, place, ballot) {
        return Ok(Pax::Refuse {
            place,
            ballot,
            promised,
        });
    }
    store.accept(place, ballot, command)?;
    Ok(Pax::Accepted { place, ballot })
}

/// The promised ballot, where it is higher than this one.
fn higher<D: Disk>(store: &StateStore<D>, place: u32, ballot: Ballot) -> Option<Ballot>
    ensures { result ≡ (if is_open (acceptor_of store.now.records place) ballot then None else (acceptor_of store.now.records place).promised) }
{
    match store.promised(place) {
        Some(promised) if !promised.is_at_most(ballot) => Some(promised),
        _ => None,
    }
}
