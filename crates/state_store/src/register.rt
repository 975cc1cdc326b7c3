//! What the bodies of a journal say, read in order.

ghost use Rattle.std.specs.Prelude.{◌≡◌, ◌<◌, ◌^◌, ◌==◌, ℕ, List, [], length, slice_index_or, if◌then◌else◌, IfOk, IfErr};
ghost use Rattle.block_journal.specs.Records.{contents};
ghost use Rattle.state_store.specs.Body.{body_of, HasBody};
ghost use Rattle.state_store.specs.Device.{bodies_of, AreSpelled};
ghost use Rattle.spec_paxos.specs.Kept.{row_of, inc_of, row_after, inc_after};
ghost use Rattle.state_store.specs.Rows.{row_at};
ghost use Rattle.spec_paxos.specs.declared.record.StateRecord.{StateRecord};
ghost use Rattle.spec_paxos.specs.declared.record.Row.{Row};
ghost use Rattle.state_store.specs.declared.error.StateError.TheVariants as error;
ghost use Rattle.state_store.specs.Errors.{IsReadError};

use crate::error::StateError;
use crate::places::Places;
use crate::record::record_of;
use petal_base::{GhostList, Inc, NoMemory};
use spec_paxos::StateRecord;
use std::alloc::Global;

/// The records, and what they give.
#[derive(Drop)]
pub struct Register {
    pub history: GhostList<StateRecord>,
    pub places: Places,
    pub inc: Inc,
}

/// Reads the records of the bodies.
pub fn read_records(alloc: Global, bodies: &[Vec<u8>]) -> Result<Register, StateError>
    requires { length bodies.now < 2 ^ 32 }
    ensures found { IfOk result (λ r. bodies_of r.history.items ≡ contents bodies.now) }
    ensures spelled { IfOk result (λ r. AreSpelled r.history.items) }
    ensures same { (records : List StateRecord) → AreSpelled records → contents bodies.now ≡ bodies_of records → IfOk result (λ r. r.history.items ≡ records) }
    ensures rows { IfOk result (λ r. (place : ℕ) → row_at r.places place ≡ row_of r.history.items place) }
    ensures inc { IfOk result (λ r. r.inc ≡ inc_of r.history.items) }
    ensures bad { (index : ℕ) → IfErr result (λ e. e ≡ error.BadRecord index
        → (index < length bodies.now) × ((r : StateRecord) → HasBody r → slice_index_or (contents bodies.now) index [] ≡ body_of r → ⊥)) }
    ensures errors { IfErr result IsReadError }
{
    let mut history = GhostList::new();
    let mut places = Places::new(alloc);
    let mut inc = 0;
    for index in 0..bodies.len() {
        let Some(entry) = record_of(&bodies[index]) else {
            return Err(StateError::BadRecord {
                index: index as u32,
            });
        };
        inc = inc_noted(inc, &entry);
        places = noted(places, &entry)?;
        history = history.with(&entry);
    }
    Ok(Register {
        history,
        places,
        inc,
    })
}

/// The incarnation after a record.
fn inc_noted(inc: Inc, entry: &StateRecord) -> Inc
    ensures { result ≡ inc_after inc entry.now }
{
    match entry {
        StateRecord::Inc { inc } => *inc,
        _ => inc,
    }
}

/// What is kept after a record.
fn noted(places: Places, entry: &StateRecord) -> Result<Places, NoMemory>
    ensures { IfOk result (λ after. (p : ℕ) → row_at after p ≡ row_after p (row_at places p) entry.now) }
{
    match entry {
        StateRecord::Inc { .. } => Ok(places),
        StateRecord::Promise { place, .. } => noted_at(places, *place, entry),
        StateRecord::Accepted { place, .. } => noted_at(places, *place, entry),
        StateRecord::Chosen { place, .. } => noted_at(places, *place, entry),
    }
}

/// What is kept after a record about the place.
fn noted_at(places: Places, place: u32, entry: &StateRecord) -> Result<Places, NoMemory>
    requires { (row : ℕ → Row) (p : ℕ) → row_after p (row p) entry.now ≡ (if p == place then row_after place (row place) entry.now else row p) }
    ensures { IfOk result (λ after. (p : ℕ) → row_at after p ≡ row_after p (row_at places p) entry.now) }
{
    let mut places = places;
    places.make_room(place)?;
    places.note(place, entry);
    Ok(places)
}
