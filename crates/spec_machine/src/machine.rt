//! The plain slow program.

ghost use Rattle.std.specs.Prelude.{◌≡◌, ◌≢◌, ℕ, List, [], ◌∷◌, ◌++◌, map, find, position, Some, None, true, false, OnOk};
ghost use Rattle.std.specs.Prelude.{OnErr, IfOk, IfSome, IfNone, MatchBool};
ghost use Rattle.std.specs.Option.{option_copied};
ghost use Rattle.std.specs.Ordering.{nat_cmp};
ghost use Rattle.petal_base.specs.Block.{zero_block};
ghost use Rattle.petal_table.specs.Table.{put};
ghost use Rattle.spec_machine.specs.Machine.{blank, blocks_of, but_of, content, disk_of, is_named, is_of, is_snap_named, open_of};
ghost use Rattle.spec_machine.specs.Machine.{plain, remembers, snap_of, stands, with_disk};
ghost use Rattle.spec_machine.specs.Run.{after, changed, remembered, frozen, written, HasDisk, IsOpen, May, MayEnd, MayFreeze, MayLook};

use crate::{Event, Open, PlainDisk, PlainSnapshot, Write, WriteEnd};
use petal_base::{Block, BlockNo, ClientId, Name, NoMemory, Sequence, SharedBlock};
use petal_table::Table;
use std::alloc::{AllocError, AllocFailed, Global};
use std::marker::Model;
use thiserror::Error;

/// Why an event did not happen. The machine is as before.
#[derive(Clone, Copy, Debug, PartialEq, Eq, Error)]
pub enum EventError {
    /// The machine does not allow the event in this state.
    #[error("the machine does not allow this event")]
    NotAllowed,
    /// There was no memory for it.
    #[error("out of memory")]
    NoMemory,
}

/// The plain machine as a program. Contracts see its disks and its writes under way.
#[derive(Drop)]
pub struct Machine {
    disks: Vec<PlainDisk>,
    opened: Vec<Open>,
    zero: SharedBlock,
}

impl Model for Machine {
    ghost use Rattle.std.specs.Prelude.{◌≡◌};
    ghost use Rattle.petal_base.specs.Block.{zero_block};
    ghost use Rattle.spec_machine.specs.Machine.{Plain};

    ghost Value = { Plain };

    ghost view = { λ m. record { disks = m.disks.items; opened = m.opened.items } };

    ghost invariant = { λ m. m.zero ≡ zero_block };
}

impl Machine {
    /// The machine without disks and writes.
    pub fn new(alloc: Global) -> Result<Machine, NoMemory>
        ensures { IfOk result (λ machine. machine ≡ blank) }
    {
        let zero = Block::zero(alloc)?;
        Ok(Machine {
            disks: Vec::new(alloc),
            opened: Vec::new(alloc),
            zero: SharedBlock::new(alloc, zero)?,
        })
    }

    /// One event: what it does, where the machine allows it.
    #[tactic(auto, unfolding(crate::specs::Run::after))]
    pub fn apply(&mut self, alloc: Global, event: Event) -> Result<(), EventError>
        ensures ok { OnOk result (May self.old event × (self.new ≡ after self.old event)) }
        ensures not_allowed { result ≡ Err EventError.NotAllowed → May self.old event → ⊥ }
        ensures err { OnErr result (self.new ≡ self.old) }
    {
        change(alloc, &mut self.disks, &mut self.opened, event, &self.zero)?;
        remember(&self.disks, &mut self.opened, &self.zero);
        Ok(())
    }
}

/// What an event does, before the writes under way remember.
fn change(
    alloc: Global,
    disks: &mut Vec<PlainDisk>,
    opened: &mut Vec<Open>,
    event: Event,
    zero: &SharedBlock,
) -> Result<(), EventError>
    requires { zero.now ≡ zero_block }
    ensures ok { OnOk result (May (plain disks.old.items opened.old.items) event
        × (plain disks.new.items opened.new.items ≡ changed (plain disks.old.items opened.old.items) event)) }
    ensures not_allowed { result ≡ Err EventError.NotAllowed → May (plain disks.old.items opened.old.items) event → ⊥ }
    ensures err { OnErr result (plain disks.new.items opened.new.items ≡ plain disks.old.items opened.old.items) }
{
    match event {
        Event::Make { disk } => make(alloc, disks, disk),
        Event::Freeze { disk, snap } => freeze(disks, &disk, snap),
        Event::Begin(write) => begin(opened, write),
        Event::Take(write) => {
            if is_open(opened, &write) {
                take(disks, &write)
            } else {
                Err(EventError::NotAllowed)
            }
        }
        Event::End(write, answer) => {
            if may_end(opened, &write, answer) {
                close(opened, write.client);
                Ok(())
            } else {
                Err(EventError::NotAllowed)
            }
        }
        Event::Look {
            disk,
            snap,
            block,
            bytes,
        } => {
            if look(disks, &disk, &snap, block, &bytes, zero) {
                Ok(())
            } else {
                Err(EventError::NotAllowed)
            }
        }
    }
}

/// The place of the disk of this name.
fn place_of(disks: &[PlainDisk], name: &Name) -> Option<usize>
    ensures { result ≡ position (is_named name.now) disks.now }
{
    disks.iter().position(|disk| disk.name == *name)
}

/// The place of the snapshot of this name.
fn snap_place(snaps: &[PlainSnapshot], name: &Name) -> Option<usize>
    ensures { result ≡ position (is_snap_named name.now) snaps.now }
{
    snaps.iter().position(|snap| snap.name == *name)
}

/// The place of the client's write under way.
fn open_place(opened: &[Open], client: ClientId) -> Option<usize>
    ensures { result ≡ position (is_of client) opened.now }
{
    opened.iter().position(|open| open.write.client == client)
}

/// A block's content.
#[tactic(auto, unfolding(crate::specs::Machine::content))]
fn content<'a>(
    blocks: &'a Table<BlockNo, SharedBlock>,
    block: BlockNo,
    zero: &'a SharedBlock,
) -> &'a SharedBlock
    requires { zero.now ≡ zero_block }
    ensures { result.now ≡ content blocks.now block }
{
    match blocks.get(&block) {
        Some(bytes) => bytes,
        None => zero,
    }
}

/// Whether the block has the write's bytes.
fn stands(disks: &[PlainDisk], write: &Write, zero: &SharedBlock) -> bool
    requires { zero.now ≡ zero_block }
    ensures { result ≡ stands disks.now write.now }
{
    let Some(place) = place_of(disks, &write.disk) else {
        return false;
    };
    *content(&disks[place].now, write.block, zero) == write.bytes
}

/// A write under way remembers whether its block has its bytes.
fn remember_one(disks: &[PlainDisk], own: &mut Open, zero: &SharedBlock)
    requires { zero.now ≡ zero_block }
    ensures { own.new ≡ remembers disks.now own.old }
{
    let held = own.held || stands(disks, &own.write, zero);
    own.held = held;
}

/// Each write under way remembers whether its block has its bytes.
fn remember(disks: &[PlainDisk], opened: &mut [Open], zero: &SharedBlock)
    requires { zero.now ≡ zero_block }
    ensures { opened.new ≡ map (remembers disks.now) opened.old }
{
    for own in opened.iter_mut() {
        remember_one(disks, own, zero);
    }
}

fn make(alloc: Global, disks: &mut Vec<PlainDisk>, name: Name) -> Result<(), EventError>
    ensures ok { OnOk result
        ((disk_of disks.old.items name ≡ None) × (disks.new.items ≡ disks.old.items ++ record { name = name; now = []; snaps = [] } ∷ [])) }
    ensures not_allowed { result ≡ Err EventError.NotAllowed → disk_of disks.old.items name ≢ None }
    ensures err { OnErr result (disks.new.items ≡ disks.old.items) }
{
    match place_of(disks, &name) {
        Some(_) => Err(EventError::NotAllowed),
        None => {
            disks.push(PlainDisk {
                name,
                now: Table::new(alloc),
                snaps: Sequence::new(alloc),
            })?;
            Ok(())
        }
    }
}

/// The same blocks again.
fn copy(blocks: &Table<BlockNo, SharedBlock>) -> Result<Table<BlockNo, SharedBlock>, NoMemory>
    ensures { IfOk result (λ copy. copy ≡ blocks.now) }
{
    Ok(blocks.clone()?)
}

/// One snapshot more, unless the disk has one of this name.
fn freeze_disk(disk: &mut PlainDisk, snap: Name) -> Result<(), EventError>
    ensures ok { OnOk result ((snap_of disk.old snap ≡ None) × (disk.new ≡ frozen snap disk.old)) }
    ensures not_allowed { result ≡ Err EventError.NotAllowed → snap_of disk.old snap ≢ None }
    ensures err { OnErr result (disk.new ≡ disk.old) }
{
    match snap_place(disk.snaps.as_slice(), &snap) {
        Some(_) => Err(EventError::NotAllowed),
        None => {
            let blocks = copy(&disk.now)?;
            disk.snaps.push(PlainSnapshot { name: snap, blocks })?;
            Ok(())
        }
    }
}

fn freeze(disks: &mut [PlainDisk], name: &Name, snap: Name) -> Result<(), EventError>
    ensures ok { OnOk result (MayFreeze disks.old name.now snap × (disks.new ≡ with_disk disks.old name.now (frozen snap))) }
    ensures not_allowed { result ≡ Err EventError.NotAllowed → MayFreeze disks.old name.now snap → ⊥ }
    ensures err { OnErr result (disks.new ≡ disks.old) }
{
    let Some(place) = place_of(disks, name) else {
        return Err(EventError::NotAllowed);
    };
    freeze_disk(&mut disks[place], snap)
}

fn begin(opened: &mut Vec<Open>, write: Write) -> Result<(), EventError>
    ensures ok { OnOk result
        ((open_of opened.old.items write.client ≡ None) × (opened.new.items ≡ opened.old.items ++ record { write = write; held = false } ∷ [])) }
    ensures not_allowed { result ≡ Err EventError.NotAllowed → open_of opened.old.items write.client ≢ None }
    ensures err { OnErr result (opened.new.items ≡ opened.old.items) }
{
    match open_place(opened, write.client) {
        Some(_) => Err(EventError::NotAllowed),
        None => {
            opened.push(Open { write, held: false })?;
            Ok(())
        }
    }
}

fn is_same(a: &Write, b: &Write) -> bool
    ensures { MatchBool result (a.now ≡ b.now) (a.now ≢ b.now) }
{
    *a == *b
}

/// Whether the write has been held; None exactly where it is not under way.
fn held(opened: &[Open], write: &Write) -> Option<bool>
    ensures some { IfSome result (λ held. open_of opened.now write.now.client ≡ Some (record { write = write.now; held = held })) }
    ensures none { IfNone result (IsOpen opened.now write.now → ⊥) }
{
    let Some(place) = open_place(opened, write.client) else {
        return None;
    };
    let open = &opened[place];
    if is_same(&open.write, write) {
        Some(open.held)
    } else {
        None
    }
}

/// The disk has these bytes as the content of this block.
fn write_disk(disk: &mut PlainDisk, block: BlockNo, bytes: SharedBlock) -> Result<(), NoMemory>
    ensures ok { OnOk result (disk.new ≡ written block bytes disk.old) }
    ensures err { OnErr result (disk.new ≡ disk.old) }
{
    disk.now.put(block, bytes)
}

/// Whether the write is under way.
fn is_open(opened: &[Open], write: &Write) -> bool
    ensures { MatchBool result (IsOpen opened.now write.now) (IsOpen opened.now write.now → ⊥) }
{
    match held(opened, write) {
        Some(_) => true,
        None => false,
    }
}

/// The write's bytes become the content of its block, where its disk is known.
fn take(disks: &mut [PlainDisk], write: &Write) -> Result<(), EventError>
    ensures ok { OnOk result (HasDisk disks.old write.now.disk × (disks.new ≡ with_disk disks.old write.now.disk (written write.now.block write.now.bytes))) }
    ensures not_allowed { result ≡ Err EventError.NotAllowed → HasDisk disks.old write.now.disk → ⊥ }
    ensures err { OnErr result (disks.new ≡ disks.old) }
{
    let Some(place) = place_of(disks, &write.disk) else {
        return Err(EventError::NotAllowed);
    };
    let bytes = write.bytes.share()?;
    write_disk(&mut disks[place], write.block, bytes)?;
    Ok(())
}

/// Whether a write may be answered so.
fn may_end(opened: &[Open], write: &Write, answer: WriteEnd) -> bool
    ensures { MatchBool result (MayEnd opened.now write.now answer) (MayEnd opened.now write.now answer → ⊥) }
{
    let Some(held) = held(opened, write) else {
        return false;
    };
    match answer {
        WriteEnd::Ok => held,
        WriteEnd::NoSpace => true,
        WriteEnd::Unavailable => true,
        WriteEnd::NoDisk => true,
    }
}

/// The client has no write under way from now on.
fn close(opened: &mut Vec<Open>, client: ClientId)
    ensures { opened.new.items ≡ but_of opened.old.items client }
{
    opened.retain(|open| open.write.client != client);
}

/// The blocks of a disk, or of its snapshot of this name.
fn shown<'a>(disk: &'a PlainDisk, snap: &Option<Name>) -> Option<&'a Table<BlockNo, SharedBlock>>
    ensures { option_copied result ≡ blocks_of disk.entry.now snap.now }
{
    let Some(snap) = snap else {
        return Some(&disk.now);
    };
    match snap_place(disk.snaps.as_slice(), snap) {
        None => None,
        Some(at) => Some(&disk.snaps.as_slice()[at].blocks),
    }
}

fn look(
    disks: &[PlainDisk],
    name: &Name,
    snap: &Option<Name>,
    block: BlockNo,
    bytes: &SharedBlock,
    zero: &SharedBlock,
) -> bool
    requires { zero.now ≡ zero_block }
    ensures { MatchBool result (MayLook disks.now name.now snap.now block bytes.now) (MayLook disks.now name.now snap.now block bytes.now → ⊥) }
{
    let Some(place) = place_of(disks, name) else {
        return false;
    };
    match shown(&disks[place], snap) {
        None => false,
        Some(blocks) => *content(blocks, block, zero) == *bytes,
    }
}

impl From<NoMemory> for EventError {
    ghost use Rattle.std.specs.Prelude.{◌≡◌};
    ghost use Rattle.spec_machine.specs.declared.machine.EventError.TheVariants.{NoMemory};

    ghost from_gives = { λ _ e. e ≡ NoMemory };

    fn from(_error: NoMemory) -> EventError {
        EventError::NoMemory
    }
}

impl From<AllocError> for EventError {
    ghost use Rattle.std.specs.Prelude.{◌≡◌};
    ghost use Rattle.spec_machine.specs.declared.machine.EventError.TheVariants.{NoMemory};

    ghost from_gives = { λ _ e. e ≡ NoMemory };

    fn from(_error: AllocError) -> EventError {
        EventError::NoMemory
    }
}

impl<T: Drop> From<AllocFailed<T>> for EventError {
    ghost use Rattle.std.specs.Prelude.{◌≡◌};
    ghost use Rattle.spec_machine.specs.declared.machine.EventError.TheVariants.{NoMemory};

    ghost from_gives = { λ _ e. e ≡ NoMemory };

    fn from(_error: AllocFailed<T>) -> EventError {
        EventError::NoMemory
    }
}
