//! What the bytes of a journal are, and what is read after each call of an append has been stopped in turn.

ghost use Rattle.std.specs.Prelude.{◌≡◌, ◌≤◌, IfOk};

use block_journal::{Journal, JournalError};
use petal_disk::{CallKind, Disk, MemDisk, Plan, Planned};
use std::alloc::Global;
use std::test::Fail;

// Makes a journal of two records, and appends the first.
fn one_of_two<D: Disk>(disk: &mut D) -> Result<Journal<4>, JournalError>
    requires { 12 ≤ D.size disk.old }
    ensures size { D.size disk.new ≡ D.size disk.old }
    ensures place { IfOk result (λ journal. (journal.base ≡ 4) × (journal.limit ≡ 2)) }
{
    let mut journal = Journal::<4>::format(disk, 4, 2)?;
    journal.append(disk, b"abc")?;
    Ok(journal)
}

// Whether there is room for one body more and for no other.
fn fills<D: Disk>(journal: &mut Journal<4>, disk: &mut D) -> bool
    requires place { (journal.old.base ≡ 4) × (journal.old.limit ≡ 2) }
    requires size { 12 ≤ D.size disk.old }
    ensures { D.size disk.new ≡ D.size disk.old }
{
    journal.append(disk, b"def").is_ok() && journal.append(disk, b"ghi") == Err(JournalError::Full)
}

// How many bodies are there, and the last one.
fn last_there<D: Disk>(alloc: Global, disk: &mut D) -> Result<(u32, Vec<u8>), Fail>
    requires { 12 ≤ D.size disk.old }
{
    let (opened, bodies) = Journal::<4>::open(alloc, disk, 4, 2)?;
    let mut last = Vec::new(alloc);
    for body in bodies.as_slice() {
        last = body.clone()?;
    }
    Ok((opened.count(), last))
}

// Whether the first record is its gate and its body, and the second one is closed.
fn has_first<D: Disk>(disk: &mut D) -> bool
    requires { 12 ≤ D.size disk.old }
    ensures { D.size disk.new ≡ D.size disk.old }
{
    let mut bytes = [9; 12];
    disk.read(0, &mut bytes).is_ok() && bytes == *b"\0\0\0\0\xa5abc\0\0\0\0"
}

fn has_both<D: Disk>(alloc: Global, disk: &mut D) -> Result<bool, Fail>
    requires { 12 ≤ D.size disk.old }
{
    let (count, last) = last_there(alloc, disk)?;
    Ok(count == 2 && last.as_slice() == b"def".as_slice())
}

fn takes_two<D: Disk>(alloc: Global, disk: &mut D) -> Result<bool, Fail>
    requires { 12 ≤ D.size disk.old }
{
    let mut journal = one_of_two(disk)?;
    let first = has_first(disk);
    let filled = fills(&mut journal, disk);
    Ok(has_both(alloc, disk)? && first && filled)
}

#[test]
fn a_record_is_a_gate_and_a_body(rt: HostRuntime) -> Result<(), Fail> {
    let mut disk = MemDisk::new(rt.alloc(), 12)?;
    let seen = takes_two(rt.alloc(), &mut disk);
    drop(disk);
    assert!(rt; seen?);
    Ok(())
}

fn begun<D: Disk>(disk: &mut D) -> Result<Journal<8>, JournalError>
    requires { 32 ≤ D.size disk.old }
    ensures size { D.size disk.new ≡ D.size disk.old }
    ensures place { IfOk result (λ journal. (journal.base ≡ 0) × (journal.limit ≡ 4)) }
{
    let mut journal = Journal::<8>::format(disk, 0, 4)?;
    journal.append(disk, b"a first")?;
    Ok(journal)
}

// Appends once more, and crashes or does not.
fn stopped<D: Disk>(journal: &mut Journal<8>, disk: &mut D, crashes: bool)
    requires place { (journal.old.base ≡ 0) × (journal.old.limit ≡ 4) }
    requires size { 32 ≤ D.size disk.old }
    ensures { D.size disk.new ≡ D.size disk.old }
{
    let _ = journal.append(disk, b"another");
    if crashes {
        disk.crash();
    }
}

fn bodies_there<D: Disk>(alloc: Global, disk: &mut D) -> Result<u32, JournalError>
    requires { 32 ≤ D.size disk.old }
{
    let (journal, _) = Journal::<8>::open(alloc, disk, 0, 4)?;
    Ok(journal.count())
}

// How many bodies are there after a second append of which this call was stopped, and a crash or none.
fn bodies_after_stop(alloc: Global, at: u32, crashes: bool) -> Result<u32, JournalError> {
    let Ok(memory) = MemDisk::new(alloc, 32) else {
        return Err(JournalError::NoMemory);
    };
    let mut disk = Planned::new(memory);
    let mut journal = begun(&mut disk)?;
    disk.arm(Plan {
        kind: CallKind::Any,
        at,
        stop: true,
        late: false,
    });
    stopped(&mut journal, &mut disk, crashes);
    disk.disarm();
    bodies_there(alloc, &mut disk)
}

#[test]
fn each_stop_leaves_the_list_before_or_after(rt: HostRuntime) -> Result<(), Fail> {
    let mut kept = [0; 5];
    let mut crashed = [0; 5];
    for i in 0..5 {
        kept[i] = bodies_after_stop(rt.alloc(), i as u32 + 1, false)?;
        crashed[i] = bodies_after_stop(rt.alloc(), i as u32 + 1, true)?;
    }
    assert_eq!(rt; kept, [1, 1, 1, 2, 2]);
    assert_eq!(rt; crashed, [1, 1, 1, 1, 2]);
    Ok(())
}
