//! Names, tuples, blocks and lists: happy paths, and values from outside the definitions.

use petal_base::{BLOCK_BYTES, Block, Name, NoMemory, Sequence, ServerId, SharedBlock, Tuple};
use std::alloc::{AllocError, Global};
use std::test::Fail;

/// Whether the text is a name, with these bytes.
fn is_name(text: &str) -> bool {
    match Name::read(text.as_bytes()) {
        Some(name) => name.copy().bytes() == text.as_bytes(),
        None => false,
    }
}

#[test]
fn names(rt: HostRuntime) {
    let cases: [(&str, bool); 8] = [
        ("a", true),
        ("vol", true),
        ("abcdefghijklmno-", true),
        ("abcdefghijklmno-1", false),
        ("", false),
        ("1a", false),
        ("a_9", true),
        ("aB", false),
    ];
    for (text, want) in cases {
        assert!(rt; is_name(text) == want, "at {text}");
    }
}

/// Whether the numbers are a tuple, of these servers.
fn is_tuple(ids: &[ServerId], servers: u8) -> bool {
    match Tuple::new(ids, servers) {
        Some(tuple) => tuple.copy().ids() == ids,
        None => false,
    }
}

#[test]
fn tuples(rt: HostRuntime) {
    let cases: [(&[u8], u8, bool); 8] = [
        (&[0, 1], 2, true),
        (&[1, 0], 2, true),
        (&[0], 2, false),
        (&[0, 2], 2, false),
        (&[0, 0], 2, false),
        (&[7, 6, 5, 4, 3, 2, 1, 0], 8, true),
        (&[0, 8], 9, false),
        (&[0, 1, 2, 3, 4, 5, 6, 7, 0], 8, false),
    ];
    for (ids, servers, want) in cases {
        assert!(rt; is_tuple(ids, servers) == want, "at {ids:?}");
    }
}

fn has(bytes: &[u8], at: usize, byte: u8) -> bool {
    bytes.get(at).copied() == Some(byte)
}

fn zero_is_whole(alloc: Global) -> Result<bool, NoMemory> {
    let zero = Block::zero(alloc)?;
    Ok(zero.bytes().len() == BLOCK_BYTES)
}

fn halves_meet(alloc: Global) -> Result<bool, NoMemory> {
    let halves = Block::halves(alloc, 1, 2)?;
    Ok(has(halves.bytes(), 32_767, 1) && has(halves.bytes(), 32_768, 2))
}

fn ramp_goes_round(alloc: Global) -> Result<bool, NoMemory> {
    let ramp = Block::ramp(alloc, 250)?;
    Ok(has(ramp.bytes(), 5, 255) && has(ramp.bytes(), 6, 0))
}

#[test]
fn blocks(rt: HostRuntime) -> Result<(), Fail> {
    assert!(rt; zero_is_whole(rt.alloc())?);
    assert!(rt; halves_meet(rt.alloc())?);
    assert!(rt; ramp_goes_round(rt.alloc())?);
    Ok(())
}

/// A block of two halves, over which a ramp is written.
fn written(alloc: Global) -> Result<SharedBlock, NoMemory> {
    let ramp = Block::ramp(alloc, 250)?;
    let mut block = Block::halves(alloc, 1, 2)?;
    block.write(ramp.bytes());
    SharedBlock::new(alloc, block)
}

fn shares(one: &SharedBlock) -> Result<bool, NoMemory> {
    let other = one.share()?;
    Ok(other == *one && has(other.bytes(), 6, 0))
}

#[test]
fn a_block_is_written_and_shared(rt: HostRuntime) -> Result<(), Fail> {
    let block = written(rt.alloc())?;
    assert!(rt; shares(&block)?);
    Ok(())
}

fn four_and_five(alloc: Global) -> Result<Sequence<u8>, NoMemory> {
    let mut numbers = Sequence::one(alloc, 4u8)?;
    numbers.push(5)?;
    Ok(numbers)
}

/// Whether a copy stays as it is when the last number goes.
fn copy_stays(numbers: &mut Sequence<u8>) -> Result<bool, AllocError> {
    let same = numbers.clone()?;
    let was_same = same == *numbers;
    let has_gone = numbers.pop() == Some(5);
    let differs = same != *numbers;
    let count = Sequence::of(same.into_vec()).len();
    Ok(was_same && has_gone && differs && count == 2)
}

#[test]
fn sequences(rt: HostRuntime) -> Result<(), Fail> {
    let mut numbers = four_and_five(rt.alloc())?;
    assert!(rt; numbers.as_slice() == [4, 5].as_slice());
    assert!(rt; copy_stays(&mut numbers)?);
    Ok(())
}

#[test]
fn an_empty_sequence(rt: HostRuntime) {
    let none: Sequence<u8> = Sequence::new(rt.alloc());
    assert!(rt; none.is_empty());
}
