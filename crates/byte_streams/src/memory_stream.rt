//! A source and a sink in memory, with calls that fail as a test wants it.

ghost use Rattle.std.specs.Prelude.{◌≡◌, ◌≤◌, ◌+◌, ◌++◌, [], true, false, length, drop};
ghost use Rattle.byte_streams.specs.Streams.{Takes};

use crate::{Sink, Source};
use device_faults::{Count, Failed};
use std::alloc::Global;

// The calls that fail, by their numbers from 1 on, in rising order.
#[derive(Drop)]
struct FailingCalls {
    numbers: Vec<u32>,
    met: usize,
    calls: u32,
}

impl FailingCalls {
    fn new(numbers: Vec<u32>) -> FailingCalls {
        FailingCalls {
            numbers,
            met: 0,
            calls: 0,
        }
    }

    // Whether this call fails.
    fn fails_now(&mut self) -> bool {
        self.calls = self.calls.saturating_add(1);
        let fails = self.numbers.get(self.met) == Some(&self.calls);
        if fails {
            self.met += 1;
        }
        fails
    }
}

/// A source in memory.
#[derive(Drop)]
pub struct MemSource {
    bytes: Vec<u8>,
    at: usize,
    failing: FailingCalls,
    faults: Count,
    ghost inside: { at ≤ length bytes.items },
}

impl MemSource {
    /// A source of these bytes. The calls whose numbers `failing` lists, in rising order from 1 on, fail.
    pub fn new(bytes: Vec<u8>, failing: Vec<u32>) -> MemSource
        ensures left { ⟦<MemSource as Source>⟧.left result ≡ bytes.items }
        ensures faults { ⟦<MemSource as Source>⟧.faults result ≡ 0 }
    {
        MemSource {
            bytes,
            at: 0,
            failing: FailingCalls::new(failing),
            faults: Count::new(),
        }
    }
}

impl Source for MemSource {
    ghost observable = { Unit {0} };

    ghost left = { λ source. drop source.at source.bytes.items };

    ghost faults = { λ source. source.faults.times };

    fn read(&mut self, into: &mut [u8]) -> Result<usize, Failed> {
        if self.failing.fails_now() {
            self.faults.rise();
            return Err(Failed);
        }
        let count = into.len().min(self.bytes.len() - self.at);
        into[..count].copy_from_slice(&self.bytes[self.at..self.at + count]);
        self.at += count;
        Ok(count)
    }
}

/// A sink in memory. Where there is no memory for a piece, the call fails. Flushing it does nothing.
#[derive(Drop)]
pub struct MemSink {
    bytes: Vec<u8>,
    failing: FailingCalls,
    faults: Count,
}

impl MemSink {
    /// An empty sink. The calls whose numbers `failing` lists, in rising order from 1 on, fail.
    pub fn new(alloc: Global, failing: Vec<u32>) -> MemSink
        ensures taken { ⟦<MemSink as Sink>⟧.taken result ≡ [] }
        ensures faults { ⟦<MemSink as Sink>⟧.faults result ≡ 0 }
    {
        MemSink {
            bytes: Vec::new(alloc),
            failing: FailingCalls::new(failing),
            faults: Count::new(),
        }
    }

    /// The bytes that it has taken.
    pub fn bytes(&self) -> &[u8]
        ensures { result.now ≡ ⟦<MemSink as Sink>⟧.taken self.now }
    {
        &self.bytes
    }

    /// The bytes that it has taken.
    pub fn into_bytes(self) -> Vec<u8>
        ensures { result.items ≡ ⟦<MemSink as Sink>⟧.taken self }
    {
        self.bytes
    }
}

impl Sink for MemSink {
    ghost observable = { Unit {0} };

    ghost taken = { λ sink. sink.bytes.items };

    ghost unflushed = { λ _. 0 };

    ghost faults = { λ sink. sink.faults.times };

    fn write(&mut self, bytes: &[u8]) -> Result<usize, Failed> {
        if self.failing.fails_now() || self.bytes.extend_from_slice(bytes).is_err() {
            self.faults.rise();
            return Err(Failed);
        }
        Ok(bytes.len())
    }

    fn flush(&mut self) -> Result<(), Failed> {
        Ok(())
    }
}
