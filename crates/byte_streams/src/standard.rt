//! The library's readers and writers as a source and a sink.
//!
//! Where every reader or writer of a type tells its bytes, as slices and vectors do, the adapter tells the same bytes. The
//! standard streams of a process tell none.

ghost use Rattle.std.specs.Prelude.{◌≡◌, ◌≤◌, ◌<◌, ◌+◌, length, IfOk, OnErr};
ghost use Rattle.byte_streams.specs.Streams.{AreKnown, Takes, known};

use crate::{Sink, Source};
use device_faults::{Count, Failed};
use std::io;
use std::io::{ErrorKind, Read, Write};

// How often a call that was interrupted is tried.
const TRIES: u32 = 1000;

// How many bytes a call takes at most.
const SCRATCH_BYTES: usize = 4096;

/// A reader as a source, which takes at most 4,096 bytes a call. A call that a signal interrupts is tried again, up to a
/// thousand times.
///
/// A reader may write over all of the buffer that it is lent. So it reads into a buffer of the source's own, of which only what
/// came is handed on.
#[derive(Drop)]
pub struct StdSource<R: Drop> {
    reader: R,
    scratch: [u8; SCRATCH_BYTES],
    faults: Count,
}

impl<R: Read + Drop> StdSource<R> {
    /// The source that reads from this reader.
    pub fn new(reader: R) -> StdSource<R>
        ensures left { ⟦<StdSource<R> as Source>⟧.left result ≡ known (R.remaining reader) }
        ensures faults { ⟦<StdSource<R> as Source>⟧.faults result ≡ 0 }
    {
        StdSource {
            reader,
            scratch: [0; SCRATCH_BYTES],
            faults: Count::new(),
        }
    }
}

impl<R: Read + Drop> Source for StdSource<R> {
    ghost observable = { AreKnown R.remaining };

    ghost left = { λ source. known (R.remaining source.reader) };

    ghost faults = { λ source. source.faults.times };

    fn read(&mut self, into: &mut [u8]) -> Result<usize, Failed> {
        for _ in 0..TRIES {
            match read_once(&mut self.reader, &mut self.scratch, into) {
                Ok(count) => return Ok(count),
                Err(error) if error.kind() == ErrorKind::Interrupted => {}
                Err(_) => break,
            }
        }
        self.faults.rise();
        Err(Failed)
    }
}

// One call of a reader. Of the scratch only what came is handed on.
fn read_once<R: Read>(reader: &mut R, scratch: &mut [u8], into: &mut [u8]) -> io::Result<usize>
    requires { 0 < length scratch.old }
    ensures fits { IfOk result (λ n. n ≤ length into.old) }
    ensures takes { IfOk result (λ n. AreKnown R.remaining → Takes (known (R.remaining reader.old)) (known (R.remaining reader.new)) into.old into.new n) }
    ensures keeps { OnErr result (AreKnown R.remaining → known (R.remaining reader.new) ≡ known (R.remaining reader.old)) }
    ensures buffer { OnErr result (into.new ≡ into.old) }
{
    let room = into.len().min(scratch.len());
    let count = reader.read(&mut scratch[..room])?;
    into[..count].copy_from_slice(&scratch[..count]);
    Ok(count)
}

/// A writer as a sink. A call that a signal interrupts is tried again, up to a thousand times; a writer that takes none of the
/// bytes has failed.
#[derive(Drop)]
pub struct StdSink<W: Drop> {
    writer: W,
    unflushed: Count,
    faults: Count,
}

impl<W: Write + Drop> StdSink<W> {
    /// The sink that writes to this writer.
    pub fn new(writer: W) -> StdSink<W>
        ensures taken { ⟦<StdSink<W> as Sink>⟧.taken result ≡ known (W.contents writer) }
        ensures unflushed { ⟦<StdSink<W> as Sink>⟧.unflushed result ≡ 0 }
        ensures faults { ⟦<StdSink<W> as Sink>⟧.faults result ≡ 0 }
    {
        StdSink {
            writer,
            unflushed: Count::new(),
            faults: Count::new(),
        }
    }
}

impl<W: Write + Drop> Sink for StdSink<W> {
    ghost observable = { AreKnown W.contents };

    ghost taken = { λ sink. known (W.contents sink.writer) };

    ghost unflushed = { λ sink. sink.unflushed.times };

    ghost faults = { λ sink. sink.faults.times };

    fn write(&mut self, bytes: &[u8]) -> Result<usize, Failed> {
        for _ in 0..TRIES {
            match self.writer.write(bytes) {
                Ok(count) if count > 0 || bytes.is_empty() => {
                    self.unflushed.rise();
                    return Ok(count);
                }
                Err(error) if error.kind() == ErrorKind::Interrupted => {}
                _ => break,
            }
        }
        self.faults.rise();
        Err(Failed)
    }

    fn flush(&mut self) -> Result<(), Failed> {
        for _ in 0..TRIES {
            match self.writer.flush() {
                Ok(()) => {
                    self.unflushed = Count::new();
                    return Ok(());
                }
                Err(error) if error.kind() == ErrorKind::Interrupted => {}
                Err(_) => break,
            }
        }
        self.faults.rise();
        Err(Failed)
    }
}

/// The adapters over the library's slices and vectors tell their bytes.
pub fn slices_and_vectors_tell<'a>()
    ensures source { ⟦<StdSource<&'a [u8]> as Source>⟧.observable }
    ensures sink { ⟦<StdSink<Vec<u8>> as Sink>⟧.observable }
{}
