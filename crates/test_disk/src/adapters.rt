//! Readers and writers of the library as a source and a sink.

use byte_streams::{Source, StdSink, StdSource, read_full, write_all};
use std::io;
use std::io::Write;
use std::test::Fail;

// A writer that takes one byte a call, and counts how often it is flushed.
#[derive(Drop)]
struct SlowWriter {
    bytes: Vec<u8>,
    flushes: u32,
}

impl Write for SlowWriter {
    fn write(&mut self, bytes: &[u8]) -> io::Result<usize> {
        self.bytes.write(&bytes[..bytes.len().min(1)])
    }

    fn flush(&mut self) -> io::Result<()> {
        self.flushes = self.flushes.saturating_add(1);
        Ok(())
    }
}

// A buffer of seven bytes is filled, and then as far as there are bytes.
fn is_read_whole<S: Source>(source: &mut S) -> bool {
    let mut buffer = [0; 7];
    let full = read_full(source, &mut buffer) == Ok(7) && buffer == *b"from a ";
    full && read_full(source, &mut buffer) == Ok(5) && &buffer[..5] == b"slice".as_slice()
}

#[test]
fn a_slice_is_read_whole(rt: HostRuntime) -> Result<(), Fail> {
    let mut source = StdSource::new(b"from a slice".as_slice());
    assert!(rt; is_read_whole(&mut source));
    Ok(())
}

fn takes<W: Write>(writer: &mut W, bytes: &[u8]) -> bool {
    let mut sink = StdSink::new(writer);
    write_all(&mut sink, bytes) == Ok(())
}

#[test]
fn a_vector_takes_all_bytes(rt: HostRuntime) -> Result<(), Fail> {
    let mut bytes = Vec::new(rt.alloc());
    assert!(rt; takes(&mut bytes, b"into a vector"));
    assert!(rt; bytes.as_slice() == b"into a vector".as_slice());
    Ok(())
}

#[test]
fn a_writer_of_single_bytes_takes_all_and_is_flushed(rt: HostRuntime) -> Result<(), Fail> {
    let mut slow = SlowWriter {
        bytes: Vec::new(rt.alloc()),
        flushes: 0,
    };
    assert!(rt; takes(&mut slow, b"slow"));
    assert!(rt; slow.bytes.as_slice() == b"slow".as_slice() && slow.flushes == 1);
    Ok(())
}
