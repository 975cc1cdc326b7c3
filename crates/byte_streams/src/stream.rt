//! Where bytes come from, and where they go.

ghost use Rattle.std.specs.Prelude.{◌≡◌, ◌≤◌, ◌<◌, ◌+◌, ◌++◌, ℕ, List, length, take, drop, min, IfOk, OnOk, OnErr};
ghost use Rattle.device_faults.specs.Faults.{HasCause};
ghost use Rattle.byte_streams.specs.Streams.{Takes, Loses, Adds};

use device_faults::Failed;

/// Bytes that come in, in order.
pub trait Source {
    /// That contracts know the bytes, as they do not of a terminal.
    ghost observable: { Type 0 };

    /// The bytes that are still to come.
    ghost left: { Self → List ℕ };

    /// How often the source has failed.
    ghost faults: { Self → ℕ };

    /// Takes some of the bytes left into the front of `into`, and answers how many. It answers 0 for a buffer that is not
    /// empty only at the end of input. A call that fails takes nothing.
    fn read(&mut self, into: &mut [u8]) -> Result<usize, Failed>
        ensures fits { IfOk result (λ n. n ≤ length into.old) }
        ensures takes { IfOk result (λ n. observable → Takes (left self.old) (left self.new) into.old into.new n) }
        ensures keeps { OnErr result (observable → left self.new ≡ left self.old) }
        ensures cause { HasCause (faults self.old) (faults self.new) result };
}

/// Bytes that go out, in order.
pub trait Sink {
    /// That contracts know the bytes.
    ghost observable: { Type 0 };

    /// The bytes that it has taken.
    ghost taken: { Self → List ℕ };

    /// How many writes came since the last flush.
    ghost unflushed: { Self → ℕ };

    /// How often the sink has failed.
    ghost faults: { Self → ℕ };

    /// Appends the first of these bytes, and answers how many: at least one, unless there are none. A call that fails
    /// appends nothing.
    fn write(&mut self, bytes: &[u8]) -> Result<usize, Failed>
        ensures fits { IfOk result (λ n. n ≤ length bytes.now) }
        ensures moves { IfOk result (λ n. 0 < length bytes.now → 0 < n) }
        ensures takes { IfOk result (λ n. observable → taken self.new ≡ taken self.old ++ take n bytes.now) }
        ensures keeps { OnErr result (observable → taken self.new ≡ taken self.old) }
        ensures cause { HasCause (faults self.old) (faults self.new) result };

    /// Sends on the bytes that it has taken. These stay the same, also where the call fails.
    fn flush(&mut self) -> Result<(), Failed>
        ensures keeps { observable → taken self.new ≡ taken self.old }
        ensures flushed { OnOk result (unflushed self.new ≡ 0) }
        ensures cause { HasCause (faults self.old) (faults self.new) result };
}

/// Reads until the buffer is full or the source ends, and answers how many bytes came. Where a call fails, the bytes that
/// came before it are lost.
pub fn read_full<S: Source>(source: &mut S, into: &mut [u8]) -> Result<usize, Failed>
    ensures fits { IfOk result (λ n. n ≤ length into.old) }
    ensures count { IfOk result (λ n. S.observable → n ≡ min (length into.old) (length (S.left source.old))) }
    ensures takes { IfOk result (λ n. S.observable → Takes (S.left source.old) (S.left source.new) into.old into.new n) }
    ensures loses { OnErr result (S.observable → Loses (S.left source.old) (S.left source.new)) }
    ensures cause { HasCause (S.faults source.old) (S.faults source.new) result }
{
    let mut done = 0;
    while done < into.len() {
        let count = source.read(&mut into[done..])?;
        if count == 0 {
            break;
        }
        done += count;
    }
    Ok(done)
}

/// Writes all the bytes and flushes. Where a call fails, a front of them has been written: all of them where the flush fails.
pub fn write_all<S: Sink>(sink: &mut S, bytes: &[u8]) -> Result<(), Failed>
    ensures all { OnOk result (S.observable → S.taken sink.new ≡ S.taken sink.old ++ bytes.now) }
    ensures flushed { OnOk result (S.unflushed sink.new ≡ 0) }
    ensures front { S.observable → Adds (S.taken sink.old) bytes.now (S.taken sink.new) }
    ensures cause { HasCause (S.faults sink.old) (S.faults sink.new) result }
{
    let mut done = 0;
    while done < bytes.len() {
        done += sink.write(&bytes[done..])?;
    }
    sink.flush()
}
