//! Reading the whole script.

ghost use Rattle.std.specs.Prelude.{◌≡◌, ◌+◌, ◌≤◌, ◌<◌, ℕ, length, drop, IfOk, IsErrOf};
ghost use Rattle.device_faults.specs.declared.failure.DeviceError.TheVariants as error;
ghost use Rattle.petal_run.specs.Asked.{text_read};
ghost use Rattle.petal_script.specs.Script.{longest_script};

use crate::buffer::make_buffer;
use byte_streams::{Source, read_full};
use petal_disk::DeviceError;
use petal_script::SCRIPT_BYTES;
use std::alloc::Global;

/// One byte more than the longest script has, which shows that a text is too long.
const LIMIT: usize = SCRIPT_BYTES + 1;

/// The bytes of the source up to its end, or the first so many of them.
pub(crate) fn read_text<R: Source>(alloc: Global, source: &mut R) -> Result<Vec<u8>, DeviceError>
    ensures bytes { IfOk result (λ text. R.observable → text.items ≡ text_read (R.left source.old)) }
    ensures rest { IfOk result (λ _. R.observable → R.left source.new ≡ drop (longest_script + 1) (R.left source.old)) }
    ensures later { R.faults source.old ≤ R.faults source.new }
    ensures failed { IsErrOf result error.Failed → R.faults source.old < R.faults source.new }
{
    let mut text = make_buffer(alloc, LIMIT)?;
    let count = read_full(source, &mut text)?;
    text.truncate(count);
    Ok(text)
}
