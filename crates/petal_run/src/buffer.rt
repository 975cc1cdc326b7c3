//! Room for bytes that are to be read.

ghost use Rattle.std.specs.Prelude.{◌≡◌, length, IfOk};

use std::alloc::{AllocError, Global};

/// So many bytes to be written over. Their number is a parameter, so that no proof counts them one by one.
pub(crate) fn make_buffer(alloc: Global, n: usize) -> Result<Vec<u8>, AllocError>
    ensures { IfOk result (λ v. length v.items ≡ n) }
{
    Ok(vec![in alloc; 0; n]?)
}
