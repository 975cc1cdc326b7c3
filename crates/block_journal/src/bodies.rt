//! A list of bodies that is written without being held.

ghost use Rattle.std.specs.Prelude.{◌≡◌, ◌<◌, ℕ, List, [], length, slice_index_or};

use crate::half::BODY_BYTES;

/// A list whose bodies are spelled one at a time.
pub trait Bodies {
    /// The bodies, in order.
    ghost bodies: { Self → List (List ℕ) };

    /// How many there are.
    fn count(&self) -> u32
        ensures { result ≡ length (bodies self.now) };

    /// Spells the one of that index.
    fn body(&self, i: u32, into: &mut [u8])
        requires within { i < length (bodies self.now) }
        requires room { length into.old ≡ BODY_BYTES }
        ensures { into.new ≡ slice_index_or (bodies self.now) i [] };
}
