//! Whether two rows are the same.

ghost use Rattle.std.specs.Prelude.{◌≡◌, ◌≢◌, true, false};

use spec_paxos::Row;

/// Whether two rows keep the same.
pub fn is_same_row(a: &Row, b: &Row) -> bool
    ensures same { result ≡ true → a.now ≡ b.now }
    ensures apart { result ≡ false → a.now ≢ b.now }
{
    *a == *b
}
