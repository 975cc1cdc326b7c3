//! A disk of a fixed length: what a read gives, and what a crash may leave.

ghost use Rattle.std.specs.Prelude.{◌≡◌, ◌≤◌, ◌+◌, List, ℕ, length, replicate, OnOk};
ghost use Rattle.petal_disk.specs.Disk.{part, written, Torn, Follows, Within, Only, Elapses};
ghost use Rattle.device_faults.specs.Faults.{HasCause};

use device_faults::Failed;

/// A disk that can fail, and lose in a crash what was not synced.
pub trait Disk: Send + Drop {
    /// How many bytes it has.
    ghost size: { Self → ℕ };

    /// That contracts know the bytes, as they do not of a file of the system.
    ghost observable: { Type 0 };

    /// The bytes that a read gives.
    ghost seen: { Self → List ℕ };

    /// The contents that a crash at this moment may leave.
    ghost may_leave: { Self → List ℕ → Type 0 };

    /// The moment, as a number that does not fall.
    ghost moment: { Self → ℕ };

    /// The contents that a crash at some moment from that one on might have left, within a call or between two.
    ghost left_since: { Self → ℕ → List ℕ → Type 0 };

    /// How often the disk has failed.
    ghost faults: { Self → ℕ };

    /// What calls can have made of the disk beside its bytes: of that one, this one.
    ghost came_to: { Self → Self → Type 0 };

    /// How many bytes it has.
    fn len(&self) -> u64
        ensures { result ≡ size self.now };

    /// Reads a part of the bytes.
    fn read(&mut self, at: u64, into: &mut [u8]) -> Result<(), Failed>
        requires { at + length into.old ≤ size self.old }
        ensures bytes { OnOk result (observable → into.new ≡ part (seen self.old) at (length into.old)) }
        ensures size { size self.new ≡ size self.old }
        ensures seen { seen self.new ≡ seen self.old }
        ensures crash { Within (may_leave self.old) (may_leave self.new) }
        ensures time { Elapses (moment self.old) (moment self.new) (left_since self.old) (left_since self.new) (may_leave self.new) }
        ensures cause { HasCause (faults self.old) (faults self.new) result }
        ensures run { came_to self.old self.new };

    /// Writes over a part of the bytes. Until a sync, a crash may leave any bytes in the range; so may a write that fails.
    fn write_at(&mut self, at: u64, bytes: &[u8]) -> Result<(), Failed>
        requires { at + length bytes.now ≤ size self.old }
        ensures written { OnOk result (observable → seen self.new ≡ written (seen self.old) at bytes.now) }
        ensures torn { observable → Torn at (length bytes.now) (seen self.old) (seen self.new) }
        ensures size { size self.new ≡ size self.old }
        ensures crash { Follows (Torn at (length bytes.now)) (may_leave self.old) (may_leave self.new) }
        ensures time { Elapses (moment self.old) (moment self.new) (left_since self.old) (left_since self.new) (may_leave self.new) }
        ensures cause { HasCause (faults self.old) (faults self.new) result }
        ensures run { came_to self.old self.new };

    /// Writes zeros over `n` bytes, as `write_at` writes bytes.
    fn write_zeros(&mut self, at: u64, n: u64) -> Result<(), Failed>
        requires { at + n ≤ size self.old }
        ensures written { OnOk result (observable → seen self.new ≡ written (seen self.old) at (replicate n 0)) }
        ensures torn { observable → Torn at n (seen self.old) (seen self.new) }
        ensures size { size self.new ≡ size self.old }
        ensures crash { Follows (Torn at n) (may_leave self.old) (may_leave self.new) }
        ensures time { Elapses (moment self.old) (moment self.new) (left_since self.old) (left_since self.new) (may_leave self.new) }
        ensures cause { HasCause (faults self.old) (faults self.new) result }
        ensures run { came_to self.old self.new };

    /// After it, a crash leaves what a read gives.
    fn sync(&mut self) -> Result<(), Failed>
        ensures durable { OnOk result (observable → Only (seen self.old) (may_leave self.new)) }
        ensures size { size self.new ≡ size self.old }
        ensures seen { seen self.new ≡ seen self.old }
        ensures crash { Within (may_leave self.old) (may_leave self.new) }
        ensures time { Elapses (moment self.old) (moment self.new) (left_since self.old) (left_since self.new) (may_leave self.new) }
        ensures cause { HasCause (faults self.old) (faults self.new) result }
        ensures run { came_to self.old self.new };

    /// Loses what is not kept. A read then gives one of the contents that a crash could leave, and nothing is pending.
    fn crash(&mut self)
        ensures left { observable → may_leave self.old (seen self.new) }
        ensures kept { observable → Only (seen self.new) (may_leave self.new) }
        ensures size { size self.new ≡ size self.old }
        ensures crash { Within (may_leave self.old) (may_leave self.new) }
        ensures time { Elapses (moment self.old) (moment self.new) (left_since self.old) (left_since self.new) (may_leave self.new) }
        ensures faults { faults self.new ≡ faults self.old }
        ensures run { came_to self.old self.new };

    /// The bytes that are told are all the bytes.
    ghost whole: { (disk : Self) → observable → length (seen disk) ≡ size disk };

    /// So are those that a crash leaves.
    ghost left_whole: { (disk : Self) (c : List ℕ) → may_leave disk c → length c ≡ size disk };

    /// This moment is one of those since an earlier one.
    ghost counts_now: { (disk : Self) (t : ℕ) (c : List ℕ) → t ≤ moment disk → may_leave disk c → left_since disk t c };

    /// Since this moment there is no other.
    ghost only_now: { (disk : Self) (c : List ℕ) → left_since disk (moment disk) c → may_leave disk c };

    /// No call leaves the disk as it is.
    ghost stays: { (disk : Self) → came_to disk disk };

    /// One run of calls goes on with another.
    ghost goes_on: { (first mid last : Self) → came_to first mid → came_to mid last → came_to first last };
}
