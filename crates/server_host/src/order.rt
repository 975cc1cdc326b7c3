//! The order of a script's lines.

ghost use Rattle.std.specs.Prelude.{◌≡◌, IsTrue};
ghost use Rattle.server_host.specs.Playable.{AreNumbered, AreOrdered, climb};

use script_lines::Line;

/// Whether the lines' numbers rise from 1 and their phases do not fall, as in every script that is read. Then lines of one
/// number are one line, and phases rise with numbers.
pub fn are_in_order(lines: &[Line]) -> bool
    ensures exactly { result ≡ climb 0 0 lines.now }
    ensures numbered { IsTrue result → AreNumbered lines.now }
    ensures ordered { IsTrue result → AreOrdered lines.now }
{
    let mut number = 0;
    let mut phase = 0;
    for line in lines {
        if line.number <= number {
            return false;
        }
        if line.phase < phase {
            return false;
        }
        number = line.number;
        phase = line.phase;
    }
    true
}
