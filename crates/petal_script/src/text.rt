//! The lines of a text.

ghost use Rattle.std.specs.Prelude.{◌≡◌, ◌∷◌, ◌<◌, ◌+◌, length, List, ℕ};
ghost use Rattle.petal_script.specs.Text.{pieces, without_end};

use memchr::memchr;

/// The first line of a text, with its end, and the rest of the text.
#[tactic(auto, using(crate::proofs::Pieces::pieces_at, crate::proofs::Pieces::pieces_none))]
pub fn first_line(text: &[u8]) -> (&[u8], &[u8])
    requires { 0 < length text.now }
    ensures pieces { pieces text.now ≡ result.0.now ∷ pieces result.1.now }
    ensures lengths { length result.0.now + length result.1.now ≡ length text.now }
    ensures some { 0 < length result.0.now }
{
    match memchr(b'\n', text) {
        Some(end) => text.split_at(end + 1),
        None => text.split_at(text.len()),
    }
}

/// A line without its end.
pub fn without_end(line: &[u8]) -> &[u8]
    ensures { result.now ≡ without_end line.now }
{
    line.strip_suffix(b"\r\n")
        .or_else(|| line.strip_suffix(b"\n"))
        .unwrap_or(line)
}
