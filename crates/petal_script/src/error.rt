//! Why a line or a whole text isn't taken.

ghost use Rattle.std.specs.Prelude.{◌≡◌};
ghost use Rattle.petal_script.specs.declared.error.ScriptError.TheVariants.{NoMemory as OutOfMemory};
ghost use Rattle.petal_script.specs.declared.error.LineError.TheVariants.{Bad};
ghost use Rattle.petal_script.specs.declared.error.LineError.TheVariants as faults;

use crate::cause::Cause;
use petal_base::NoMemory;
use thiserror::Error;

/// Why a line wasn't taken.
#[derive(Debug, Drop)]
pub(crate) enum LineError {
    NoMemory,
    Bad(Cause),
}

impl From<Cause> for LineError {
    ghost from_gives = { λ cause e. e ≡ Bad cause };

    fn from(cause: Cause) -> LineError {
        LineError::Bad(cause)
    }
}

impl From<NoMemory> for LineError {
    ghost from_gives = { λ _ e. e ≡ faults.NoMemory };

    fn from(_error: NoMemory) -> LineError {
        LineError::NoMemory
    }
}

/// Why a text isn't read as a script.
#[derive(Debug, PartialEq, Eq, Drop, Error)]
pub enum ScriptError {
    /// The text is no script: this is its first refused line, and what is first wrong with it.
    #[error("refused line {line}: {cause}")]
    Refused { line: u32, cause: Cause },
    /// There was no memory for its lines.
    #[error("out of memory")]
    NoMemory,
}

impl From<NoMemory> for ScriptError {
    ghost from_gives = { λ _ e. e ≡ OutOfMemory };

    fn from(_error: NoMemory) -> ScriptError {
        ScriptError::NoMemory
    }
}
