//! Which run it is.

ghost use Rattle.std.specs.Prelude.{◌≡◌};

use std::marker::Brand;

/// Which run it is. Each run picks it.
pub trait Run {
    ghost use Rattle.script_lines.specs.declared.script.Script.{Script};

    /// The script that is run.
    ghost script: { Script };
}

impl Run for Brand {
    ghost use Rattle.std.specs.Prelude.{[], None};

    ghost script = { record { servers = 0; slots = 0; lose = None; twice = None; phases = 0; lines = [] } };
}
