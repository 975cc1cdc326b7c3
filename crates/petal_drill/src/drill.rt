//! The script of a drill.

ghost use Rattle.std.specs.Prelude.{◌≡◌, ◌≤◌, IfOk};
ghost use Rattle.petal_script.specs.Script.{script_of};
ghost use Rattle.petal_script.specs.Told.{Reads};
ghost use Rattle.petal_drill.specs.Drill.{drill_text, drill_after};

use crate::writer::Writer;
use petal_base::NoMemory;
use petal_script::{ScriptError, read_script};
use script_lines::Script;
use std::alloc::Global;

#[tactic(auto, using(crate::proofs::Turns::one_turn_more))]
fn drilled(alloc: Global, seed: u32, count: u32) -> Result<Writer, NoMemory>
    ensures { IfOk result (λ drill. drill ≡ drill_after seed count) }
{
    let mut drill = Writer::begin(alloc, seed)?;
    for i in 0..count {
        drill.turn(alloc, i)?;
    }
    Ok(drill)
}

#[tactic(auto, unfolding(crate::specs::Drill::drill_text))]
fn drill_text(alloc: Global, seed: u32, count: u32) -> Result<Vec<u8>, NoMemory>
    ensures { IfOk result (λ text. text.items ≡ drill_text seed count) }
{
    drilled(alloc, seed, count)?.into_text()
}

/// The script of the drill with so many requests that are drawn from the seed.
///
/// # Errors
/// `NoMemory`. `Refused` is never seen: a drill has at most 949 lines in less than 64 KiB, 49 of them start a server, and at most one
/// server is down at a time. That is not proved.
pub fn drill_script(alloc: Global, seed: u32, count: u32) -> Result<Script, ScriptError>
    requires seed { seed ≤ 2147483647 }
    requires count { count ≤ 800 }
    ensures { Reads result (script_of (drill_text seed count)) }
{
    let text = drill_text(alloc, seed, count)?;
    read_script(alloc, &text)
}
