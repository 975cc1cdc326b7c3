//! Rows whose steps stand in several parts.

use crate::play_steps;
use std::alloc::{AllocError, Global};
use std::test::Fail;

/// What a run shows, its script, and the parts of its steps.
#[derive(Clone, Copy)]
pub struct Parts {
    pub shows: &'static str,
    pub script: &'static str,
    pub steps: &'static [&'static str],
}

fn joined(alloc: Global, parts: &[&str]) -> Result<String, AllocError> {
    let mut steps = String::new(alloc);
    for (at, part) in parts.iter().enumerate() {
        if at > 0 {
            steps.push_str("; ")?;
        }
        steps.push_str(part)?;
    }
    Ok(steps)
}

/// Plays these cases.
pub fn play_parts(alloc: Global, cases: &[Parts]) -> Result<(), Fail> {
    for case in cases {
        let steps = joined(alloc, case.steps)?;
        play_steps(alloc, case.shows, case.script, steps.as_str())?;
    }
    Ok(())
}
