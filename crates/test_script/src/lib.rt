//! Tests of the script language and of drills: tables of lines with what becomes of them, and texts of answers. What
//! the definitions compute is stated here as well.
#![tactic(auto)]

mod computed;
#[cfg(test)]
mod drills;
#[cfg(test)]
mod scripts;

pub use computed::{first_draws, short_drills};
