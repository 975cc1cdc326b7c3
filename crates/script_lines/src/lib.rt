//! What a script says and what it is answered, as plain data, and the text of an answer.
//!
//! This is apart from `petal_script`, which reads and prints, since the rules, the histories, the clients and the laws speak
//! of requests and answers and never of how they are read: they wait for these few types and not for the parser. It promises
//! that a pattern's block is the one that the pattern spells.
#![tactic(auto)]

mod answer;
mod request;
mod run;
mod script;

pub use answer::Answer;
pub use device_faults::{Plan, Which};
pub use request::{Line, Pattern, Request};
pub use run::Run;
pub use script::Script;
