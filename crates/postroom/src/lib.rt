//! Letters on their way between threads. Each lies once in the room, under a number, and its number goes through a channel of the
//! actor that it is addressed to.
//!
//! To the layers above it promises that what is taken was posted, under the same number, and is addressed to the actor that takes
//! it. It promises nothing of a channel: not that a letter comes, comes once or comes in order.
#![tactic(auto)]

mod handing;
mod mail;
mod room;

pub use mail::Mail;
pub use room::{Posted, Postroom};
