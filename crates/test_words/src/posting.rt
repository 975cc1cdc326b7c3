//! Letters on their way between threads.

mod letters;
mod threads;
