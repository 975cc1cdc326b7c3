//! Rows by how servers return, and by what plans leave behind.

mod catch_ups;
mod plans;
mod returns;
