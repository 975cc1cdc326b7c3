//! A journal: a list of records of one size in a region of a disk. A record counts from the moment when its gate byte is open. The
//! first byte of a device is such a gate too: what stands on the device counts only while it is open.
//!
//! To the layer above it promises that a crash at any moment of `append` leaves the list before or with the new body, and that
//! `open` gives what was appended, in order. A crash while a device's header is written leaves what stood there before, a closed gate,
//! or the whole header. The crate knows nothing of what a body or a header says.
//!
//! A journal that turns is two halves (`Halves`), of which the later one counts. A crash at any moment of `append_all` leaves the list
//! before or with all of the new bodies, and a crash at any moment of `turn` leaves the old list or the new one.
#![tactic(auto)]

mod bodies;
mod error;
mod gate;
mod group;
mod half;
mod halves;
mod head;
mod journal;
mod reading;

pub use bodies::Bodies;
pub use error::JournalError;
pub use gate::{read_front, write_header};
pub use half::{
    BODY_BYTES, Body, GROUP_BODIES, HALF_BODIES, HALF_BYTES, HALF_RECORDS, HALVES_BYTES, Half,
    RECORD_BYTES, TURN_BYTES,
};
pub use halves::Halves;
pub use journal::Journal;
