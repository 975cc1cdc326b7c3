//! What a device is found to be when it is opened.

use crate::Store;
use petal_disk::Disk;

/// A store, or a device that no store was made on, handed back.
#[derive(Drop)]
pub enum Opened<D: Disk> {
    Store(Store<D>),
    Blank(D),
}
