//! What a store is found to be when its device is read again.

/// A device is blank, or stands for a store, which is the one that was held in memory or another one.
#[derive(Clone, Copy, Debug, PartialEq, Eq)]
pub enum Reread {
    Same,
    Changed,
    Blank,
}
