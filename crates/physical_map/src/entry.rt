//! What a server knows of one key.

use petal_base::{Key, Version};

/// A key, the slot that holds its content, and the version with which it was put.
#[derive(Clone, Copy, Debug, PartialEq, Eq)]
pub struct Entry {
    pub key: Key,
    pub slot: u32,
    pub version: Version,
}
