//! What the numbers of the system count.

/// A storage server, from 0.
pub type ServerId = u8;

/// An incarnation of a server: raised by one at each boot, 1 at the first.
pub type Inc = u32;

/// A client, 0 to 7 for `a` to `h`, or the operator.
pub type ClientId = u8;

/// The number of a client's request, from 1 in the order of its calls.
pub type Seq = u32;

/// A virtual disk, from 0 in the order of making.
pub type DiskId = u32;

/// A global map, from 0 in the order of making.
pub type MapId = u32;

/// A disk's epoch: raised by one at each snapshot, 0 at first.
pub type Epoch = u32;

/// A block of a virtual disk, below [`BLOCKS`].
pub type BlockNo = u64;

/// How many entries of the agreed log have been applied.
pub type Rev = u32;

/// The number of a pair operation within one incarnation of its lead.
pub type Op = u64;

/// How often a cell has been put, counted at the server that puts.
pub type Version = u64;

/// An actor's logical time ("Time, Clocks, and the Ordering of Events", 1978).
pub type Stamp = u64;

/// The client number of the operator.
pub const OPERATOR: ClientId = 8;

/// How many clients there are, the operator counted.
pub const CLIENTS: ClientId = 9;

/// A virtual disk has 2^48 blocks.
pub const BLOCKS: BlockNo = 281_474_976_710_656;

/// At most so many storage servers, numbered from 0.
pub const MAX_SERVERS: u8 = 8;

/// A disk's blocks fall into so many regions, which redistribution moves one by one.
pub const REGIONS: u8 = 16;

/// A device's journal has room for so many records.
pub const JOURNAL_RECORDS: u32 = 65_536;

/// A store has at most so many slots.
pub const MAX_SLOTS: u32 = 1024;

/// A store has at most so many marks and rows.
pub const MARKS_LIMIT: u32 = 28_672;
