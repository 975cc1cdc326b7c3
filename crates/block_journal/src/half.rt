//! The two halves of a journal that turns, and their sizes.

ghost use Rattle.std.specs.Prelude.{◌≡◌, ◌+◌, ◌<◌, ◌^◌};
ghost use Rattle.block_journal.specs.Halves.{other_half, half_start};

/// How many bytes a record has: its gate and its body.
pub const RECORD_BYTES: usize = 64;

/// How many bytes the body of a record has.
pub const BODY_BYTES: usize = 63;

/// How many records a half has: its Head, and those of its list.
pub const HALF_RECORDS: u32 = 32_768;

/// How many bodies the list of a half has at most.
pub const HALF_BODIES: u32 = 32_767;

/// How many bytes a half has.
pub const HALF_BYTES: u64 = 2_097_152;

/// How many bytes both halves have.
pub const HALVES_BYTES: u64 = 4_194_304;

/// How many bodies a group has at most.
pub const GROUP_BODIES: usize = 64;

/// How many bytes are lent to a turn.
pub const TURN_BYTES: usize = 65_536;

/// What a record says.
pub type Body = [u8; BODY_BYTES];

/// One of the two halves.
#[derive(Clone, Copy, Debug, PartialEq, Eq)]
pub enum Half {
    First,
    Second,
}

impl Half {
    pub(crate) fn other(self) -> Half
        ensures { result ≡ other_half self }
    {
        match self {
            Half::First => Half::Second,
            Half::Second => Half::First,
        }
    }

    // Its first byte.
    pub(crate) fn start(self, base: u64) -> u64
        requires { base + HALVES_BYTES < 2 ^ 64 }
        ensures { result ≡ half_start base self }
    {
        match self {
            Half::First => base,
            Half::Second => base + HALF_BYTES,
        }
    }
}
