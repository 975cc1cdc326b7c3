//! The header of a data device.

ghost use Rattle.std.specs.Prelude.{◌≡◌, ◌≤◌, ℕ, Bool, length, Some, IfSome};
ghost use Rattle.data_device.specs.Device.{header, header_bytes};
ghost use Rattle.petal_base.specs.Limits.{max_slots};

use petal_base::MAX_SLOTS;
use record_fields::{put, put_flag, put_word, put_zeros, word_at};

/// How many bytes a header has.
pub const HEADER_BYTES: usize = 64;

// The gate and the kind of device.
const START: [u8; 9] = [0xa5, b'P', b'E', b'T', b'A', b'L', b'D', b'A', b'T'];

const VERSION: u32 = 2;

/// What a header says.
#[derive(Clone, Copy, Debug, PartialEq, Eq)]
pub struct Header {
    pub slots: u32,
    pub fresh: bool,
}

/// The header's bytes.
pub fn spell(said: Header) -> [u8; HEADER_BYTES]
    ensures { result ≡ header said.slots said.fresh }
{
    let mut out = [0; HEADER_BYTES];
    put(&mut out, 0, &START);
    put_word(&mut out, 9, VERSION);
    put_word(&mut out, 13, said.slots);
    put_flag(&mut out, 17, said.fresh);
    put_zeros(&mut out, 18);
    out
}

/// What the bytes say; None exactly where they are no header, or one of more slots than there may be.
pub fn read(bytes: &[u8]) -> Option<Header>
    requires { length bytes.now ≡ header_bytes }
    ensures found { IfSome result (λ said. bytes.now ≡ header said.slots said.fresh) }
    ensures few { IfSome result (λ said. said.slots ≤ max_slots) }
    ensures only { (slots : ℕ) (fresh : Bool) → slots ≤ max_slots → bytes.now ≡ header slots fresh → result ≡ Some (record { slots = slots; fresh = fresh }) }
{
    let said = Header {
        slots: word_at(bytes, 13),
        fresh: bytes[17] == 1,
    };
    if said.slots > MAX_SLOTS {
        return None;
    }
    if spell(said).as_slice() == bytes {
        Some(said)
    } else {
        None
    }
}
