//! Names of disks and snapshots.

ghost use Rattle.std.specs.Prelude.{◌≡◌, List, ℕ, IsTrue};
ghost use Rattle.std.specs.List.{list_all};
ghost use Rattle.petal_base.specs.Name.{name_of, is_name, is_name_byte};

use std::alloc::AllocError;
use std::marker::Model;

/// The greatest length of a name.
pub const NAME_BYTES: usize = 16;

/// 1 to 16 of `a`-`z`, `0`-`9`, `-` and `_`, beginning with a letter. Contracts see the list of its bytes.
#[derive(Drop)]
pub struct Name {
    bytes: [u8; NAME_BYTES],
    len: usize,
}

impl Model for Name {
    ghost use Rattle.std.specs.Prelude.{◌≡◌, ◌≤◌, List, ℕ, take, true};
    ghost use Rattle.petal_base.specs.Name.{is_name};

    ghost Value = { List ℕ };

    ghost view = { λ n. take n.len n.bytes };

    ghost invariant = { λ n. (n.len ≤ 16) × (is_name (take n.len n.bytes) ≡ true) };
}

impl Name {
    /// The name that the bytes are; None exactly where they are none.
    pub fn read(bytes: &[u8]) -> Option<Name>
        ensures { result ≡ name_of bytes.now }
    {
        if !is_name(bytes) {
            return None;
        }
        let mut own = [0; NAME_BYTES];
        own[..bytes.len()].copy_from_slice(bytes);
        Some(Name {
            bytes: own,
            len: bytes.len(),
        })
    }

    /// Its bytes.
    pub fn bytes(&self) -> &[u8]
        ensures value { result.now ≡ self.now }
        ensures name { IsTrue (is_name self.now) }
    {
        &self.bytes[..self.len]
    }

    /// The same name again. It takes no memory.
    pub fn copy(&self) -> Name
        ensures { result ≡ self.now }
    {
        Name {
            bytes: self.bytes,
            len: self.len,
        }
    }
}

fn is_name(bytes: &[u8]) -> bool
    ensures { result ≡ is_name bytes.now }
{
    if bytes.is_empty() || bytes.len() > NAME_BYTES || !bytes[0].is_ascii_lowercase() {
        return false;
    }
    are_name_bytes(bytes)
}

fn are_name_bytes(bytes: &[u8]) -> bool
    ensures { result ≡ list_all is_name_byte bytes.now }
{
    bytes.iter().all(|b| is_name_byte(*b))
}

fn is_name_byte(b: u8) -> bool
    ensures { result ≡ is_name_byte b }
{
    b.is_ascii_lowercase() || b.is_ascii_digit() || b == b'-' || b == b'_'
}

impl PartialEq for Name {
    ghost use Rattle.std.specs.Prelude.{nat_eq};
    ghost use Rattle.std.specs.Cmp.{partial_equiv_from_equiv};
    ghost use Rattle.std.specs.Cmp.Lexicographic.{pointwise, nat_list_eq_equiv};

    ghost eq = { pointwise nat_eq };

    ghost laws = { partial_equiv_from_equiv nat_list_eq_equiv };

    fn eq(&self, other: &Self) -> bool {
        self.bytes() == other.bytes()
    }
}

impl Eq for Name {
    ghost use Rattle.std.specs.Cmp.Lexicographic.{nat_list_eq_equiv};

    ghost laws = { nat_list_eq_equiv };
}

impl Clone for Name {
    ghost use Rattle.std.specs.Prelude.{◌≡◌};

    ghost is_clone = { λ x y. y ≡ x };

    fn clone(&self) -> Result<Self, AllocError> {
        Ok(self.copy())
    }
}
