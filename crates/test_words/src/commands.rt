//! Spellings of commands, written by hand, and bytes that spell nothing.

use petal_base::{Name, Tuple};
use petal_command::{COMMAND_BYTES, ClientNumber, Command, ServerNumber, decode, encode};

/// The bytes of a list with zeros after them.
fn bytes(front: &[u8]) -> [u8; COMMAND_BYTES] {
    let mut out = [0; COMMAND_BYTES];
    for (byte, other) in out.iter_mut().zip(front) {
        *byte = *other;
    }
    out
}

#[test]
fn leave_is_spelled(rt: HostRuntime) {
    let spelled = bytes(&[2, 2, 0, 0, 0, 1]);
    let leave = Command::Leave {
        server: ServerNumber::new(2),
        inc: 1,
    };
    assert!(rt; encode(&leave) == spelled);
    assert!(rt; decode(&spelled) == Some(leave));
    assert!(rt; decode(&spelled[..63]).is_none());
}

#[test]
fn make_disk_is_spelled(rt: HostRuntime) {
    let spelled = bytes(&[
        4, 0, 0, 0, 0, 1, 3, b'v', b'o', b'l', 0, 0, 0, 0, 0, 0, 0, 0, 0, 0, 0, 0, 0, 2, 0, 1,
    ]);
    let (Some(name), Some(tuple)) = (Name::read(b"vol"), Tuple::new(&[0, 1], 2)) else {
        panic!(rt; "a name and a tuple");
    };
    let make_disk = Command::MakeDisk {
        client: ClientNumber::new(0),
        seq: 1,
        name,
        tuple,
    };
    assert!(rt; encode(&make_disk) == spelled);
    assert!(rt; decode(&spelled) == Some(make_disk));
}

#[test]
fn stray_bytes_spell_nothing(rt: HostRuntime) {
    let cases: [(&[u8], bool); 12] = [
        (&[1, 7, 0, 0, 0, 1, 1], true),
        (&[1, 8, 0, 0, 0, 1, 1], false),
        (&[1, 7, 0, 0, 0, 1, 2], false),
        (&[3, 0, 0, 0, 0, 7, 0, 0, 0, 0, 1, 1, 0, 0, 0, 1], true),
        (&[3, 0, 0, 0, 0, 8, 0, 0, 0, 0, 1, 1, 0, 0, 0, 1], false),
        (&[8, 0, 0, 0, 0, 15, 7], true),
        (&[8, 0, 0, 0, 0, 16, 7], false),
        (&[9, 8, 0, 0, 0, 1, 0, 0, 0, 1], true),
        (&[9, 9, 0, 0, 0, 1, 0, 0, 0, 1], false),
        (&[4, 0, 0, 0, 0, 1, 1, b'v', b'o'], false),
        (&[0], false),
        (&[10], false),
    ];
    for (front, is_spelling) in cases {
        let mut spelled = bytes(front);
        assert!(rt; decode(&spelled).is_some() == is_spelling, "at {front:?}");
        spelled[63] = 1;
        assert!(rt; decode(&spelled).is_none(), "a last byte 1 at {front:?}");
    }
}
