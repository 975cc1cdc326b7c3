//! The spelling of records, byte for byte, and bytes that spell nothing.

use busy_marks::MarkKind;
use data_device::record::{StoreRecord, decode, encode};
use petal_base::{Cell, Key, Origin};

const KEY: Key = Key {
    map: 1,
    block: 5,
    epoch: 0,
};

fn put_for(origin: Option<Origin>) -> StoreRecord {
    StoreRecord::Put {
        key: KEY,
        version: 3,
        slot: 2,
        origin,
    }
}

const PUT_BYTES: [u8; 36] = [
    1, 0, 0, 0, 1, 0, 0, 0, 0, 0, 0, 0, 5, 0, 0, 0, 0, 0, 0, 0, 0, 0, 0, 0, 3, 0, 0, 0, 2, 0, 1, 0,
    0, 0, 7, 1,
];

#[test]
fn a_put(rt: HostRuntime) {
    let put = put_for(Some(Origin::new(1, 0, 7)));
    let bytes = encode(&put);
    assert_eq!(rt; bytes[..36], PUT_BYTES[..]);
    assert_eq!(rt; bytes[36..], [0; 27][..]);
    assert_eq!(rt; decode(&bytes), Some(put));
}

#[test]
fn a_put_for_no_write(rt: HostRuntime) {
    let put = put_for(None);
    let bytes = encode(&put);
    assert_eq!(rt; bytes[..30], PUT_BYTES[..30]);
    assert_eq!(rt; bytes[30..], [0; 33][..]);
    assert_eq!(rt; decode(&bytes), Some(put));
}

#[test]
fn rows(rt: HostRuntime) {
    let forget = StoreRecord::Forget { map: 1, link: 2 };
    let bytes = encode(&forget);
    assert_eq!(rt; bytes[..7], [7, 0, 0, 0, 1, 2, 0][..]);
    assert_eq!(rt; decode(&bytes), Some(forget));
    let done = StoreRecord::Done {
        map: 1,
        origin: Origin::new(2, 3, 4),
    };
    let bytes = encode(&done);
    assert_eq!(rt; bytes[..12], [8, 0, 0, 0, 1, 2, 3, 0, 0, 0, 4, 0][..]);
    assert_eq!(rt; decode(&bytes), Some(done));
}

#[test]
fn a_stray_byte(rt: HostRuntime) {
    let mark = StoreRecord::Mark {
        kind: MarkKind::Stale,
        cell: Cell { map: 1, block: 5 },
    };
    let mut bytes = encode(&mark);
    assert_eq!(rt; decode(&bytes), Some(mark));
    bytes[20] = 1;
    assert_eq!(rt; decode(&bytes), None);
}

#[test]
fn no_record(rt: HostRuntime) {
    let mut bytes = [0; 63];
    assert_eq!(rt; decode(&bytes), None);
    // the first record of a half is none of a store
    bytes[0] = 6;
    assert_eq!(rt; decode(&bytes), None);
    // a write of a client that a script has not
    let mut put = encode(&put_for(None));
    put[30] = 9;
    assert_eq!(rt; decode(&put), None);
}
