//! Where blocks lie, with values worked by hand.

use chain_place::{link_of, region};
use petal_base::BlockNo;

// (servers, block, link, region)
const CASES: [(u8, BlockNo, u8, u8); 6] = [
    (5, 0, 0, 0),
    (5, 7, 2, 0),
    (2, 8, 0, 1),
    (8, 127, 7, 15),
    (3, 128, 2, 0),
    (7, 281_474_976_710_655, 0, 15),
];

fn lies_there(servers: u8, block: BlockNo, link: u8, in_region: u8) -> bool {
    servers >= 2 && link_of(servers, block) == link && region(block) == in_region
}

#[test]
fn places(rt: HostRuntime) {
    for (servers, block, link, in_region) in CASES {
        assert!(rt; lies_there(servers, block, link, in_region), "at {block}");
    }
}
