//! Links of two maps, with values worked by hand.

use link_table::{LinkState, Links};
use petal_base::{MapId, NoMemory, ServerId, Tuple};
use std::alloc::Global;
use std::test::Fail;

fn is_both(links: &Links, map: MapId, link: u8) -> bool {
    match links.get(map, link) {
        Some(row) => match row.state {
            LinkState::Both => true,
            _ => false,
        },
        None => false,
    }
}

fn is_lost(links: &Links, map: MapId, link: u8) -> bool {
    match links.get(map, link) {
        Some(row) => match row.state {
            LinkState::Lost => true,
            _ => false,
        },
        None => false,
    }
}

/// Whether the server has the link alone, and has to give all of it (`wants_whole`) or what is marked.
fn is_only(links: &Links, map: MapId, link: u8, server: ServerId, wants_whole: bool) -> bool {
    match links.get(map, link) {
        Some(row) => match row.state {
            LinkState::Only {
                holder,
                full_copy_needed,
            } => holder == server && full_copy_needed == wants_whole,
            _ => false,
        },
        None => false,
    }
}

/// The map 0 while all servers are up, and the map 1 while only the middle one is.
fn two_maps(alloc: Global, links: &mut Links, tuple: &Tuple) -> Result<(), NoMemory> {
    links.add_map(alloc, 0, tuple, &[true, true, true])?;
    links.add_map(alloc, 1, tuple, &[false, true])
}

fn are_as_made(links: &Links) -> bool {
    links.rows().len() == 6
        && is_both(links, 0, 2)
        && is_only(links, 1, 0, 1, false)
        && is_only(links, 1, 1, 1, false)
        && is_only(links, 1, 2, 2, false)
}

fn are_left(links: &Links) -> bool {
    is_only(links, 0, 0, 0, false) && is_only(links, 0, 1, 2, false)
}

fn are_joined(links: &Links) -> bool {
    is_only(links, 0, 0, 0, true) && is_lost(links, 1, 0)
}

/// Server 1 leaves and comes back blank, and is given the blocks of one link.
fn leave_and_come_back(alloc: Global, links: &mut Links) -> Result<bool, NoMemory> {
    links.leave(alloc, 1)?;
    let left = are_left(links);
    links.join(alloc, 1, true)?;
    let joined = are_joined(links);
    links.caught(alloc, 0, 1)?;
    Ok(left && joined && is_both(links, 0, 1))
}

/// The map 1 goes; the other stays, in a copy too.
fn drop_one(alloc: Global, links: &mut Links) -> Result<bool, NoMemory> {
    links.drop_map(alloc, 1)?;
    let same = links.copy()?;
    Ok(same.rows().len() == 3 && same.get(1, 0).is_none())
}

#[test]
fn links(rt: HostRuntime) -> Result<(), Fail> {
    let tuple = Tuple::new(&[0, 1, 2], 5).ok_or("a tuple")?;
    let mut links = Links::new(rt.alloc());
    two_maps(rt.alloc(), &mut links, &tuple)?;
    assert!(rt; are_as_made(&links));
    assert!(rt; leave_and_come_back(rt.alloc(), &mut links)?);
    assert!(rt; drop_one(rt.alloc(), &mut links)?);
    Ok(())
}
