//! Two maps are made.

use global_map::Maps;
use petal_base::Tuple;
use std::alloc::Global;
use std::process::Abort;
use std::test::Fail;

fn add(rt: &impl Abort, maps: &mut Maps, ids: &[u8]) -> Result<(), Fail> {
    let tuple = Tuple::new(ids, 5).ok_or("a tuple")?;
    assert!(rt; maps.count() < 9);
    maps.add(&tuple, 7)?;
    Ok(())
}

fn two_maps(rt: &impl Abort, alloc: Global) -> Result<Maps, Fail> {
    let mut maps = Maps::new(alloc);
    add(rt, &mut maps, &[0, 1])?;
    add(rt, &mut maps, &[4, 2, 0])?;
    Ok(maps)
}

fn look_at_disks(rt: &impl Abort, maps: &Maps) {
    assert_eq!(rt; maps.count(), 2);
    assert_eq!(rt; maps.disk(1), Some(7));
    assert_eq!(rt; maps.disk(2), None);
}

fn look_at_tuples(rt: &impl Abort, maps: &Maps) -> Result<(), Fail> {
    let tuple = maps.tuple(1).ok_or("a tuple")?;
    assert_eq!(rt; tuple.ids(), [4, 2, 0].as_slice());
    assert!(rt; maps.tuple(2).is_none());
    Ok(())
}

fn look(rt: &impl Abort, maps: &Maps) -> Result<(), Fail> {
    look_at_disks(rt, maps);
    look_at_tuples(rt, maps)
}

#[test]
fn maps(rt: HostRuntime) -> Result<(), Fail> {
    let maps = two_maps(&rt, rt.alloc())?;
    let same = maps.copy()?;
    look(&rt, &same)
}
