//! A fence that servers report for, with values worked by hand.

use petal_base::{NoMemory, ServerId};
use std::alloc::Global;
use std::test::Fail;
use view_fence::{FenceKind, Member, ViewFence};

/// Whether the first fence waits for these servers.
fn awaits(view: &ViewFence, servers: &[ServerId]) -> bool {
    match view.head() {
        Some(head) => head.waiting.as_slice() == servers,
        None => false,
    }
}

fn with_fence(alloc: Global, servers: u8) -> Result<ViewFence, NoMemory> {
    let mut view = ViewFence::new(alloc, servers)?;
    if view.queued() == 0 {
        view.add(alloc, FenceKind::Region { disk: 0, region: 4 })?;
    }
    view.copy()
}

fn has_passed(alloc: Global, view: &mut ViewFence) -> Result<bool, NoMemory> {
    Ok(view.take(alloc)?.is_some())
}

fn both_report(alloc: Global, view: &mut ViewFence) -> Result<bool, NoMemory> {
    view.drained(alloc, 1)?;
    let awaits_the_other = awaits(view, &[0]);
    let early = has_passed(alloc, view)?;
    view.drained(alloc, 0)?;
    let late = has_passed(alloc, view)?;
    Ok(awaits_the_other && !early && late && view.queue().is_empty())
}

#[test]
fn reports(rt: HostRuntime) -> Result<(), Fail> {
    let mut view = with_fence(rt.alloc(), 2)?;
    assert!(rt; both_report(rt.alloc(), &mut view)?);
    Ok(())
}

/// Whether server 2 is In with its second incarnation.
fn is_back(view: &ViewFence) -> bool {
    match view.member(2) {
        Some(Member::In(inc)) => inc == 2,
        _ => false,
    }
}

fn leave_and_join(alloc: Global, view: &mut ViewFence) -> Result<bool, NoMemory> {
    view.drained(alloc, 1)?;
    if view.members().len() == 3 {
        view.leave(alloc, 2)?;
    }
    let left = awaits(view, &[0, 1]);
    if view.members().len() == 3 {
        view.join(2, 2)?;
    }
    Ok(left && is_back(view) && awaits(view, &[0, 1]))
}

#[test]
fn a_leave_asks_again(rt: HostRuntime) -> Result<(), Fail> {
    let mut view = with_fence(rt.alloc(), 3)?;
    assert!(rt; leave_and_join(rt.alloc(), &mut view)?);
    Ok(())
}
