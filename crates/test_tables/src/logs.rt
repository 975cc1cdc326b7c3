//! Runs of the log, worked by hand from the rules.

use global_state::{GlobalState, LinkState, Verdict};
use petal_base::{BlockNo, Cell, Inc, MapId, Name, NoMemory, Rev, Seq, ServerId, Tuple};
use petal_command::{ClientNumber, Command, LinkNumber, RegionNumber, ServerNumber};
use std::alloc::Global;
use std::test::Fail;

fn server(n: u8) -> ServerNumber {
    ServerNumber::new(n % 8)
}

fn join(s: u8, inc: Inc, blank: bool) -> Command {
    Command::Join {
        server: server(s),
        inc,
        blank,
    }
}

fn leave(s: u8, inc: Inc) -> Command {
    Command::Leave {
        server: server(s),
        inc,
    }
}

fn drained(s: u8, fence: u32) -> Command {
    Command::Drained {
        server: server(s),
        inc: 1,
        fence,
    }
}

fn caught(link: u8, holder: u8, other: u8, other_inc: Inc) -> Command {
    Command::Caught {
        map: 0,
        link: LinkNumber::new(link % 8),
        holder: server(holder),
        holder_inc: 1,
        other: server(other),
        other_inc,
    }
}

fn make(seq: Seq, name: Name, tuple: Tuple) -> Command {
    Command::MakeDisk {
        client: ClientNumber::new(0),
        seq,
        name,
        tuple,
    }
}

fn snap(seq: Seq, disk: Name, name: Name) -> Command {
    Command::Snap {
        client: ClientNumber::new(0),
        seq,
        disk,
        name,
    }
}

fn run(alloc: Global, state: &mut GlobalState, log: &[Command]) -> Result<(), NoMemory> {
    for command in log {
        if state.rev() < Rev::MAX {
            state.apply(alloc, command)?;
        }
    }
    Ok(())
}

fn all_drained(
    alloc: Global,
    state: &mut GlobalState,
    from: u8,
    to: u8,
    fence: u32,
) -> Result<(), NoMemory> {
    for s in from..to {
        run(alloc, state, &[drained(s, fence)])?;
    }
    Ok(())
}

fn is_both(state: &GlobalState, link: u8) -> bool {
    match state.link(0, link) {
        Some(link) => match link.state {
            LinkState::Both => true,
            _ => false,
        },
        None => false,
    }
}

fn is_lost(state: &GlobalState, link: u8) -> bool {
    match state.link(0, link) {
        Some(link) => match link.state {
            LinkState::Lost => true,
            _ => false,
        },
        None => false,
    }
}

/// Whether the server has the link alone, and has to give all of it (`wants_whole`) or what is marked.
fn is_only(state: &GlobalState, link: u8, server: ServerId, wants_whole: bool) -> bool {
    match state.link(0, link) {
        Some(link) => match link.state {
            LinkState::Only {
                holder,
                full_copy_needed,
            } => holder == server && full_copy_needed == wants_whole,
            _ => false,
        },
        None => false,
    }
}

/// Whether the server takes writes of the cell.
fn leads(state: &GlobalState, server: ServerId, map: MapId, block: BlockNo) -> bool {
    state.is_lead(server, Cell { map, block })
}

/// Whether nobody takes writes of the cell.
fn has_no_lead(state: &GlobalState, map: MapId, block: BlockNo) -> bool {
    state.lead(Cell { map, block }).is_none()
}

/// Whether this became of the client's command of this number, its last one.
fn is_told(state: &GlobalState, seq: Seq, want: Verdict) -> bool {
    match state.verdict(0) {
        Some((number, verdict)) => number == seq && verdict == want,
        None => false,
    }
}

fn vol() -> Result<Name, Fail> {
    Ok(Name::read(b"vol").ok_or("a name")?)
}

fn snapshot_name() -> Result<Name, Fail> {
    Ok(Name::read(b"s1").ok_or("a name")?)
}

fn tuple(ids: &[ServerId], servers: u8) -> Result<Tuple, Fail> {
    Ok(Tuple::new(ids, servers).ok_or("a tuple")?)
}

/// The disk `vol` on all of the five servers.
fn disk_over_five(alloc: Global, state: &mut GlobalState) -> Result<(), Fail> {
    let disk = make(1, vol()?, tuple(&[0, 1, 2, 3, 4], 5)?);
    run(alloc, state, &[disk])?;
    Ok(())
}

// A blank server loses what it alone held, and has to be given all of what its neighbour holds.
fn blank_and_back(alloc: Global, state: &mut GlobalState) -> Result<(), NoMemory> {
    let log = [
        join(1, 2, false),
        leave(1, 1),
        join(2, 2, true),
        caught(2, 3, 2, 1),
    ];
    run(alloc, state, &log)
}

fn are_left(state: &GlobalState) -> bool {
    is_only(state, 0, 0, false)
        && is_only(state, 1, 2, false)
        && is_only(state, 2, 3, false)
        && has_no_lead(state, 0, 1)
}

fn are_blank(state: &GlobalState) -> bool {
    is_only(state, 0, 0, false) && is_lost(state, 1) && is_only(state, 2, 3, true)
}

/// Whether servers 2 and 3 both keep the cell's copies, and server 2 puts first.
fn are_a_pair(state: &GlobalState, cell: Cell) -> bool {
    state.first(cell) == Some(2)
        && state.second(cell) == Some(3)
        && state.is_second(3, cell)
        && state.leads_link(2, cell)
}

fn leaves(alloc: Global, state: &mut GlobalState) -> Result<bool, NoMemory> {
    run(alloc, state, &[leave(1, 1), leave(2, 1)])?;
    Ok(are_left(state))
}

fn joins_blank(alloc: Global, state: &mut GlobalState) -> Result<bool, NoMemory> {
    blank_and_back(alloc, state)?;
    Ok(are_blank(state))
}

fn catches_up(alloc: Global, state: &mut GlobalState) -> Result<bool, NoMemory> {
    run(alloc, state, &[caught(2, 3, 2, 2)])?;
    let cell = Cell { map: 0, block: 2 };
    Ok(is_both(state, 2) && are_a_pair(state, cell) && state.readable(2, cell))
}

fn leave_and_join(alloc: Global, state: &mut GlobalState) -> Result<bool, NoMemory> {
    let left = leaves(alloc, state)?;
    let blank = joins_blank(alloc, state)?;
    Ok(catches_up(alloc, state)? && left && blank)
}

fn disk_outlives_leaves(alloc: Global, state: &mut GlobalState) -> Result<bool, Fail> {
    disk_over_five(alloc, state)?;
    Ok(leave_and_join(alloc, state)?)
}

// The tests lend their state and drop it before they leave: the prover pays for a state at each exit that drops it.
#[test]
fn servers_leave_and_join(rt: HostRuntime) -> Result<(), Fail> {
    let mut state = GlobalState::new(rt.alloc(), 5)?;
    let seen = disk_outlives_leaves(rt.alloc(), &mut state);
    drop(state);
    assert!(rt; seen?);
    Ok(())
}

/// The snapshot is asked for, server 0 reports, and server 4 leaves, so that server 0 has to report again.
fn ask_for_a_snapshot(alloc: Global, state: &mut GlobalState) -> Result<(), Fail> {
    let asked = snap(2, vol()?, snapshot_name()?);
    run(alloc, state, &[asked, drained(0, 1), leave(4, 1)])?;
    Ok(())
}

fn report_one_by_one(alloc: Global, state: &mut GlobalState) -> Result<bool, NoMemory> {
    all_drained(alloc, state, 1, 4, 1)?;
    let waits = is_told(state, 2, Verdict::Waiting);
    all_drained(alloc, state, 0, 1, 1)?;
    Ok(waits && is_told(state, 2, Verdict::Ok))
}

fn has_snapshot(state: &GlobalState) -> Result<bool, Fail> {
    Ok(state.snapshot(0, &snapshot_name()?) == Some(0))
}

fn snapshot_is_made(alloc: Global, state: &mut GlobalState) -> Result<bool, Fail> {
    disk_over_five(alloc, state)?;
    ask_for_a_snapshot(alloc, state)?;
    let told = report_one_by_one(alloc, state)?;
    Ok(told && has_snapshot(state)?)
}

#[test]
fn a_snapshot_waits_for_reports(rt: HostRuntime) -> Result<(), Fail> {
    let mut state = GlobalState::new(rt.alloc(), 5)?;
    let seen = snapshot_is_made(rt.alloc(), &mut state);
    drop(state);
    assert!(rt; seen?);
    Ok(())
}

fn start_move(seq: Seq, disk: Name, tuple: Tuple) -> Command {
    Command::StartMove {
        client: ClientNumber::new(0),
        seq,
        disk,
        tuple,
    }
}

fn moved(region: u8, link: u8) -> Command {
    Command::Moved {
        map: 0,
        region: RegionNumber::new(region % 16),
        link: LinkNumber::new(link % 8),
    }
}

fn pass_region(alloc: Global, state: &mut GlobalState, region: u8) -> Result<(), NoMemory> {
    all_drained(alloc, state, 0, 2, u32::from(region) + 1)?;
    run(alloc, state, &[moved(region, 0), moved(region, 1)])
}

/// The disk `vol` on the two servers.
fn disk_over_two(alloc: Global, state: &mut GlobalState) -> Result<(), Fail> {
    let disk = make(1, vol()?, tuple(&[0, 1], 2)?);
    run(alloc, state, &[disk])?;
    Ok(())
}

fn move_to(alloc: Global, state: &mut GlobalState, seq: Seq, ids: &[ServerId]) -> Result<(), Fail> {
    let asked = start_move(seq, vol()?, tuple(ids, 2)?);
    run(alloc, state, &[asked])?;
    Ok(())
}

/// The disk `vol` of the two servers, on the move, and asked to move again.
fn disk_on_the_move(alloc: Global, state: &mut GlobalState) -> Result<(), Fail> {
    disk_over_two(alloc, state)?;
    move_to(alloc, state, 2, &[1, 0])?;
    move_to(alloc, state, 3, &[0, 1])
}

fn passes_its_first_region(alloc: Global, state: &mut GlobalState) -> Result<bool, NoMemory> {
    let before = leads(state, 0, 0, 8);
    pass_region(alloc, state, 0)?;
    let passed = has_no_lead(state, 0, 0) && leads(state, 1, 1, 0);
    Ok(before && passed && leads(state, 0, 0, 8))
}

fn first_move_goes_on(alloc: Global, state: &mut GlobalState) -> Result<bool, Fail> {
    disk_on_the_move(alloc, state)?;
    let told = is_told(state, 3, Verdict::Moving);
    Ok(passes_its_first_region(alloc, state)? && told)
}

#[test]
fn a_second_move_is_refused(rt: HostRuntime) -> Result<(), Fail> {
    let mut state = GlobalState::new(rt.alloc(), 2)?;
    let seen = first_move_goes_on(rt.alloc(), &mut state);
    drop(state);
    assert!(rt; seen?);
    Ok(())
}

fn end_a_move(alloc: Global, state: &mut GlobalState) -> Result<(), NoMemory> {
    for region in 0..16 {
        pass_region(alloc, state, region)?;
    }
    Ok(())
}

fn has_ended(state: &GlobalState) -> bool {
    state.link(0, 0).is_none()
        && !state.live(Cell { map: 0, block: 8 })
        && leads(state, 1, 1, 8)
        && state.fence().is_none()
}

fn move_ends(alloc: Global, state: &mut GlobalState) -> Result<bool, Fail> {
    disk_on_the_move(alloc, state)?;
    end_a_move(alloc, state)?;
    Ok(has_ended(state))
}

#[test]
fn a_move_ends_with_its_last_region(rt: HostRuntime) -> Result<(), Fail> {
    let mut state = GlobalState::new(rt.alloc(), 2)?;
    let seen = move_ends(rt.alloc(), &mut state);
    drop(state);
    assert!(rt; seen?);
    Ok(())
}
