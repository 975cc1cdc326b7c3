//! A proposer among three servers, and who is counted.

use paxos_core::{Heard, Proposer, ServerCount, on_accept, on_prepare};
use petal_command::{Ballot, Command, Pax, ServerNumber};
use petal_disk::{Disk, MemDisk};
use state_store::StateStore;
use std::alloc::Global;
use std::process::Abort;
use std::test::Fail;

/// The first round of server 0 and of server 1, which is the higher one.
const FIRST: Ballot = Ballot {
    round: 1,
    server: 0,
};

const SECOND: Ballot = Ballot {
    round: 1,
    server: 1,
};

fn leave(inc: u32) -> Command {
    Command::Leave {
        server: ServerNumber::new(2),
        inc,
    }
}

fn promise(ballot: Ballot, accepted: Option<(Ballot, Command)>) -> Pax {
    Pax::Promise {
        place: 1,
        ballot,
        accepted,
    }
}

fn accept(ballot: Ballot) -> Pax {
    Pax::Accept {
        place: 1,
        ballot,
        command: leave(1),
    }
}

fn accepted(ballot: Ballot) -> Pax {
    Pax::Accepted { place: 1, ballot }
}

fn is_nothing(heard: &Heard) -> bool {
    matches!(heard, Heard::Nothing)
}

fn is_asked(heard: &Heard) -> bool {
    matches!(heard, Heard::Send(letter) if *letter == accept(SECOND))
}

// Server 1's proposer starts with another command than the one that is reported to it.
fn start(rt: &impl Abort, proposer: &mut Proposer) {
    let prepare = Pax::Prepare {
        place: 1,
        ballot: SECOND,
    };
    assert!(rt; proposer.start(1, 1, leave(2)) == prepare);
}

fn hear_reports(rt: &impl Abort, proposer: &mut Proposer) {
    let reports = promise(SECOND, Some((FIRST, leave(1))));
    assert!(rt; is_nothing(&proposer.hear(0, &reports)));
    assert!(rt; is_nothing(&proposer.hear(0, &reports)));
}

fn hear_promises(rt: &impl Abort, proposer: &mut Proposer) {
    let promises = promise(SECOND, None);
    assert!(rt; is_nothing(&proposer.hear(3, &promises)));
    assert!(rt; is_asked(&proposer.hear(1, &promises)));
}

fn is_chosen(heard: &Heard) -> bool {
    matches!(heard, Heard::Chosen { place: 1, command } if *command == leave(1))
}

fn hear_acceptances(rt: &impl Abort, proposer: &mut Proposer) {
    let accepted = accepted(SECOND);
    assert!(rt; is_nothing(&proposer.hear(1, &accepted)));
    assert!(rt; is_chosen(&proposer.hear(2, &accepted)));
    assert!(rt; is_nothing(&proposer.hear(0, &accepted)));
}

#[test]
fn reported_value_is_proposed_again(rt: HostRuntime) {
    let mut proposer = Proposer::new(ServerNumber::new(1), ServerCount::new(3));
    start(&rt, &mut proposer);
    hear_reports(&rt, &mut proposer);
    hear_promises(&rt, &mut proposer);
    hear_acceptances(&rt, &mut proposer);
}

#[test]
fn refusal_is_told(rt: HostRuntime) {
    let mut proposer = Proposer::new(ServerNumber::new(0), ServerCount::new(3));
    let _ = proposer.start(1, 1, leave(1));
    let refuse = Pax::Refuse {
        place: 1,
        ballot: FIRST,
        promised: SECOND,
    };
    let told = proposer.hear(2, &refuse);
    assert!(rt;
        matches!(
            &told,
            Heard::Refused(Ballot {
                round: 1,
                server: 1
            })
        )
    );
}

fn store(alloc: Global) -> Result<StateStore<MemDisk>, Fail> {
    let disk = MemDisk::new(alloc, 8_392_704)?;
    match StateStore::format(alloc, disk, 1) {
        Ok(store) => Ok(store),
        Err((_, error)) => Err(error.into()),
    }
}

fn promises_the_first<D: Disk>(store: &mut StateStore<D>) -> bool {
    on_prepare(store, 1, FIRST) == Ok(promise(FIRST, None))
}

// Server 0 starts its ballot with one command; 0 and 2 promise, and 0 alone accepts.
fn first_ballot<D: Disk>(
    rt: &impl Abort,
    zero: &mut StateStore<D>,
    two: &mut StateStore<D>,
) -> Result<(), Fail> {
    zero.promise(1, FIRST)?;
    assert!(rt; promises_the_first(zero));
    assert!(rt; promises_the_first(two));
    assert!(rt; on_accept(zero, 1, FIRST, &leave(1)) == Ok(accepted(FIRST)));
    Ok(())
}

fn report<D: Disk>(
    rt: &impl Abort,
    zero: &mut StateStore<D>,
    proposer: &mut Proposer,
) -> Result<(), Fail> {
    let report = on_prepare(zero, 1, SECOND)?;
    assert!(rt; report == promise(SECOND, Some((FIRST, leave(1)))));
    assert!(rt; is_nothing(&proposer.hear(0, &report)));
    Ok(())
}

fn own_promise<D: Disk>(
    rt: &impl Abort,
    one: &mut StateStore<D>,
    proposer: &mut Proposer,
) -> Result<(), Fail> {
    let own = on_prepare(one, 1, SECOND)?;
    assert!(rt; is_asked(&proposer.hear(1, &own)));
    Ok(())
}

// Server 1 starts its own with another; 0 promises and reports the first, 1 promises.
fn second_ballot<D: Disk>(
    rt: &impl Abort,
    zero: &mut StateStore<D>,
    one: &mut StateStore<D>,
) -> Result<(), Fail> {
    one.promise(1, SECOND)?;
    let mut proposer = Proposer::new(ServerNumber::new(1), ServerCount::new(3));
    let _ = proposer.start(1, 1, leave(2));
    report(rt, zero, &mut proposer)?;
    own_promise(rt, one, &mut proposer)
}

fn late_letter<D: Disk>(rt: &impl Abort, zero: &mut StateStore<D>) {
    let refuse = Pax::Refuse {
        place: 1,
        ballot: FIRST,
        promised: SECOND,
    };
    assert!(rt; on_accept(zero, 1, FIRST, &leave(1)) == Ok(refuse));
}

// Each store is lent and dropped before its owner leaves: the prover pays for it at each exit that drops it.
fn with_two(rt: &impl Abort, alloc: Global, zero: &mut StateStore<MemDisk>) -> Result<(), Fail> {
    let mut two = store(alloc)?;
    let told = first_ballot(rt, zero, &mut two);
    drop(two);
    told
}

fn with_one(rt: &impl Abort, alloc: Global, zero: &mut StateStore<MemDisk>) -> Result<(), Fail> {
    let mut one = store(alloc)?;
    let told = second_ballot(rt, zero, &mut one);
    drop(one);
    told
}

fn two_ballots(rt: &impl Abort, alloc: Global, zero: &mut StateStore<MemDisk>) -> Result<(), Fail> {
    with_two(rt, alloc, zero)?;
    with_one(rt, alloc, zero)?;
    late_letter(rt, zero);
    Ok(())
}

#[test]
fn late_ballot_is_refused(rt: HostRuntime) -> Result<(), Fail> {
    let mut zero = store(rt.alloc())?;
    let told = two_ballots(&rt, rt.alloc(), &mut zero);
    drop(zero);
    told
}
