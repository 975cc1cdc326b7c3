//! Places learnt out of order.

use chosen_log::ChosenLog;
use petal_command::{Command, ServerNumber};
use std::process::Abort;
use std::test::Fail;

fn leave(inc: u32) -> Command {
    Command::Leave {
        server: ServerNumber::new(2),
        inc,
    }
}

fn learn_one(
    rt: &impl Abort,
    log: &mut ChosenLog,
    (place, inc, run): (u32, u32, usize),
) -> Result<(), Fail> {
    log.learn(place, leave(inc))?;
    assert_eq!(rt; log.prefix().len(), run, "after place {place}");
    Ok(())
}

fn learn_all(rt: &impl Abort, log: &mut ChosenLog) -> Result<(), Fail> {
    let cases: [(u32, u32, usize); 7] = [
        (2, 20, 0),
        (3, 30, 0),
        (5, 50, 0),
        (1, 10, 3),
        (1, 11, 3),
        (0, 90, 3),
        (4, 40, 5),
    ];
    for case in cases {
        learn_one(rt, log, case)?;
    }
    Ok(())
}

fn is_first(commands: &[Command], inc: u32) -> bool {
    commands.first() == Some(&leave(inc))
}

fn are_so_many(log: &ChosenLog) -> bool {
    log.since(3).len() == 2 && log.since(5).is_empty() && log.since(9).is_empty()
}

fn look(rt: &impl Abort, log: &ChosenLog) {
    assert!(rt; is_first(log.prefix(), 10) && is_first(log.since(3), 40));
    assert!(rt; are_so_many(log));
}

// The log is dropped before the test leaves: the prover pays for it at each exit that drops it.
#[test]
fn places_out_of_order(rt: HostRuntime) -> Result<(), Fail> {
    let mut log = ChosenLog::new(rt.alloc());
    let learnt = learn_all(&rt, &mut log);
    if learnt.is_ok() {
        look(&rt, &log);
    }
    drop(log);
    learnt
}
