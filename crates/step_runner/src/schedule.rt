//! Schedules as cases: a script, and the steps of its run in words.
//!
//! Its steps stand one after the other with `;` between them. A server is its digit, a client its letter, the operator `op`, and
//! a line of the script its number. Line 1 is the `servers` line.
//!
//! | step | what happens |
//! |---|---|
//! | `a calls 2` | client `a` calls line 2, which is its next |
//! | `reserve 1>0` | the oldest letter of this kind from server 1 to server 0 is handed over, of those that are on their way |
//! | `drop reserve 1>0` | that letter is lost |
//! | `again reserve 1>0` | the last letter of this kind and way that was handed over or lost is handed over again |
//! | `1 works` | server 1 does the first job of its queue |
//! | `1 works off` | server 1 does jobs until its queue is empty, and at least one |
//! | `1 stops` | the server stops: the operator's open line is its stop |
//! | `1 blanks` | the stopped server gets a blank data device: the operator's open line is its blank |
//! | `1 arms data write 3`, `1 arms state any 2 stop` | the third write of the server's data device from now on fails; the second call of its state device stops the server in it |
//! | `1 arms data sync 3 late`, `1 arms state sync 1 late stop` | the same, but a write or a sync fails only after it has done all of its work |
//! | `1 disarms data` | the device has no plan from now on |
//! | `by lines` | from now on the world refuses each stop, blank, arming, boot and glance that the operator's open line does not give next; before it, devices are armed and disarmed at any time, and a server boots with the plans that they have |
//! | `by puts` | of a write that a server puts on a link which it serves alone, it is told from now on that it takes effect in the step of its put; before it, with the letter that ends the write or as the server stops |
//! | `1 boots` | the stopped server boots: the operator's open line is its start, or has blanked it |
//! | `1 shows 4` | the server is glanced at, for the operator's open line 4, which has given it each of its steps |
//! | `1 shows 4 in 2` | the server is glanced at in the second round of the operator's open line 4, which is a settle |
//! | `1 ticks`, `a ticks` | the server or the client sends again what is not answered |
//! | `agree` | rounds in which everyone gets its letters and works, and in some of which they tick, until each line that was called is answered and all that run are at one revision, but for the operator, who takes no part; what is then on its way is lost |
//! | `agree without 1`, `agree without b` | the same without this actor |
//! | `go on 20` | so many steps, one after the other, in which the operator takes no part: the first server that has a job does it; or else the oldest letter on its way is handed over; or else the next in turn ticks |
//! | `wait` | the next phase begins; each line before it is answered |
//! | `play out` | rounds, until each line is answered: each letter is handed over twice, the last one first, servers work off their queues, clients and the operator call, servers stop, are blanked, armed, boot and are glanced at as it says, and in every eighth round clients and a server tick |
//! | `renamed write a>1` | the write that is next to be handed over comes with a later stamp |
//! | `changed write a>1` | it comes with another content |
//!
//! | expectation | what is so at this place |
//! |---|---|
//! | `line 3 ok`, `line 3 nospace`, `line 3 nodisk`, `line 3 nosnap`, `line 3 unavailable`, `line 3 exists`, `line 3 moving`, `line 3 failed` | the line has this answer |
//! | `line 3 open` | the line has no answer yet |
//! | `line 5 fill 7`, `line 5 fill 1 or 2` | it is answered with a block of this byte, or of one of the two |
//! | `line 8 as 7` | it is answered with the same block as line 7 |
//! | `told begin take end` | of all that the plain machine is told so far, but for the disks that are made, these are the events |
//! | `made 2` | the plain machine is told so far that so many disks are made |
//! | `failed 1` | so many jobs and boots ended so far since a device failed |
//! | `stopped 1` | so many jobs ended so far since a plan stopped the server |
//! | `committed 1` | so many of all these had made their commit |
//! | `sent 4 write a>1` | at least so many letters of this kind and way were sent |
//! | `owners 8 data 0>a` | the block that the last such letter brings has at least so many owners |
//! | `1 has 0/5 fill 7` | what server 1 has put last of block 5 under map 0 is a block of this byte; nothing put is zeros |
//! | `1 marks 0 3 5`, `1 marks 0 none` | of map 0 exactly these blocks are marked at server 1, or none is |
//! | `1 has 2 entries` | the store of server 1 has so many entries in all, of whatever disk and epoch |
//!
//! The last three are asked of a copy of the server: of a block or a mark only where the server knows the map, has a part in the block's
//! link and the map is live.
//!
//! `not` before a step says that the world refuses it, or that there is no such letter; before an expectation, that it is not
//! so. The kinds of letters are the words of `with_kinds` (`step_language`); the events are `make`, `freeze`, `begin`, `take`, `end` and `look`.
//!
//! At the end of each case the plain machine takes all that it is told. A case that fails names itself, the step and, where a
//! word is none of these, the word and its place in the step.

use crate::held::FirstHosts;
use crate::player::Player;
use oracle_events::Stores;
use petal_base::NoMemory;
use petal_world::Host;
use std::alloc::Global;
use std::test::Fail;
use step_language::{Act, act_of};
use world_probe::Run;

/// What a run shows, its script, and its steps, in the form of this module.
#[derive(Clone, Copy)]
pub struct Case<'a> {
    pub shows: &'a str,
    pub script: &'a str,
    pub steps: &'a str,
}

/// What is wrong with a step.
#[derive(Clone, Copy, Debug, PartialEq, Eq)]
enum Fault {
    /// It was not taken, or what is expected is not so.
    NotSo,
    /// The word at this place, from 1, is none of the form.
    BadWord(usize),
}

/// The words after `not`, where they begin with it.
fn denied<'a>(words: &'a [&'a str]) -> Option<&'a [&'a str]> {
    match *words {
        ["not", ..] => Some(&words[1..]),
        _ => None,
    }
}

// What the words ask for, or the place of a bad one.
fn step_of<'a>(words: &'a [&'a str]) -> Result<(bool, Act<'a>), usize> {
    match denied(words) {
        None => Ok((true, act_of(words)?)),
        Some(rest) => match act_of(rest) {
            Ok(act) => Ok((false, act)),
            Err(place) => Err(place.saturating_add(1)),
        },
    }
}

fn fault_of<H: Host, C: FirstHosts<H> + Stores>(
    alloc: Global,
    hosts: &C,
    player: &mut Player<H>,
    words: &[&str],
) -> Result<Option<Fault>, NoMemory> {
    match step_of(words) {
        Err(place) => Ok(Some(Fault::BadWord(place))),
        Ok((wanted, act)) => {
            if player.take(alloc, hosts, &act)? == wanted {
                Ok(None)
            } else {
                Ok(Some(Fault::NotSo))
            }
        }
    }
}

fn word_at<'a>(words: &[&'a str], place: usize) -> &'a str {
    match words.get(place.saturating_sub(1)) {
        Some(word) => word,
        None => "",
    }
}

fn fail(case: &Case, at: usize, words: &[&str], fault: Fault) -> Fail {
    match fault {
        Fault::NotSo => Fail::new(format_args!("{}: step {at}, {words:?}", case.shows)),
        Fault::BadWord(place) => {
            let word = word_at(words, place);
            Fail::new(format_args!(
                "{}: step {at}, {words:?}: `{word}`, word {place}, is none of the form",
                case.shows
            ))
        }
    }
}

fn walk<H: Host, C: FirstHosts<H> + Stores>(
    alloc: Global,
    hosts: &C,
    case: &Case,
    player: &mut Player<H>,
) -> Result<(), Fail> {
    let mut at = 0usize;
    for step in case.steps.split(';') {
        at = at.saturating_add(1);
        let words: Vec<&str> = step.split_whitespace().collect(alloc)?;
        if let Some(fault) = fault_of(alloc, hosts, player, &words)? {
            return Err(fail(case, at, &words, fault));
        }
    }
    match player.first_refused(alloc, hosts)? {
        None => Ok(()),
        Some(record) => Err(Fail::new(format_args!(
            "{}: the plain machine refuses record {record}",
            case.shows
        ))),
    }
}

/// Plays a case on the run of its script that begins, with these servers.
///
/// # Errors
/// What is wrong: the case, its step, and where a word is none of the form that word; or what the plain machine refuses.
pub fn play_case<H: Host, C: FirstHosts<H> + Stores>(
    alloc: Global,
    hosts: &C,
    case: &Case,
    run: Run<H>,
) -> Result<(), Fail> {
    let mut player = Player::new(alloc, run);
    walk(alloc, hosts, case, &mut player)
}
