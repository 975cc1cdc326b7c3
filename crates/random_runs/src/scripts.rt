//! Scripts by chance.

use crate::random::Random;
use std::alloc::{AllocError, Global};

/// What a script tells of beside writes and reads.
#[derive(Clone, Copy)]
pub enum Tale {
    /// Nothing, over three servers.
    Plain,
    /// The operator stops two of five servers.
    Stops,
    /// It again and again stops two of them and starts them, and at last waits until they are settled.
    Starts,
    /// It blanks both of the two, one of them while it is stopped.
    Blanks,
    /// It stops both of the two twice.
    Cuts,
    /// A client takes snapshots.
    Snaps,
    /// A disk moves that has a snapshot.
    Moves,
    /// So it does, and the operator again and again stops one of the servers and starts it.
    MovesAndStarts,
    /// All of this, over five servers: two of them stop, at once or in a call of a device, start and are blanked, and the operator waits
    /// until they are settled; a disk that has snapshots moves again and again.
    All,
}

impl Tale {
    // Whether the operator waits at last until all servers are settled.
    fn settles(self) -> bool {
        match self {
            Tale::Starts | Tale::Blanks => true,
            _ => false,
        }
    }
}

/// How many lines a script has after those that make its disks. The writes among them have fills of their own.
const LINES: u8 = 240;

/// No script has more moves.
const MOVES: u32 = 8;

fn client_word(client: usize) -> &'static str {
    match client {
        0 => "a",
        1 => "b",
        _ => "c",
    }
}

/// A client's write or read of one of four blocks of one of two disks.
fn line_by(alloc: Global, random: &mut Random, fill: u8) -> Result<String, AllocError> {
    let client = client_word(random.below(3));
    let block = random.below(4);
    let disk = if random.below(3) == 0 { "log" } else { "vol" };
    if random.below(2) == 0 {
        format!(in alloc; "{client} write {disk} {block} fill {fill}\n")
    } else {
        format!(in alloc; "{client} read {disk} {block}\n")
    }
}

fn add_lines(alloc: Global, random: &mut Random, text: &mut String) -> Result<(), AllocError> {
    for fill in 1..=LINES {
        let line = line_by(alloc, random, fill)?;
        text.push_str(line.as_str())?;
    }
    Ok(())
}

// A script of three servers and three clients. Each write takes a slot more while it is under way, so that some find none.
fn plain_script(alloc: Global, random: &mut Random) -> Result<String, AllocError> {
    let slots = 3 + random.below(3);
    let mut text = format!(in alloc;
        "servers 3 slots {slots}\na disk vol on 0 1 2\nb disk log on 1 2\n"
    )?;
    add_lines(alloc, random, &mut text)?;
    Ok(text)
}

// Two of five servers.
fn two_by(random: &mut Random) -> (usize, usize) {
    let first = random.below(5);
    let second = (first + 1 + random.below(4)) % 5;
    (first, second)
}

// A server stops and starts, twice.
fn stops_twice(alloc: Global, server: usize) -> Result<String, AllocError> {
    format!(in alloc; "op stop {server}\nop start {server}\nop stop {server}\nop start {server}\n")
}

// What the operator orders of two of five servers.
fn orders_by(alloc: Global, random: &mut Random, tale: Tale) -> Result<String, AllocError> {
    let (first, second) = two_by(random);
    match tale {
        Tale::Stops => format!(in alloc; "op stop {first}\nop stop {second}\n"),
        Tale::Starts => format!(in alloc;
            "op stop {first}\nop start {first}\nop stop {second}\nop stop {first}\nop start {first}\nop start {second}\n"
        ),
        Tale::Blanks => format!(in alloc;
            "op blank {first}\nop stop {second}\nop stop {first}\nop start {first}\nop blank {second}\n"
        ),
        Tale::Cuts => {
            let mut orders = stops_twice(alloc, first)?;
            orders.push_str(stops_twice(alloc, second)?.as_str())?;
            Ok(orders)
        }
        Tale::Plain | Tale::Snaps | Tale::Moves | Tale::MovesAndStarts | Tale::All => {
            Ok(String::new(alloc))
        }
    }
}

// A script of five servers, of which the operator so often orders this of two.
fn ordered_script(
    alloc: Global,
    random: &mut Random,
    tale: Tale,
    times: u32,
) -> Result<String, AllocError> {
    let slots = 3 + random.below(3);
    let mut text = format!(in alloc;
        "servers 5 slots {slots}\na disk vol on 0 1 2\nb disk log on 3 4\n"
    )?;
    for _ in 0..times {
        let orders = orders_by(alloc, random, tale)?;
        text.push_str(orders.as_str())?;
    }
    if tale.settles() {
        text.push_str("op settle\n")?;
    }
    add_lines(alloc, random, &mut text)?;
    Ok(text)
}

// A read of one of these blocks, as one of so many snapshots has it.
fn old_read(
    alloc: Global,
    random: &mut Random,
    blocks: [u8; 3],
    client: &str,
    snaps: usize,
) -> Result<String, AllocError> {
    let block = blocks[random.below(3)];
    if snaps == 0 {
        return format!(in alloc; "{client} read vol {block}\n");
    }
    let snap = random.below(snaps).saturating_add(1);
    format!(in alloc; "{client} read vol@s{snap} {block}\n")
}

// A client's write or read of one of these blocks.
fn own_line(
    alloc: Global,
    random: &mut Random,
    blocks: [u8; 3],
    client: &str,
    fill: u8,
) -> Result<String, AllocError> {
    let block = blocks[random.below(3)];
    if random.below(2) == 0 {
        format!(in alloc; "{client} write vol {block} fill {fill}\n")
    } else {
        format!(in alloc; "{client} read vol {block}\n")
    }
}

// A line of one of three clients, of which `a` takes snapshots and mostly reads them. There are so many snapshots before.
fn snap_line(
    alloc: Global,
    random: &mut Random,
    blocks: [u8; 3],
    snaps: &mut usize,
    fill: u8,
) -> Result<String, AllocError> {
    let client = random.below(3);
    match (client, random.below(6)) {
        (0, 0) => {
            *snaps = snaps.saturating_add(1);
            format!(in alloc; "a snap vol s{snaps}\n")
        }
        (0, 1..=3) | (_, 0) => old_read(alloc, random, blocks, client_word(client), *snaps),
        _ => own_line(alloc, random, blocks, client_word(client), fill),
    }
}

// Lines of three clients, of which `a` takes snapshots and mostly reads them. There are so many snapshots before.
fn add_snap_lines(
    alloc: Global,
    random: &mut Random,
    blocks: [u8; 3],
    before: usize,
    text: &mut String,
) -> Result<(), AllocError> {
    let mut snaps = before;
    for fill in 1..=LINES {
        let line = snap_line(alloc, random, blocks, &mut snaps, fill)?;
        text.push_str(line.as_str())?;
    }
    Ok(())
}

// A script of three servers and three clients, of which `a` takes snapshots of the disk that is made in a first phase, and mostly
// reads them.
fn snap_script(alloc: Global, random: &mut Random) -> Result<String, AllocError> {
    let mut text = format!(in alloc; "servers 3 slots 64\na disk vol on 0 1 2\nwait\n")?;
    add_snap_lines(alloc, random, [0, 1, 2], 0, &mut text)?;
    Ok(text)
}

fn new_map(random: &mut Random) -> &'static str {
    match random.below(4) {
        0 => "1 2 0",
        1 => "0 2 1",
        2 => "2 1",
        _ => "2 0",
    }
}

// The first phase of a disk of three of so many servers, which is written in two epochs and is to move. Block 9 is of the second region.
fn moving_head(alloc: Global, random: &mut Random, servers: u8) -> Result<String, AllocError> {
    let mut text = format!(in alloc; "servers {servers} slots 64\n")?;
    text.push_str(
        "a disk vol on 0 1 2\na write vol 0 fill 251\na write vol 1 fill 252\na write vol 9 fill 253\n",
    )?;
    text.push_str("a snap vol s1\na write vol 0 fill 254\na write vol 9 fill 255\n")?;
    let line = format!(in alloc; "a move vol on {}\nwait\n", new_map(random))?;
    text.push_str(line.as_str())?;
    Ok(text)
}

// The same, where the disk is written in the first phase and is to move from then on, and the operator so often stops one of the servers
// and starts it.
fn moving_script(alloc: Global, random: &mut Random, starts: u32) -> Result<String, AllocError> {
    let mut text = moving_head(alloc, random, 3)?;
    for _ in 0..starts {
        let server = random.below(3);
        let orders = format!(in alloc; "op stop {server}\nop start {server}\n")?;
        text.push_str(orders.as_str())?;
    }
    add_snap_lines(alloc, random, [0, 1, 9], 1, &mut text)?;
    Ok(text)
}

fn kind_word(random: &mut Random) -> &'static str {
    match random.below(3) {
        0 => "read",
        1 => "write",
        _ => "sync",
    }
}

// What the operator orders of a server: mostly that it starts.
fn any_order(alloc: Global, random: &mut Random, server: usize) -> Result<String, AllocError> {
    let call = random.below(24).saturating_add(1);
    let kind = kind_word(random);
    match random.below(8) {
        0 => format!(in alloc; "op stop {server}\n"),
        1 => format!(in alloc; "op stop {server} at {call}\n"),
        2 => format!(in alloc; "op fault {server} data {kind} {call}\n"),
        3 => format!(in alloc; "op fault {server} state {kind} {call}\n"),
        4 => format!(in alloc; "op blank {server}\n"),
        _ => format!(in alloc; "op start {server}\n"),
    }
}

// So many orders of two of five servers, and again and again a wait until they are settled.
fn add_orders(
    alloc: Global,
    random: &mut Random,
    orders: u32,
    text: &mut String,
) -> Result<(), AllocError> {
    let (first, second) = two_by(random);
    for at in 1..=orders {
        let server = if random.below(2) == 0 { first } else { second };
        text.push_str(any_order(alloc, random, server)?.as_str())?;
        if at % 16 == 0 {
            text.push_str("op settle\n")?;
        }
    }
    Ok(())
}

fn any_map(random: &mut Random) -> &'static str {
    match random.below(5) {
        0 => "0 1 2",
        1 => "3 4 1",
        2 => "4 0",
        3 => "2 3",
        _ => "4 3 2 1 0",
    }
}

// Lines of three clients, by one of which in so many the disk is to move.
fn add_all_lines(alloc: Global, random: &mut Random, text: &mut String) -> Result<(), AllocError> {
    let mut snaps = 1;
    let mut moves = 1;
    for fill in 1..=LINES {
        let line = if random.below(16) == 0 && moves < MOVES {
            moves += 1;
            let client = client_word(random.below(3));
            let map = any_map(random);
            format!(in alloc; "{client} move vol on {map}\n")?
        } else {
            snap_line(alloc, random, [0, 1, 9], &mut snaps, fill)?
        };
        text.push_str(line.as_str())?;
    }
    Ok(())
}

// A script of five servers that has each kind of line.
fn whole_script(alloc: Global, random: &mut Random) -> Result<String, AllocError> {
    let mut text = moving_head(alloc, random, 5)?;
    add_orders(alloc, random, 40, &mut text)?;
    add_all_lines(alloc, random, &mut text)?;
    Ok(text)
}

/// A script by chance that tells such a tale.
pub fn script_by(alloc: Global, random: &mut Random, tale: Tale) -> Result<String, AllocError> {
    match tale {
        Tale::Plain => plain_script(alloc, random),
        Tale::Stops => ordered_script(alloc, random, tale, 1),
        Tale::Starts | Tale::Blanks | Tale::Cuts => ordered_script(alloc, random, tale, 4),
        Tale::Snaps => snap_script(alloc, random),
        Tale::Moves => moving_script(alloc, random, 0),
        Tale::MovesAndStarts => moving_script(alloc, random, 8),
        Tale::All => whole_script(alloc, random),
    }
}
