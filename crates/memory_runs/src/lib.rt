//! Runs over servers with disks in memory.
//!
//! To the layer above it promises no more than safety. It knows nothing of the order of steps.
#![tactic(auto)]

mod parts;

ghost use Rattle.std.specs.Prelude.{◌≡◌, All, map};
ghost use Rattle.memory_server.specs.Server.{site_of};
ghost use Rattle.memory_server.specs.Armed.{armed_of};
ghost use Rattle.spec_rules.specs.Plans.{unarmed};
ghost use Rattle.petal_world.specs.Desks.{first_sites};

use memory_server::{MemServer, members};
use oracle_events::Stores;
pub use parts::{Parts, play_parts};
use petal_base::{Cell, NoMemory, Sequence, ServerId, SharedBlock};
use petal_script::{Script, read_script};
use petal_world::{Record, World, are_in_order};
use random_runs::{Count, Habit, Random, Tale, script_by, simulate};
use std::alloc::Global;
use std::test::Fail;
use step_runner::{Case, FirstHosts, Run, play_case};
use world_probe::{Copy, held};

/// Servers with disks in memory.
pub struct Memory;

impl FirstHosts<MemServer> for Memory {
    fn first(
        &self,
        alloc: Global,
        script: &Script,
        server: ServerId,
    ) -> Result<MemServer, NoMemory> {
        match MemServer::start(alloc, server, script.servers, script.slots) {
            Ok(first) => Ok(first),
            Err(_) => Err(NoMemory),
        }
    }
}

impl Stores for Memory {
    fn held(
        &self,
        alloc: Global,
        script: &Script,
        server: ServerId,
        records: &[Record],
        cell: Cell,
    ) -> Result<Option<SharedBlock>, NoMemory> {
        let host = self.first(alloc, script, server)?;
        let mut copy = Copy::new(alloc, host, server, script.servers, records)?;
        held(alloc, &mut copy, cell)
    }
}

/// The world of these servers that begins.
fn world_of(
    alloc: Global,
    script: Script,
    hosts: Sequence<MemServer>,
) -> Result<World<MemServer>, Fail>
    requires sites { map site_of hosts ≡ first_sites script }
    requires plans { All (λ host. armed_of host ≡ unarmed) hosts }
{
    if !are_in_order(script.lines.as_slice()) {
        return Err(Fail::new("the lines are in no order"));
    }
    Ok(World::start(alloc, script, hosts)?)
}

/// The run of a script's text that begins.
pub fn start(alloc: Global, text: &str) -> Result<Run<MemServer>, Fail> {
    let script = read_script(alloc, text.as_bytes())?;
    let hosts = members(alloc, &script)?;
    Ok(Run::new(alloc, world_of(alloc, script, hosts)?))
}

/// Plays a case.
pub fn play(alloc: Global, case: &Case) -> Result<(), Fail> {
    play_case(alloc, &Memory, case, start(alloc, case.script)?)
}

/// Plays these cases, one after the other.
pub fn play_all(alloc: Global, cases: &[Case]) -> Result<(), Fail> {
    for case in cases {
        play(alloc, case)?;
    }
    Ok(())
}

/// Plays a case that has these parts.
pub fn play_steps(alloc: Global, shows: &str, script: &str, steps: &str) -> Result<(), Fail> {
    let case = Case {
        shows,
        script,
        steps,
    };
    play(alloc, &case)
}

/// Worlds are stepped by chance from so many seeds, counted from 1.
pub const SEEDS: u32 = 20;

fn simulate_seed(alloc: Global, tale: Tale, habit: Habit, seed: u32) -> Result<Count, Fail> {
    let mut random = Random::new(seed);
    let text = script_by(alloc, &mut random, tale)?;
    let run = start(alloc, text.as_str())?;
    simulate(alloc, &Memory, seed, habit, random, run)
}

/// Steps by chance, from each seed, a world whose script tells such a tale. Gives what was counted in all of them.
pub fn simulate_all(alloc: Global, tale: Tale, habit: Habit) -> Result<Count, Fail> {
    simulate_some(alloc, tale, habit, 1, SEEDS)
}

/// The same from these seeds alone.
pub fn simulate_some(
    alloc: Global,
    tale: Tale,
    habit: Habit,
    first: u32,
    last: u32,
) -> Result<Count, Fail> {
    let mut all = Count::new();
    for seed in first..=last {
        all = all.and(simulate_seed(alloc, tale, habit, seed)?);
    }
    Ok(all)
}
