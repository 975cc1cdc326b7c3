//! A script that is played phase by phase.

ghost use Rattle.std.specs.Prelude.{◌≡◌, ◌+◌, ◌≤◌, ◌<◌, [], true, false, length, take, drop, IfOk, OnErr, IfSome, IfNone};
ghost use Rattle.plain_schedule.specs.Going.{WentOn};
ghost use Rattle.std.specs.Map.{keys_of};
ghost use Rattle.spec_history.specs.Legal.{IsLegal};
ghost use Rattle.spec_history.specs.Order.{AreRising, IsRecordPrefix, JoinsAnswers, all_answered};
ghost use Rattle.spec_history.specs.Sound.{IsSound};
ghost use Rattle.spec_history.specs.Text.{answers_of};
ghost use Rattle.server_host.specs.Playable.{AreOrdered};
ghost use Rattle.plain_schedule.specs.Phases.{Ends, GoesByPhases, records_of};
ghost use Rattle.plain_schedule.specs.Places.{numbers, phase_run, progress_of, KeepsPlaces, PlaysOn};

use crate::answers::Answers;
use crate::rounds::Rounds;
use memory_server::{MemServer, members};
use petal_base::NoMemory;
use petal_world::GaveUp;
use script_lines::{Line, Script};
use spec_history::History;
use std::alloc::Global;
use std::marker::Model;
use std::sync::Wait;

/// A script in play. Contracts see the script, how many of its phases have ended, their records, and the records since.
#[derive(Drop)]
pub struct Playing {
    rounds: Rounds<MemServer>,
    // How many records are of ended phases, and how many lines these answer.
    told: usize,
    place: usize,
    // How many phases have ended. The next one has this number; it has room for one more than any line's.
    phase: u64,
    // Why it was given up, so that no step follows.
    gave_up: Option<GaveUp>,
}

impl Model for Playing {
    ghost use Rattle.std.specs.Prelude.{◌≡◌, false};
    ghost use Rattle.plain_schedule.specs.Phases.{Progress};
    ghost use Rattle.plain_schedule.specs.Places.{progress_of, KeepsPlaces};

    ghost Value = { Progress };

    ghost view = { λ p. progress_of p.rounds.world.script p.rounds.world.records p.told p.phase };

    ghost invariant = { λ p. KeepsPlaces p.rounds.world.script p.rounds.world.records p.told p.place p.phase × (p.rounds.world.free ≡ false) };
}

/// How many of the first of these lines are of the phase.
fn lines_of_phase(lines: &[Line], phase: u64) -> usize
    ensures within { result ≤ length lines.now }
    ensures run { result ≡ phase_run phase lines.now }
{
    let mut count = 0;
    for line in lines {
        if u64::from(line.phase) != phase {
            break;
        }
        count += 1;
    }
    count
}

/// A phase's number, where there is room for one more.
fn number_of(phase: u32) -> u64
    ensures value { result ≡ phase }
    ensures small { result < 4294967296 }
{
    u64::from(phase)
}

/// The answers of the records from this place on, where they are exactly those of the next lines.
fn phase_answers(
    alloc: Global,
    rounds: &Rounds<MemServer>,
    told: usize,
    place: usize,
    count: usize,
) -> Result<Option<Answers>, NoMemory>
    requires told { told ≤ length rounds.now.world.records }
    requires lines { place + count ≤ length rounds.now.world.script.lines }
    ensures answers { IfOk result (λ o. IfSome o (λ answers. answers ≡ answers_of (drop told rounds.now.world.records))) }
    ensures exactly { IfOk result (λ o. IfSome o (λ answers. keys_of answers ≡ numbers (take count (drop place rounds.now.world.script.lines)))) }
{
    let answers = Answers::of_records(alloc, &rounds.world.records()[told..])?;
    let lines = &rounds.world.script().lines.as_slice()[place..place + count];
    if answers.are_of(lines) {
        Ok(Some(answers))
    } else {
        Ok(None)
    }
}

/// Goes through rounds until exactly the next lines are answered.
fn play_lines<R: Wait>(
    rt: &R,
    alloc: Global,
    rounds: &mut Rounds<MemServer>,
    told: usize,
    place: usize,
    count: usize,
) -> Result<Answers, GaveUp>
    requires told { told ≤ length rounds.old.world.records }
    requires lines { place + count ≤ length rounds.old.world.script.lines }
    ensures went_on { WentOn rounds.old.world rounds.new.world }
    ensures answers { IfOk result (λ answers. answers ≡ answers_of (drop told rounds.new.world.records)) }
    ensures exactly { IfOk result (λ answers. keys_of answers ≡ numbers (take count (drop place rounds.old.world.script.lines))) }
{
    let mut found = Answers::new(alloc);
    for _ in rt.forever() {
        if rounds.is_through() {
            if let Some(answers) = phase_answers(alloc, rounds, told, place, count)? {
                found = answers;
                break;
            }
        }
        rounds.round(rt, alloc)?;
    }
    Ok(found)
}

/// A phase begins, and is played until exactly its lines are answered, the next so many.
fn play_phase_lines<R: Wait>(
    rt: &R,
    alloc: Global,
    rounds: &mut Rounds<MemServer>,
    phase: u32,
    told: usize,
    place: usize,
    count: usize,
) -> Result<Answers, GaveUp>
    requires told { told ≤ length rounds.old.world.records }
    requires lines { place + count ≤ length rounds.old.world.script.lines }
    ensures went_on { WentOn rounds.old.world rounds.new.world }
    ensures answers { IfOk result (λ answers. answers ≡ answers_of (drop told rounds.new.world.records)) }
    ensures exactly { IfOk result (λ answers. keys_of answers ≡ numbers (take count (drop place rounds.old.world.script.lines))) }
{
    rounds.begin(phase, count)?;
    play_lines(rt, alloc, rounds, told, place, count)
}

impl Playing {
    /// The play of a script, before its first step.
    pub fn start(alloc: Global, script: Script) -> Result<Playing, GaveUp>
        requires sound { IsSound script }
        requires ordered { AreOrdered script.lines }
        requires rising { AreRising script.lines }
        requires joins { JoinsAnswers script }
        ensures start { IfOk result (λ playing. playing ≡ record { script = script; phases = 0; ended = []; since = [] }) }
        ensures by_phases { IfOk result (λ playing. GoesByPhases playing) }
    {
        let members = members(alloc, &script)?;
        Ok(Playing {
            rounds: Rounds::new(alloc, script, members)?,
            told: 0,
            place: 0,
            phase: 0,
            gave_up: None,
        })
    }

    // The phase of the first line that has no answer.
    fn next_phase(&self) -> Option<u64>
        ensures some { IfSome result (λ phase. (self.now.phases ≤ phase) × (phase < 4294967296)) }
        ensures none { IfNone result (all_answered (answers_of self.now.ended) self.now.script.lines ≡ true) }
    {
        match self.rounds.world.script().lines.as_slice().get(self.place) {
            Some(line) => Some(number_of(line.phase)),
            None => None,
        }
    }

    // Whether no phase is left, and no line.
    fn is_over(&self) -> bool
        ensures over { result ≡ true → all_answered (answers_of self.now.ended) self.now.script.lines ≡ true }
        ensures next { result ≡ false → self.now.phases < 4294967296 }
    {
        if self.phase < u64::from(self.rounds.world.script().phases) {
            return false;
        }
        match self.next_phase() {
            Some(_) => false,
            None => true,
        }
    }

    // The next phase is played.
    fn play_next<R: Wait>(&mut self, rt: &R, alloc: Global) -> Result<Answers, GaveUp>
        requires next { self.old.phases < 4294967296 }
        ensures plays_on { PlaysOn self.old self.new }
        ensures ends { IfOk result (λ answers. Ends self.old self.new answers) }
        ensures gave_up { OnErr result (self.new.ended ≡ self.old.ended) }
    {
        let lines = self.rounds.world.script().lines.as_slice();
        let count = lines_of_phase(&lines[self.place..], self.phase);
        let played = play_phase_lines(
            rt,
            alloc,
            &mut self.rounds,
            self.phase as u32,
            self.told,
            self.place,
            count,
        );
        let told = self.rounds.world.records().len();
        match played {
            Ok(answers) => {
                self.told = told;
                self.place += count;
                self.phase += 1;
                Ok(answers)
            }
            Err(cause) => Err(cause),
        }
    }

    /// Plays the next phase until each of its lines is answered, and gives the answers of the records since the phase before.
    /// None comes where no phase is left and each line is answered. It waits for as long as that takes, and nothing promises
    /// that it returns; its clauses say what holds where it does. A phase ends with the round in which its last line is
    /// answered. Once it is given up no step follows, and why is told again.
    pub fn play_phase<R: Wait>(&mut self, rt: &R, alloc: Global) -> Result<Option<Answers>, GaveUp>
        // At each end.
        ensures script { self.new.script ≡ self.old.script }
        ensures by_phases { GoesByPhases self.new }
        ensures grows { IsRecordPrefix (records_of self.old) (records_of self.new) }

        // What the end is.
        ensures ends { IfOk result (λ phase. IfSome phase (λ answers. Ends self.old self.new answers)) }
        ensures over { IfOk result (λ phase. IfNone phase (self.new ≡ self.old)) }
        ensures whole { IfOk result (λ phase. IfNone phase (all_answered (answers_of self.old.ended) self.old.script.lines ≡ true)) }
        ensures gave_up { OnErr result (self.new.ended ≡ self.old.ended) }
    {
        if let Some(cause) = self.gave_up {
            return Err(cause);
        }
        if self.is_over() {
            return Ok(None);
        }
        match self.play_next(rt, alloc) {
            Ok(answers) => Ok(Some(answers)),
            Err(cause) => {
                self.gave_up = Some(cause);
                Err(cause)
            }
        }
    }

    /// The script.
    pub fn script(&self) -> &Script
        ensures { result.now ≡ self.now.script }
    {
        self.rounds.world.script()
    }

    /// The answers of all records so far.
    pub fn answers(&self, alloc: Global) -> Result<Answers, NoMemory>
        ensures { IfOk result (λ answers. answers ≡ answers_of (records_of self.now)) }
    {
        Answers::of_records(alloc, self.rounds.world.records())
    }

    /// Why it was given up, where it was.
    pub fn gave_up(&self) -> Option<GaveUp> {
        self.gave_up
    }

    /// The history of all steps.
    pub fn into_history(self) -> History
        ensures value { result ≡ record { records = records_of self } }
        ensures legal { IsLegal self.script (records_of self) }
    {
        self.rounds.world.into_history()
    }
}
