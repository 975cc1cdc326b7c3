//! The law of the agreed log: over every legal history of a sound script there is one log of chosen commands, which only
//! grows. What a state device knows to be chosen stands in it at its place, what servers and clients have applied stands at
//! its front, and its commands are those of the script's requests, Leaves of servers that have stopped, Joins of those that booted, Caughts
//! of links of which nothing was left to copy, reports to fences, and Moveds of links of which nothing was left to move.
//!
//! To the layers above it promises this of each history. It takes a history for a schedule of agreement, whose law it does
//! not prove again, and knows nothing of what a command does.
#![tactic(auto)]

ghost use Rattle.std.specs.Prelude.{◌≡◌, ◌<◌, ◌≤◌, ◌⊎◌, ◌++◌, ◌∷◌, [], ℕ, Bool, List, slice_get, true, false};
ghost use Rattle.petal_command.specs.declared.command.Command.{Command};
ghost use Rattle.petal_command.specs.declared.command.Command.TheVariants.{Join, Leave, Caught, Drained, Moved};
ghost use Rattle.petal_msg.specs.declared.body.Body.TheVariants as body;
ghost use Rattle.petal_msg.specs.declared.letter.Letter.{Letter};
ghost use Rattle.spec_paxos.specs.Kept.{inc_of};
ghost use Rattle.spec_state.specs.Command.{may_join, state_after};
ghost use Rattle.spec_rules.specs.Agreement.{HasSchedule};
ghost use Rattle.spec_rules.specs.Lists.{In};
ghost use Rattle.spec_rules.specs.State.{is_in};
ghost use Rattle.spec_rules.specs.World.{chosen_log, chosen_state};
ghost use Rattle.spec_history.specs.Claims.{Agrees, Grows, IsPrefix};
ghost use Rattle.law_state.specs.Histories.{AreSteps, IsSound, Record, Script, setting_of, start, world_after};
ghost use Rattle.law_state.specs.Firm.{Firm};
ghost use Rattle.law_log.specs.ProposedCommands.{HasBegun, HasStopped, IsCalledFor, IsCaughtAt, IsReportAt, NoneBoots, WasDraining};
ghost use Rattle.law_log.specs.ProposedCommands.{WasMoving, WasReturning, WasStarted, WasWanted};

/// What a state device knows to be chosen stands in the chosen log at its place, and what is applied stands at its front.
pub fn every_history_agrees()
    ensures agrees { (script : Script) (records : List Record) → IsSound script → AreSteps script records
        → Agrees (setting_of script) (world_after (setting_of script) (start (setting_of script)) records) }
    ensures firm { (script : Script) (records : List Record) → IsSound script → AreSteps script records
        → Firm (setting_of script) (world_after (setting_of script) (start (setting_of script)) records) }
{}

/// The chosen log after the first records of a history is at the front of that after all of them.
pub fn the_chosen_log_grows()
    ensures { (script : Script) (records : List Record) → IsSound script → AreSteps script records → Grows script records }
{}

/// Each chosen command is that of a line that its client has called, a Witness of it, the Leave of an incarnation that has
/// stopped, the Join of one that has begun, a Caught, a report to a fence, or a Moved. A Caught acts after the entries before it, and its holder, where
/// it is still of that incarnation and has applied no more than those, has in mind that it started the ballot.
pub fn chosen_commands_are_the_scripts()
    ensures called { (script : Script) (records : List Record) (command : Command) → IsSound script
        → AreSteps script records → In command (chosen_log (setting_of script) (world_after (setting_of script) (start (setting_of script)) records))
        → IsCalledFor (setting_of script) (world_after (setting_of script) (start (setting_of script)) records) command
        ⊎ WasWanted (setting_of script) (world_after (setting_of script) (start (setting_of script)) records) command }
    ensures caught { (script : Script) (records : List Record) → IsSound script → AreSteps script records
        → (prefix : List Command) (of link holder inc other other_inc : ℕ) → IsPrefix (prefix ++ Caught of link holder inc other other_inc ∷ [])
        (chosen_log (setting_of script) (world_after (setting_of script) (start (setting_of script)) records))
        → IsCaughtAt script.servers (world_after (setting_of script) (start (setting_of script)) records).servers prefix of link holder inc other other_inc }
{}

/// The holder of a link whose Caught is chosen had it in mind, on the way, that it had started a ballot for it: as the incarnation that the
/// Caught names, and with no entries applied but those before it.
pub fn a_chosen_caught_was_started()
    ensures { (script : Script) (records : List Record) → IsSound script → AreSteps script records
        → (prefix : List Command) (of link holder inc other other_inc : ℕ) → IsPrefix (prefix ++ Caught of link holder inc other other_inc ∷ [])
        (chosen_log (setting_of script) (world_after (setting_of script) (start (setting_of script)) records))
        → WasStarted (setting_of script) records holder inc prefix (record { map = of; link = link }) }
{}

/// A report that is chosen counts: after the entries before it the active fence awaits the server. And on the way the server, with no entries
/// applied but those, had no client's write under way that the fence held.
pub fn a_chosen_report_was_made()
    ensures counts { (script : Script) (records : List Record)
        → IsSound script → AreSteps script records → (prefix : List Command) (server inc fence : ℕ) → IsPrefix
        (prefix ++ Drained server inc fence ∷ []) (chosen_log (setting_of script) (world_after (setting_of script) (start (setting_of script)) records))
        → IsReportAt script.servers prefix server inc fence }
    ensures made { (script : Script) (records : List Record)
        → IsSound script → AreSteps script records → (prefix : List Command) (server inc fence : ℕ) → IsPrefix
        (prefix ++ Drained server inc fence ∷ []) (chosen_log (setting_of script) (world_after (setting_of script) (start (setting_of script)) records))
        → WasDraining (setting_of script) records server inc prefix }
{}

/// A Moved that is chosen was wanted: after the entries before it some server was to move the region of the link. And on the way that server,
/// with no entries applied but those, had nothing left of the link's blocks of the region.
pub fn a_chosen_moved_was_wanted()
    ensures { (script : Script) (records : List Record) → IsSound script → AreSteps script records → (prefix : List Command) (of region link : ℕ)
        → IsPrefix (prefix ++ Moved of region link ∷ []) (chosen_log (setting_of script) (world_after (setting_of script) (start (setting_of script)) records))
        → WasMoving (setting_of script) records prefix of region link }
{}

/// A server whose Join is chosen ran on the way as the incarnation that the Join names, and its store waited to be filled or not, as the Join
/// says. And each Join that is chosen acts: after the entries before it its server is Out, and was In as earlier incarnations alone.
pub fn a_chosen_join_was_wanted()
    ensures wanted { (script : Script) (records : List Record) → IsSound script → AreSteps script records → (server inc : ℕ) (blank : Bool)
        → In (Join server inc blank) (chosen_log (setting_of script) (world_after (setting_of script) (start (setting_of script)) records))
        → WasReturning (setting_of script) records server inc blank }
    ensures acts { (script : Script) (records : List Record) → IsSound script → AreSteps script records
        → (prefix : List Command) (server inc : ℕ) (blank : Bool)
        → IsPrefix (prefix ++ Join server inc blank ∷ []) (chosen_log (setting_of script) (world_after (setting_of script) (start (setting_of script)) records))
        → may_join (slice_get (state_after script.servers prefix).view.members server) inc ≡ true }
{}

/// An incarnation that was In by a prefix of the chosen log, and is not by all of it, has stopped: so a server that runs, and was In as
/// itself, still is. Whoever is In is so with an incarnation that has begun. An incarnation whose Leave is chosen, or of which a
/// Down tells, has stopped. Incarnations count from 1, stay so where no server boots, and a server's is the one on its state device.
pub fn what_is_out_has_stopped()
    ensures stopped { (script : Script) (records : List Record) (n inc : ℕ) (prefix : List Command) → IsSound script
        → AreSteps script records → IsPrefix prefix (chosen_log (setting_of script) (world_after (setting_of script) (start (setting_of script)) records))
        → is_in (state_after script.servers prefix) n inc ≡ true
        → is_in (chosen_state (setting_of script) (world_after (setting_of script) (start (setting_of script)) records)) n inc ≡ false
        → HasStopped (world_after (setting_of script) (start (setting_of script)) records) n inc }
    ensures runs { (script : Script) (records : List Record) (n : ℕ) (prefix : List Command) → IsSound script
        → AreSteps script records → ((world_after (setting_of script) (start (setting_of script)) records).servers n).life.running ≡ true
        → IsPrefix prefix (chosen_log (setting_of script) (world_after (setting_of script) (start (setting_of script)) records))
        → is_in (state_after script.servers prefix) n ((world_after (setting_of script) (start (setting_of script)) records).servers n).life.inc ≡ true
        → is_in (chosen_state (setting_of script) (world_after (setting_of script) (start (setting_of script)) records)) n
        ((world_after (setting_of script) (start (setting_of script)) records).servers n).life.inc ≡ true }
    ensures one { (script : Script) (records : List Record) (n : ℕ) → IsSound script → AreSteps script records
        → ((world_after (setting_of script) (start (setting_of script)) records).servers n).life.running ≡ true → n < script.servers }
    ensures begun { (script : Script) (records : List Record) (n inc : ℕ) → IsSound script → AreSteps script records
        → is_in (chosen_state (setting_of script) (world_after (setting_of script) (start (setting_of script)) records)) n inc ≡ true
        → HasBegun (world_after (setting_of script) (start (setting_of script)) records) n inc }
    ensures leaves { (script : Script) (records : List Record) (server inc : ℕ) → IsSound script → AreSteps script records
        → In (Leave server inc) (chosen_log (setting_of script) (world_after (setting_of script) (start (setting_of script)) records))
        → HasStopped (world_after (setting_of script) (start (setting_of script)) records) server inc }
    ensures downs { (script : Script) (records : List Record) (letter : Letter) (server inc : ℕ) → IsSound script → AreSteps script records
        → In letter (world_after (setting_of script) (start (setting_of script)) records).sent → letter.body ≡ body.Down server inc
        → HasStopped (world_after (setting_of script) (start (setting_of script)) records) server inc }
    ensures first { (script : Script) (records : List Record) (n : ℕ) → IsSound script → AreSteps script records
        → 1 ≤ ((world_after (setting_of script) (start (setting_of script)) records).servers n).life.inc }
    ensures unbooted { (script : Script) (records : List Record) (n : ℕ) → NoneBoots records
        → ((world_after (setting_of script) (start (setting_of script)) records).servers n).life.inc ≡ 1 }
    ensures kept { (script : Script) (records : List Record) (n : ℕ)
        → IsSound script → AreSteps script records → inc_of ((world_after (setting_of script) (start (setting_of script)) records).servers n).log.records
        ≡ ((world_after (setting_of script) (start (setting_of script)) records).servers n).life.inc }
{}

/// The state devices, proposers and letters of a history are those of a schedule of agreement.
pub fn every_history_has_a_schedule()
    ensures { (script : Script) (records : List Record) → IsSound script → AreSteps script records
        → HasSchedule script.servers (world_after (setting_of script) (start (setting_of script)) records) }
{}
