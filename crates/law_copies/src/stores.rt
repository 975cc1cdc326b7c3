//! The law of stores that were blanked: over every legal history of a sound script, a store that waits to be filled by others is empty, and
//! the store that counts of a server that is In as itself is its own.
//!
//! To the laws above it promises when the store from before a blank counts, and that what counts is empty once the server's Join with an
//! empty store is chosen. It knows nothing of what two copies have in common.

ghost use Rattle.std.specs.Prelude.{◌≡◌, ◌≢◌, ◌++◌, ℕ, List, [], ◌∷◌, Some, true, false};
ghost use Rattle.petal_command.specs.declared.command.Command.{Command};
ghost use Rattle.spec_state.specs.Command.{state_after};
ghost use Rattle.spec_rules.specs.Blanked.{BeforeBlank};
ghost use Rattle.spec_rules.specs.State.{is_in};
ghost use Rattle.spec_rules.specs.World.{blank_joins_in};
ghost use Rattle.law_state.specs.Histories.{AreSteps, IsPrefix, IsSound, Record, Script, chosen_log, server_state, setting_of, start, world_after};
ghost use Rattle.law_copies.specs.WaitingStores.{AreEmpty, IsEmpty, IsOwn};

/// A store that waits to be filled has neither entries nor marks.
pub fn a_store_that_waits_is_empty()
    ensures { (script : Script) (records : List Record) → IsSound script → AreSteps script records
        → AreEmpty (world_after (setting_of script) (start (setting_of script)) records) }
{}

/// The store of a server that runs, and is In as itself by its own state, waits for nobody, and is the one that counts. And once a server is
/// In as itself by a prefix of what is chosen, none of its Joins with an empty store is chosen after that.
pub fn who_is_in_has_the_store_that_counts()
    ensures filled { (script : Script) (records : List Record) (n : ℕ) → IsSound script → AreSteps script records
        → ((world_after (setting_of script) (start (setting_of script)) records).servers n).life.running ≡ true
        → is_in (server_state (setting_of script) (world_after (setting_of script) (start (setting_of script)) records) n) n
        ((world_after (setting_of script) (start (setting_of script)) records).servers n).life.inc ≡ true
        → ((world_after (setting_of script) (start (setting_of script)) records).servers n).own.store.fresh ≡ false }
    ensures own { (script : Script) (records : List Record) (n : ℕ)
        → IsSound script → AreSteps script records → ((world_after (setting_of script) (start (setting_of script)) records).servers n).life.running ≡ true
        → is_in (server_state (setting_of script) (world_after (setting_of script) (start (setting_of script)) records) n) n
        ((world_after (setting_of script) (start (setting_of script)) records).servers n).life.inc ≡ true
        → IsOwn (setting_of script) (world_after (setting_of script) (start (setting_of script)) records) n }
    ensures counts { (script : Script) (records : List Record) (n : ℕ) (prefix : List Command) → IsSound script
        → AreSteps script records → IsPrefix prefix (chosen_log (setting_of script) (world_after (setting_of script) (start (setting_of script)) records))
        → is_in (state_after script.servers prefix) n ((world_after (setting_of script) (start (setting_of script)) records).servers n).life.inc ≡ true
        → blank_joins_in (setting_of script) prefix n ≡ blank_joins_in (setting_of script)
        (chosen_log (setting_of script) (world_after (setting_of script) (start (setting_of script)) records)) n }
{}

/// Where a step makes a Join with an empty store count, the server's store is empty after it, and is the one that counts.
pub fn a_blank_join_finds_an_empty_store()
    ensures empty { (script : Script) (prefix : List Record) (own : Record) (n : ℕ) → IsSound script → AreSteps script (prefix ++ own ∷ []) → blank_joins_in
        (setting_of script) (chosen_log (setting_of script) (world_after (setting_of script) (start (setting_of script)) prefix)) n ≢ blank_joins_in
        (setting_of script) (chosen_log (setting_of script) (world_after (setting_of script) (start (setting_of script)) (prefix ++ own ∷ []))) n
        → IsEmpty ((world_after (setting_of script) (start (setting_of script)) (prefix ++ own ∷ [])).servers n).own.store }
    ensures own { (script : Script) (prefix : List Record) (own : Record) (n : ℕ) → IsSound script → AreSteps script (prefix ++ own ∷ []) → blank_joins_in
        (setting_of script) (chosen_log (setting_of script) (world_after (setting_of script) (start (setting_of script)) prefix)) n ≢ blank_joins_in
        (setting_of script) (chosen_log (setting_of script) (world_after (setting_of script) (start (setting_of script)) (prefix ++ own ∷ []))) n
        → IsOwn (setting_of script) (world_after (setting_of script) (start (setting_of script)) (prefix ++ own ∷ [])) n }
{}

/// While the store from before a blank counts, the server's own store waits to be filled.
pub fn what_was_blanked_waits()
    ensures { (script : Script) (records : List Record) (n : ℕ) (before : BeforeBlank) → IsSound script
        → AreSteps script records → (world_after (setting_of script) (start (setting_of script)) records).before_blank n ≡ Some before → before.joins
        ≡ blank_joins_in (setting_of script) (chosen_log (setting_of script) (world_after (setting_of script) (start (setting_of script)) records)) n
        → ((world_after (setting_of script) (start (setting_of script)) records).servers n).own.store.fresh ≡ true }
{}
