//! The rule of reports: what a server that has reported to a fence may have pending.

ghost use Rattle.std.specs.Prelude.{List};
ghost use Rattle.spec_history.specs.Claims.{ReportsHold};
ghost use Rattle.law_state.specs.Histories.{AreSteps, IsSound, Record, Script, setting_of, start, world_after};
ghost use Rattle.law_requests.specs.Reports.{WritesNothingHeld};

/// After every legal history of a sound script, a running server whose report to a fence is chosen has no client's write pending
/// on a cell whose writes were held from the report's place up to the server's own: so also until it has applied the entry at
/// which the fence takes effect.
pub fn a_server_that_reported_writes_nothing()
    ensures { (script : Script) (records : List Record) → IsSound script → AreSteps script records
        → WritesNothingHeld (setting_of script) (world_after (setting_of script) (start (setting_of script)) records) }
{}

/// And from where a server wanted its report to the active fence chosen, for which alone it starts a ballot, whether the report is chosen or
/// not: no client's write is pending there on a cell whose writes were held ever since.
pub fn a_server_that_wants_to_report_writes_nothing()
    ensures { (script : Script) (records : List Record) → IsSound script → AreSteps script records → ReportsHold script records }
{}
