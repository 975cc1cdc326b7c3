//! Histories that are worked by hand: what the rules say of runs in which servers stop and return. The crate has no code of its own.
#![tactic(auto)]

mod blanks;
mod boots;
mod copies;
mod faults;
mod returns;
mod settles;
mod snapshots;
mod stops;
mod takeover;

pub use blanks::{
    a_blank_server_is_filled, a_blank_server_joins, a_line_blanks_a_server,
    a_lost_link_is_unavailable,
};
pub use boots::{
    a_boot_fails, a_line_starts_a_server, a_server_joins_again,
    a_start_of_a_running_server_does_nothing,
};
pub use copies::{
    a_block_is_copied, a_late_entry_is_dropped, a_link_is_both_again, a_write_waits_for_a_caught,
};
pub use faults::{
    a_device_fails_after_a_put, a_device_fails_before_a_put, a_lead_with_all_its_marks_stops,
};
pub use returns::{a_primary_boots_before_its_leave, a_returning_primary_drops_its_put};
pub use settles::{a_copy_finds_no_slot, a_settle_goes_round_by_round};
pub use snapshots::{
    a_fence_awaits_reports, a_fence_holds_until_it_takes_effect, a_fence_holds_writes,
    a_snapshot_keeps_its_block,
};
pub use stops::{a_line_stops_a_server, a_stop_of_a_stopped_server_does_nothing};
pub use takeover::{a_lead_goes_on_alone, a_leave_is_chosen, a_secondary_stops_in_a_write};
