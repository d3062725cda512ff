//! What holds of every run of a channel, for every sound schema. No end waits for ever (docs/nesting.md). The
//! reading
//! of the lines is the world, and every legal history can be read and obeys the five laws (docs/laws.md). One
//! end keeps
//! its share of this with its own lines, whatever it receives. No function of this crate computes anything.
#![tactic(auto)]

mod actor_laws;
mod bound_laws;
mod exchange_laws;
mod history_laws;
mod laws;
mod print_laws;
mod quiet_laws;
mod reading_laws;
mod two_end_laws;

pub use actor_laws::{ends_obey_fallen, histories_obey_fallen};
pub use bound_laws::histories_are_bounded;
pub use exchange_laws::{ends_read_exchanges, ends_settle, ends_take_once, histories_obey_settled};
pub use history_laws::{histories_obey_all_laws, histories_obey_prefix, histories_obey_waits};
pub use laws::{
    ends_are_recorded_in_runs, last_packets_fail_all_waits, nested_worlds_stay,
    nesting_in_every_run, replies_find_their_waits, sound_schemas_have_sound_rows,
    still_ends_wait_for_nothing, still_histories_leave_no_end_waiting, sync_replies_are_not_stray,
    waits_give_way,
};
pub use print_laws::lines_name_what_is_printed;
pub use quiet_laws::quiet_worlds_are_still;
pub use reading_laws::{histories_are_readable, reading_is_world};
pub use two_end_laws::{
    histories_obey_living, honest_packets_are_accepted, protocols_in_every_run,
    requests_come_in_order, types_tell_who_lives, values_are_read_alike, worlds_fit_in_runs,
};
