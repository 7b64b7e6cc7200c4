// Votes for a view: on_start_view_change, and the ticks that start a view change or repeat its messages.
#![tactic(auto)]

pub mod votes; // on_start_view_change, maybe_send_do_view_change
pub mod tick; // on_idle where the wait is over, and in ViewChange
