// One message, one tick: on_message's match and on_idle, on all lent runs but the client table.
#![tactic(auto)]

pub mod message; // on_message
pub mod idle; // on_idle
