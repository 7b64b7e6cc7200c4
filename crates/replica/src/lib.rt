// The replica: creation, recovery, a frame, a tick, the takings. None asks anything of its caller; what document 01 refuses comes back under its number.
// The state goes in and comes out by value; all else lies in lent runs, whose lengths follow from the setup.
#![tactic(auto)]

pub mod create; // new, recover
pub mod call; // on_message, on_idle, takings
