// Normal operation: what a replica does with a Request, a Prepare, a PrepareOk and a Commit, and a Normal primary's tick.
#![tactic(auto)]

pub mod commit;
pub mod prepare;
pub mod prepare_ok;
pub mod request;
pub mod tick;
