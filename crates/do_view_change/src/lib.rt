// DoViewChange: sent, kept, and with a quorum of them the view begins.
#![tactic(auto)]

use frames::Refusal;
use numbers::Op;
use reports::Best;

pub mod begin; // a view begins with the log that was installed
pub mod record; // record_do_view_change, send_do_view_change, on_do_view_change

// What a report leads to: it is kept; a refusal; or the view begins with the log of `best`, committed up to `commit`.
#[derive(Clone, Copy)]
pub enum Decision {
    Keep,
    No { refusal: Refusal },
    Start { best: Best, commit: Op },
}
