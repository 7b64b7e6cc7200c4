// DoViewChanges and RecoveryResponses: the rows in which the state holds them, and a quorum of them judged before anything is stored.
#![tactic(auto)]

use numbers::Op;
use state::Report;

pub mod rows; // the rows: one set, counted, chosen among, refusal 1 on them
pub mod judge; // whether a view begins, or a recovery ends, and with which log
pub mod store; // a log kept at its place, or installed

// A report, and whose it is.
#[derive(Clone, Copy)]
pub struct Best {
    pub id: u8,
    pub report: Report,
}

// What a report that just came in leads to: more are waited for; refusal 7; or the log of `best` is installed and committed up to `commit`.
#[derive(Clone, Copy)]
pub enum Judged {
    Wait,
    Refuse,
    Begin { best: Best, commit: Op },
}
