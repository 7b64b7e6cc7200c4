// The outside calls but for the client table, which may have any form: refusals 1 to 6, whose entry a message carries, what the table has to follow, creation, the takings.
#![tactic(auto)]

pub mod sound; // refusal 1
pub mod call; // a frame, and what it asks of the client table
pub mod create; // new, recover
pub mod takings; // the sum over all members

// The lengths of the lent state buffers, the table's in bytes.
#[derive(Clone, Copy)]
pub struct Lengths {
    pub log: usize,
    pub results: usize,
    pub totals: usize,
    pub acks: usize,
    pub stored: usize,
    pub table: usize,
}
