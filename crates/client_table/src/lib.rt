// The client table as a list of rows, whichever way the rows are held: what a call changes, and the steps of the search by halves.
#![tactic(auto)]

ghost use Rattle.std.specs.Prelude.{◌≡◌, ◌-◌, ◌≤◌, ◌<◌};
ghost use Rattle.client_table.specs.Latest.{held_of, is_new};
ghost use Rattle.client_table.specs.Search.{mid_of, halved, is_before};

use fees::Outcome;
use numbers::Op;

mod form; // what is asked of a form in which the table is held
mod rows; // rows put, and the table brought up to what a call did
mod search; // the search by halves

pub use form::Form;
pub use rows::{follow, follow_append, follow_commit, follow_found, rebuild};
pub use search::{find, told};

// What a search finds of a client: the place of its row, and the row; or the place where its row would go, and the row that stands there, past the
// end an unused one.
pub type Found<R> = Result<(usize, R), (usize, R)>;

// Where a search has come to: the place is from `lo` up to `hi`.
#[derive(Clone, Copy)]
pub struct Span {
    pub lo: usize,
    pub hi: usize,
}

// What is sought: the place of a client's row, or the first unused row.
// Kept: an Option<u64> would call the first unused row None.
#[derive(Clone, Copy)]
pub enum Goal {
    Client { id: u64 },
    End,
}

// What the client table holds of a client's latest request.
#[derive(Clone, Copy)]
pub enum Latest {
    Nothing, // the client has no row
    Waiting { request: u64 }, // it has no reply yet
    Answered { request: u64, reply: Outcome }, // its reply is kept
}

// What a call did to a log that had `op` entries, `commit` of them committed: it was installed anew, or appended to, and has `to` entries now,
// `done` of them committed.
#[derive(Clone, Copy)]
pub struct Change {
    pub installed: bool,
    pub op: Op,
    pub commit: Op,
    pub to: Op,
    pub done: Op,
}

// The middle of a span.
pub fn middle(s: Span) -> usize
    requires { s.lo < s.hi }
    ensures { (result ≡ mid_of s) × ((s.lo ≤ result) × (result < s.hi)) }
{
    s.lo + (s.hi - s.lo) / 2
}

// The half of the span that is left: above its middle, or below.
pub fn halve(s: Span, up: bool) -> Span
    requires { s.lo < s.hi }
    ensures { result ≡ halved s up }
{
    let m = middle(s);
    if up {
        return Span {
            lo: m + 1,
            hi: s.hi,
        };
    }
    Span { lo: s.lo, hi: m }
}

// Whether a row, in use or not, of this client stands before what is sought.
pub fn before(used: bool, client: u64, goal: Goal) -> bool
    ensures { result ≡ is_before used client goal }
{
    if !used {
        return false;
    }
    match goal {
        Goal::Client { id } => client < id,
        Goal::End => true,
    }
}

// What a row in use holds, of this request number and with this outcome and total: an outcome outside 1 to 6 is no reply.
// Kept: a number, no enum: C may lend any byte.
pub fn held(request: u64, code: u8, total: u64) -> Latest
    ensures { result ≡ held_of request code total }
{
    if !numbers::within(1, 6, code as u64) {
        return Latest::Waiting { request };
    }
    Latest::Answered {
        request,
        reply: Outcome { code, total },
    }
}

// Whether a number is a new one of a client: above that of its latest request, or any where it has no row.
pub fn is_new(latest: Latest, number: u64) -> bool
    ensures { result ≡ is_new latest number }
{
    match latest {
        Latest::Nothing => true,
        Latest::Waiting { request } => request < number,
        Latest::Answered { request, .. } => request < number,
    }
}
