// The replica's state by value, and one small function for each change of it.
#![tactic(auto)]

ghost use Rattle.std.specs.Prelude.{◌≡◌, ◌<◌};
ghost use Rattle.state.specs.State.{leads, heard_by, with_clock, with_status, with_log, with_commit, moved, normal_in, catching_up_in, changing_to, with_start, with_sent, with_reports, new_in};
ghost use Rattle.state.specs.Statuses.{is_normal, is_transfer, is_changing, no_reports};
ghost use Rattle.state.specs.Answers.{refusal, completed, code_of, messages_written, replies_written, installed_of, offset_of_answer};

use clock::Clock;
use config::Setup;
use frames::{Refusal, Status};
use numbers::{Op, View};

// What is held of a replica: its DoViewChange, or in Recovering its RecoveryResponse. `view` is the last normal view of the one, the view of
// the other; `full`: it carries a log, which lies in the lent run of stored logs.
#[derive(Clone, Copy)]
pub struct Report {
    pub there: bool,
    pub full: bool,
    pub view: View,
    pub op: Op,
    pub commit: Op,
}

// One for each replica id; those from n on are all zero, or refusal 1.
#[derive(Clone, Copy)]
pub struct Reports {
    pub rows: [Report; 7],
}

// The Rust's `struct Replica`, less what lies in lent runs. `normal`: the last view in which it was Normal; `catching`: catching up; `takings`: all members' totals added up, kept beside them; `starts`: who
// asked for this view, one bit for each replica; `sent`: our DoViewChange went out.
#[derive(Clone, Copy)]
pub struct Replica {
    pub setup: Setup,
    pub status: Status,
    pub view: View,
    pub normal: View,
    pub catching: bool,
    pub op: Op,
    pub commit: Op,
    pub takings: u64,
    pub clock: Clock,
    pub starts: u8,
    pub sent: bool,
    pub nonce: u64,
    pub reports: Reports,
}

// What a call did that wasn't refused: how many bytes of messages and of replies it wrote, and whether it installed a log.
#[derive(Clone, Copy)]
pub struct Output {
    pub messages: usize,
    pub replies: usize,
    pub installed: bool,
}

// What a call answers: the state after it, which a refused call hands back as well, and what it did.
#[derive(Clone, Copy)]
pub struct Returned {
    pub state: Replica,
    pub outcome: Result<Output, Refusal>,
}

// What the boundary and the programs tell of an answer in numbers.
impl Returned {
    // Document 01's number: 0 where the call is done.
    // Kept: the number that a recorded line has, with which the programs compare it, and which they print.
    pub fn number(self) -> u8
        ensures { result ≡ code_of self }
    {
        match self.outcome {
            Ok(_) => 0,
            Err(refusal) => u8::from(refusal),
        }
    }

    pub fn messages(self) -> usize
        ensures { result ≡ messages_written self }
    {
        self.outcome.map_or(0, |output| output.messages)
    }

    pub fn replies(self) -> usize
        ensures { result ≡ replies_written self }
    {
        self.outcome.map_or(0, |output| output.replies)
    }

    // Whether a log was installed.
    pub fn installed(self) -> bool
        ensures { result ≡ installed_of self }
    {
        self.outcome.map_or(false, |output| output.installed)
    }

    // Of a malformed frame the offset of its first wrong byte, else 0.
    pub fn offset(self) -> usize
        ensures { result ≡ offset_of_answer self }
    {
        match self.outcome {
            Err(Refusal::Malformed { offset }) => offset,
            _ => 0,
        }
    }
}

pub fn is_normal(status: Status) -> bool
    ensures { result ≡ is_normal status }
{
    matches!(status, Status::Normal)
}

pub fn is_transfer(status: Status) -> bool
    ensures { result ≡ is_transfer status }
{
    matches!(status, Status::StateTransfer)
}

pub fn is_changing(status: Status) -> bool
    ensures { result ≡ is_changing status }
{
    matches!(status, Status::ViewChange)
}

// is_primary
pub fn is_primary(s: Replica) -> bool
    requires { 0 < s.setup.n }
    ensures { result ≡ leads s }
{
    s.setup.id == config::primary_id(s.setup.n, s.view)
}

// No report of anyone.
pub fn no_reports() -> Reports
    ensures { result ≡ no_reports }
{
    let none = Report {
        there: false,
        full: false,
        view: View(0),
        op: Op(0),
        commit: Op(0),
    };
    Reports { rows: [none; 7] }
}

pub fn with_clock(s: Replica, c: Clock) -> Replica
    ensures { result ≡ with_clock s c }
{
    Replica { clock: c, ..s }
}

// heard_from_primary
pub fn heard(s: Replica) -> Replica
    ensures { result ≡ heard_by s }
{
    with_clock(s, s.clock.heard().clock)
}

pub fn with_status(s: Replica, status: Status) -> Replica
    ensures { result ≡ with_status s status }
{
    Replica { status, ..s }
}

// Op and commit number.
pub fn with_log(s: Replica, op: Op, commit: Op) -> Replica
    ensures { result ≡ with_log s op commit }
{
    Replica { op, commit, ..s }
}

// Commit number and takings: what commits change.
pub fn with_commit(s: Replica, commit: Op, takings: u64) -> Replica
    ensures { result ≡ with_commit s commit takings }
{
    Replica {
        commit,
        takings,
        ..s
    }
}

// Another place and clock, and all that a view change gathered cleared.
fn moved(
    s: Replica,
    status: Status,
    view: View,
    normal: View,
    catching: bool,
    clock: Clock,
) -> Replica
    ensures { result ≡ moved s status view normal catching clock }
{
    Replica {
        status,
        view,
        normal,
        catching,
        clock,
        starts: 0,
        sent: false,
        reports: no_reports(),
        ..s
    }
}

// enter_normal, in view v
pub fn enter_normal(s: Replica, v: View) -> Replica
    ensures { result ≡ normal_in s v }
{
    moved(s, Status::Normal, v, v, false, s.clock.reset().clock)
}

// catch_up_with_view
pub fn catching_up_in(s: Replica, v: View) -> Replica
    ensures { result ≡ catching_up_in s v }
{
    let clock = s.clock.restart().clock;
    moved(s, Status::ViewChange, v, s.normal, true, clock)
}

// start_view_change: attempts rise only from ViewChange.
pub fn changing_to(s: Replica, v: View) -> Replica
    ensures { result ≡ changing_to s v }
{
    let clock = s.clock.start(is_changing(s.status)).clock;
    moved(s, Status::ViewChange, v, s.normal, false, clock)
}

// start_view_change_from.insert, but for our own id
pub fn with_start(s: Replica, from: u8) -> Replica
    requires { from < 8 }
    ensures { result ≡ with_start s from }
{
    Replica {
        starts: config::insert_another(s.starts, s.setup.id, from),
        ..s
    }
}

// do_view_change_sent
pub fn with_sent(s: Replica) -> Replica
    ensures { result ≡ with_sent s }
{
    Replica { sent: true, ..s }
}

pub fn with_reports(s: Replica, reports: Reports) -> Replica
    ensures { result ≡ with_reports s reports }
{
    Replica { reports, ..s }
}

// A replica just created: in Normal, or in Recovering with the view and the nonce given.
pub fn new(setup: Setup, status: Status, view: View, nonce: u64) -> Replica
    ensures { result ≡ new_in setup status view nonce }
{
    Replica {
        setup,
        status,
        view,
        normal: view,
        catching: false,
        op: Op(0),
        commit: Op(0),
        takings: 0,
        clock: clock::fresh(),
        starts: 0,
        sent: false,
        nonce,
        reports: no_reports(),
    }
}

// A refusal, and the state as it was.
pub fn refused(cause: Refusal, s: Replica) -> Returned
    ensures { result ≡ refusal cause s }
{
    Returned {
        state: s,
        outcome: Err(cause),
    }
}

// Done: the new state, and the bytes written.
pub fn done(s: Replica, messages: usize, replies: usize, installed: bool) -> Returned
    ensures { result ≡ completed s messages replies installed }
{
    Returned {
        state: s,
        outcome: Ok(Output {
            messages,
            replies,
            installed,
        }),
    }
}
