// on_request
ghost use Rattle.std.specs.Prelude.{◌≡◌, ◌+◌, ◌*◌, ◌≤◌, ◌<◌, length};
ghost use Rattle.state.specs.Lengths.{log_length};
ghost use Rattle.normal.specs.Request.{Ready, sends_of, again_verdict, known_verdict, new_verdict, client_verdict, served, took, answered, resent, accepted, request_step};
ghost use Rattle.normal.specs.RequestNumber.{WeighsRequest};

use client_table::Latest;
use entries::Entry;
use fees::Outcome;
use frames::{Message, Refusal};
use numbers::Op;
use state::{Replica, Returned};

// What a Request calls for: nothing; its reply again; refusal 4, 9 or 10; or it is appended.
#[derive(Clone, Copy)]
pub enum RequestVerdict {
    Nothing,
    Resend { reply: Outcome },
    Refuse { refusal: Refusal },
    Append,
}

// How long the Prepares of an op are, to all others.
fn sends(s: Replica) -> usize
    requires { (0 < s.setup.n) × (s.setup.n ≤ 7) }
    ensures { result ≡ sends_of s }
{
    51 * (s.setup.n as usize - 1)
}

// No new number, and the reply of the client's latest request, `request`, is kept: it goes out again if that is the number.
fn weigh_again(e: Entry, request: u64, reply: Outcome, room: usize) -> RequestVerdict
    ensures { result ≡ again_verdict e request reply room }
{
    if e.request < request {
        return RequestVerdict::Nothing;
    }
    if room < 36 {
        return RequestVerdict::Refuse {
            refusal: Refusal::NoRoomForReplies,
        };
    }
    RequestVerdict::Resend { reply }
}

// No new number: the reply again, if it is the client's latest and there is one.
fn weigh_known(e: Entry, latest: Latest, room: usize) -> RequestVerdict
    ensures { result ≡ known_verdict e latest room }
{
    match latest {
        Latest::Nothing => RequestVerdict::Nothing,
        Latest::Waiting { .. } => RequestVerdict::Nothing,
        Latest::Answered { request, reply } => weigh_again(e, request, reply, room),
    }
}

// `out` and `reps` are the sizes of the two areas.
fn weigh_new(s: Replica, out: usize) -> RequestVerdict
    requires { (0 < s.setup.n) × (s.setup.n ≤ 7) }
    ensures { result ≡ new_verdict s out }
{
    if s.setup.room <= s.op.0 {
        return RequestVerdict::Refuse {
            refusal: Refusal::PastRoom,
        };
    }
    if out < sends(s) {
        return RequestVerdict::Refuse {
            refusal: Refusal::NoRoomForMessages,
        };
    }
    RequestVerdict::Append
}

fn weigh_client(s: Replica, e: Entry, latest: Latest, out: usize, reps: usize) -> RequestVerdict
    requires { (0 < s.setup.n) × (s.setup.n ≤ 7) }
    ensures { result ≡ client_verdict s e latest out reps }
{
    if client_table::is_new(latest, e.request) {
        return weigh_new(s, out);
    }
    weigh_known(e, latest, reps)
}

fn weigh(s: Replica, e: Entry, latest: Latest, out: usize, reps: usize) -> RequestVerdict
    requires { (0 < s.setup.n) × (s.setup.n ≤ 7) }
    ensures { WeighsRequest s e latest out reps result }
{
    if !state::is_primary(s) {
        return RequestVerdict::Nothing;
    }
    let status = s.status;
    if !state::is_normal(status) {
        return RequestVerdict::Nothing;
    }
    weigh_client(s, e, latest, out, reps)
}

// The entry is appended, acknowledged by ourselves, and sent to all others.
fn accept(s: Replica, e: Entry, log: &mut [u8], acks: &mut [u8], out: &mut [u8]) -> Returned
    requires { Ready s (length log.old) (length acks.old) × ((s.op.0 < s.setup.room) × (sends_of s ≤ length out.old)) }
    ensures { took result log.new acks.new out.new ≡ accepted s e log.old acks.old out.old }
{
    let i = s.op.0 as usize;
    let op = Op(s.op.0 + 1);
    let commit = s.commit;
    let view = s.view;
    book::append(log, i, e);
    acks[entries::ack_place(i)] = config::insert(0, s.setup.id);
    let m = Message::Prepare {
        view,
        op,
        commit,
        entry: e,
    };
    let w = writers::broadcast(out, s.setup.n, s.setup.id, m, log);
    state::done(state::with_log(s, op, commit), w, 0, false)
}

// The reply again, with the current view.
fn resend(s: Replica, e: Entry, o: Outcome, reps: &mut [u8]) -> Returned
    requires { 36 ≤ length reps.old }
    ensures { answered result reps.new ≡ resent s e o reps.old }
{
    let v = s.view;
    let w = writers::write_reply(reps, v, e.client, e.request, o.code, o.total);
    state::done(s, 0, w, false)
}

// on_request
pub fn on_request(
    s: Replica,
    e: Entry,
    latest: Latest,
    log: &mut [u8],
    acks: &mut [u8],
    out: &mut [u8],
    reps: &mut [u8],
) -> Returned
    requires { Ready s (length log.old) (length acks.old) }
    ensures { served result log.new acks.new out.new reps.new ≡ request_step s e latest log.old acks.old out.old reps.old }
{
    match weigh(s, e, latest, out.len(), reps.len()) {
        RequestVerdict::Nothing => state::done(s, 0, 0, false),
        RequestVerdict::Resend { reply } => resend(s, e, reply, reps),
        RequestVerdict::Refuse { refusal } => state::refused(refusal, s),
        RequestVerdict::Append => accept(s, e, log, acks, out),
    }
}
