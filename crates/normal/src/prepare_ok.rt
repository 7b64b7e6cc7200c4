// on_prepare_ok
ghost use Rattle.std.specs.Prelude.{◌≡◌, ◌-◌, ◌*◌, ◌≤◌, ◌<◌, length};
ghost use Rattle.book.specs.Memory.{runs, money};
ghost use Rattle.steps.specs.Steps.{Sound};
ghost use Rattle.normal.specs.PrepareOk.{listens, counted, committed_by, prepare_ok_step};
ghost use Rattle.normal.specs.CountNumber.{WeighsAck};

use frames::Refusal;
use numbers::{Op, View};
use state::{Replica, Returned};

// What an acknowledgement calls for: nothing; one more is noted; it makes a quorum for an op past the log, or replies that don't fit, both
// refused; or all up to its op is committed.
#[derive(Clone, Copy)]
pub enum Count {
    Nothing,
    Note,
    Refuse { refusal: Refusal },
    Commit,
}

// Whether a PrepareOk of this view and op is looked at: by a Normal primary, in its view, for an op that isn't committed.
fn hears(s: Replica, v: View, op: Op) -> bool
    requires { 0 < s.setup.n }
    ensures { result ≡ listens s v op }
{
    if v.0 != s.view.0 {
        return false;
    }
    if !state::is_primary(s) {
        return false;
    }
    let status = s.status;
    if !state::is_normal(status) {
        return false;
    }
    s.commit.0 < op.0
}

// An ack fires only when the count reaches the quorum exactly. `held`: who acknowledged the op so far; `room`: of the area for replies.
fn weigh(s: Replica, op: Op, held: u8, from: u8, room: usize) -> Count
    requires { (from < 8) × ((s.commit.0 < op.0) × (s.setup.n < 8)) }
    ensures { WeighsAck s op held from room result }
{
    if held == 0 {
        return Count::Nothing;
    }
    if config::has(held, from) {
        return Count::Nothing;
    }
    if config::count(s.setup.n, config::insert(held, from)) != config::quorum(s.setup.n) as u32 {
        return Count::Note;
    }
    if s.op.0 < op.0 {
        return Count::Refuse {
            refusal: Refusal::PastLog,
        };
    }
    if room < 36 * ((op.0 - s.commit.0) as usize) {
        return Count::Refuse {
            refusal: Refusal::NoRoomForReplies,
        };
    }
    Count::Commit
}

// A quorum: all up to op is committed, with a reply to each, and its rows of acks go.
fn commit_with_replies(
    s: Replica,
    op: Op,
    log: &[u8],
    results: &mut [u8],
    totals: &mut [u8],
    acks: &mut [u8],
    reps: &mut [u8],
) -> Returned
    requires { Sound s (runs log.now results.old totals.old) × ((s.commit.0 < op.0) × ((op.0 ≤ s.op.0) × ((length acks.old ≡ s.setup.room) × (36 * (op.0 - s.commit.0) ≤ length reps.old)))) }
    ensures { counted result (money results.new totals.new) acks.new reps.new ≡ committed_by s op log.now (money results.old totals.old) acks.old reps.old }
{
    let from = s.commit.0 as usize;
    let count = (op.0 - s.commit.0) as usize;
    let v = s.view;
    let t = steps::commit_up_to(s, op, log, results, totals);
    book::write_replies(log, results, v, from, count, reps);
    numbers::fill(acks, entries::ack_place(op.0 as usize), 0);
    state::done(t, 0, 36 * count, false)
}

// on_prepare_ok
pub fn on_prepare_ok(
    s: Replica,
    v: View,
    op: Op,
    from: u8,
    log: &[u8],
    results: &mut [u8],
    totals: &mut [u8],
    acks: &mut [u8],
    reps: &mut [u8],
) -> Returned
    requires { Sound s (runs log.now results.old totals.old) × ((length acks.old ≡ s.setup.room) × ((from < s.setup.n) × (op.0 ≤ s.setup.room))) }
    ensures { counted result (money results.new totals.new) acks.new reps.new ≡ prepare_ok_step s v op from log.now (money results.old totals.old) acks.old reps.old }
{
    if !hears(s, v, op) {
        return state::done(s, 0, 0, false);
    }
    let i = entries::ack_place((op.0 - 1) as usize);
    let held = acks[i];
    match weigh(s, op, held, from, reps.len()) {
        Count::Nothing => state::done(s, 0, 0, false),
        Count::Note => {
            acks[i] = config::insert(held, from);
            state::done(s, 0, 0, false)
        }
        Count::Refuse { refusal } => state::refused(refusal, s),
        Count::Commit => commit_with_replies(s, op, log, results, totals, acks, reps),
    }
}
