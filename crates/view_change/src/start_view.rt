// StartView: sent to a replica that missed it, and joined by one that gets it.
ghost use Rattle.std.specs.Prelude.{◌≡◌, ◌*◌, ◌≤◌, length};
ghost use Rattle.state.specs.Lengths.{acks_length};
ghost use Rattle.steps.specs.Steps.{Sound, spoke};
ghost use Rattle.book.specs.Memory.{runs};
ghost use Rattle.view_change.specs.StartView.{LogHeld, LogPassed, start_view_length, sent_start_view, keep_verdict, joined, joined_by, start_view_step};
ghost use Rattle.view_change.specs.StartViewNumber.{WeighsStartView};

use crate::StartViewVerdict;
use frames::Refusal;
use numbers::{Op, View};
use state::{Replica, Returned};

// send_start_view, to one replica
pub fn send_start_view(s: Replica, to: u8, log: &[u8], out: &mut [u8]) -> Returned
    requires { LogHeld s (length log.now) }
    ensures { spoke result out.new ≡ sent_start_view s to log.now out.old }
{
    if out.len() < 19 + 32 * (s.op.0 as usize) {
        return state::refused(Refusal::NoRoomForMessages, s);
    }
    let v = s.view;
    let op = s.op;
    let commit = s.commit;
    let w = writers::kinds::start_view(out, to, v, op, commit, log);
    state::done(s, w, 0, false)
}

// Refusal 7: the log of o entries in `part` must keep our committed entries.
fn weigh_log(s: Replica, o: Op, part: &[u8], log: &[u8]) -> StartViewVerdict
    requires { LogHeld s (length log.now) × ((s.commit.0 ≤ s.op.0) × (32 * o.0 ≤ length part.now)) }
    ensures { result ≡ keep_verdict s o part.now log.now }
{
    if book::keeps(log, s.commit.0 as usize, part, o.0 as usize) {
        return StartViewVerdict::Join;
    }
    StartViewVerdict::Refuse
}

// One of our own view is new only while we are changing to it.
fn weigh(s: Replica, v: View, o: Op, part: &[u8], log: &[u8]) -> StartViewVerdict
    requires { LogHeld s (length log.now) × ((s.commit.0 ≤ s.op.0) × (32 * o.0 ≤ length part.now)) }
    ensures { WeighsStartView s v o part.now log.now result }
{
    if v.0 < s.view.0 {
        return StartViewVerdict::Ignore;
    }
    if s.view.0 < v.0 {
        return weigh_log(s, o, part, log);
    }
    let status = s.status;
    if !state::is_changing(status) {
        return StartViewVerdict::Ignore;
    }
    weigh_log(s, o, part, log)
}

// install_log, acks cleared, commit, PrepareOk.
fn join(
    s: Replica,
    v: View,
    o: Op,
    c: Op,
    part: &[u8],
    log: &mut [u8],
    results: &mut [u8],
    totals: &mut [u8],
    acks: &mut [u8],
    out: &mut [u8],
) -> Returned
    requires { Sound s (runs log.old results.old totals.old) × (LogPassed s o c × ((s.commit.0 ≤ o.0) × ((32 * o.0 ≤ length part.now) × (length acks.old ≡ acks_length s.setup)))) }
    ensures { joined result (runs log.new results.new totals.new) acks.new out.new ≡ joined_by s v o c part.now (runs log.old results.old totals.old) acks.old out.old }
{
    if out.len() < 16 {
        return state::refused(Refusal::NoRoomForMessages, s);
    }
    let commit = s.commit;
    let t = state::with_log(state::enter_normal(s, v), o, commit);
    book::append_part(log, 0, part, o.0 as usize);
    numbers::fill(acks, s.setup.room as usize, 0);
    steps::acknowledge(s, t, c, true, log, results, totals, out)
}

// on_start_view; `part` begins with the o entries that it carries, c of them committed.
pub fn on_start_view(
    s: Replica,
    v: View,
    o: Op,
    c: Op,
    part: &[u8],
    log: &mut [u8],
    results: &mut [u8],
    totals: &mut [u8],
    acks: &mut [u8],
    out: &mut [u8],
) -> Returned
    requires { Sound s (runs log.old results.old totals.old) × (LogPassed s o c × ((32 * o.0 ≤ length part.now) × (length acks.old ≡ acks_length s.setup))) }
    ensures { joined result (runs log.new results.new totals.new) acks.new out.new ≡ start_view_step s v o c part.now (runs log.old results.old totals.old) acks.old out.old }
{
    match weigh(s, v, o, part, log) {
        StartViewVerdict::Ignore => state::done(s, 0, 0, false),
        StartViewVerdict::Refuse => state::refused(Refusal::Uncommits, s),
        StartViewVerdict::Join => join(s, v, o, c, part, log, results, totals, acks, out),
    }
}
