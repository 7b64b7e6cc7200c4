// DoViewChanges recorded: nothing is stored before the whole call is known to be granted.
ghost use Rattle.std.specs.Prelude.{◌≡◌, true, ◌*◌, ◌≤◌, length};
ghost use Rattle.config.specs.Setup.{setup_ok};
ghost use Rattle.reports.specs.Judge.{Fits};
ghost use Rattle.reports.specs.declared.Judged.TheVariants.{Wait, Begin};
ghost use Rattle.steps.specs.Steps.{spoke};
ghost use Rattle.view_change.specs.StartView.{LogHeld};
ghost use Rattle.do_view_change.specs.Begin.{owed};
ghost use Rattle.steps.specs.Recorded.{Gathering, Does};
ghost use Rattle.do_view_change.specs.Record.{Told, decided_by, record_step, own_report, report_of, told_primary, send_step, do_view_change_step};
ghost use Rattle.do_view_change.specs.DecisionNumber.{Decides};
ghost use Rattle.book.specs.Memory.{memory};

use crate::{Decision, begin};
use frames::Refusal;
use numbers::{Op, View};
use reports::{Best, Judged};
use state::{Replica, Report, Reports, Returned};

// More reports are waited for: what goes out first must fit. `area` and `replies` are the sizes of the two areas.
fn settle_wait(t: Replica, first: bool, area: usize, replies: usize) -> Decision
    requires { setup_ok t.setup ≡ true }
    ensures { result ≡ decided_by Wait t first area replies }
{
    if area < begin::first_len(first, t) {
        return Decision::No {
            refusal: Refusal::NoRoomForMessages,
        };
    }
    Decision::Keep
}

// How long the replies are on the way to commit number g.
fn replies_len(t: Replica, g: Op) -> usize
    ensures { result ≡ 36 * owed t g }
{
    if g.0 < t.commit.0 {
        return 0;
    }
    36 * ((g.0 - t.commit.0) as usize)
}

// The view would begin: 9, then 10.
fn settle_begin(best: Best, g: Op, t: Replica, first: bool, area: usize, replies: usize) -> Decision
    requires { (setup_ok t.setup ≡ true) × (best.report.op.0 ≤ t.setup.room) }
    ensures { result ≡ decided_by (Begin best g) t first area replies }
{
    let o = best.report.op;
    if area < begin::first_len(first, t) + begin::start_views_len(t, o) {
        return Decision::No {
            refusal: Refusal::NoRoomForMessages,
        };
    }
    if replies < replies_len(t, g) {
        return Decision::No {
            refusal: Refusal::NoRoomForReplies,
        };
    }
    Decision::Start { best, commit: g }
}

// What the report of replica r leads to, which is among the rows; its log lies in `fresh`. Only reads.
fn decide<'a>(
    t: Replica,
    rows: Reports,
    r: u8,
    first: bool,
    area: usize,
    replies: usize,
    log: &[u8],
    stored: &'a [u8],
    fresh: &'a [u8],
) -> Decision
    requires { (setup_ok t.setup ≡ true) × (Fits rows t.setup.n r t.setup.room stored.now fresh.now × (32 * t.commit.0 ≤ length log.now)) }
    ensures { Decides t rows r first area replies log.now stored.now fresh.now result }
{
    let n = t.setup.n;
    let room = t.setup.room;
    let c = t.commit;
    match reports::judge::judge(rows, n, r, room, c, log, stored, fresh) {
        Judged::Wait => settle_wait(t, first, area, replies),
        Judged::Refuse => Decision::No {
            refusal: Refusal::Uncommits,
        },
        Judged::Begin { best, commit } => settle_begin(best, commit, t, first, area, replies),
    }
}

// record_do_view_change of a report d of replica r that a frame carried, from state t; `s` is the state as it was.
fn record_frame(
    s: Replica,
    t: Replica,
    r: u8,
    d: Report,
    first: bool,
    fresh: &[u8],
    log: &mut [u8],
    results: &mut [u8],
    totals: &mut [u8],
    acks: &mut [u8],
    stored: &mut [u8],
    out: &mut [u8],
    reps: &mut [u8],
) -> Returned
    requires { Gathering t (memory log.old results.old totals.old acks.old stored.old out.old reps.old) × Told t r d.op d.commit fresh.now }
    ensures { Does (record_step s t r d first fresh.now) result (memory log.old results.old totals.old acks.old stored.old out.old reps.old) (memory log.new results.new totals.new acks.new stored.new out.new reps.new) }
{
    let held = t.reports;
    let rows = reports::rows::with_report(held, r, d);
    match decide(t, rows, r, first, out.len(), reps.len(), log, stored, fresh) {
        Decision::No { refusal } => state::refused(refusal, s),
        Decision::Keep => {
            let o = d.op;
            reports::store::keep(stored, fresh, t.setup.room, r, o);
            let w = begin::call_first(first, t, out);
            state::done(state::with_reports(t, rows), w, 0, false)
        }
        Decision::Start { best, commit } => {
            let o = best.report.op;
            reports::store::install(log, best, r, t.setup.room, stored, fresh);
            begin::begin(t, o, commit, first, log, results, totals, acks, out, reps)
        }
    }
}

// The same of our own report, whose log is ours.
fn record_own(
    s: Replica,
    t: Replica,
    first: bool,
    log: &mut [u8],
    results: &mut [u8],
    totals: &mut [u8],
    acks: &mut [u8],
    stored: &mut [u8],
    out: &mut [u8],
    reps: &mut [u8],
) -> Returned
    requires { Gathering t (memory log.old results.old totals.old acks.old stored.old out.old reps.old) }
    ensures { Does (record_step s t t.setup.id (own_report t) first log.old) result (memory log.old results.old totals.old acks.old stored.old out.old reps.old) (memory log.new results.new totals.new acks.new stored.new out.new reps.new) }
{
    let me = t.setup.id;
    let d = own_report(t);
    let held = t.reports;
    let rows = reports::rows::with_report(held, me, d);
    match decide(t, rows, me, first, out.len(), reps.len(), log, stored, log) {
        Decision::No { refusal } => state::refused(refusal, s),
        Decision::Keep => {
            let o = t.op;
            reports::store::keep(stored, log, t.setup.room, me, o);
            let w = begin::call_first(first, t, out);
            state::done(state::with_reports(t, rows), w, 0, false)
        }
        Decision::Start { best, commit } => {
            let o = best.report.op;
            reports::store::install_own(log, best, me, t.setup.room, stored);
            begin::begin(t, o, commit, first, log, results, totals, acks, out, reps)
        }
    }
}

// A DoViewChange's last normal view, op and commit number.
fn report(normal: View, o: Op, c: Op) -> Report
    ensures { result ≡ report_of normal o c }
{
    Report {
        there: true,
        full: true,
        view: normal,
        op: o,
        commit: c,
    }
}

fn own_report(s: Replica) -> Report
    ensures { result ≡ own_report s }
{
    let normal = s.normal;
    let o = s.op;
    let c = s.commit;
    report(normal, o, c)
}

// Our DoViewChange, to the primary of our view.
fn tell_primary(s: Replica, t: Replica, first: bool, log: &[u8], out: &mut [u8]) -> Returned
    requires { LogHeld t (length log.now) }
    ensures { spoke result out.new ≡ told_primary s t first log.now out.old }
{
    if out.len() < begin::first_len(first, t) + (24 + 32 * (t.op.0 as usize)) {
        return state::refused(Refusal::NoRoomForMessages, s);
    }
    let v = t.view;
    let normal = t.normal;
    let o = t.op;
    let c = t.commit;
    let to = config::primary_id(t.setup.n, v);
    let w = begin::call_first(first, t, out);
    let k = writers::kinds::do_view_change(&mut out[w..], to, v, t.setup.id, normal, o, c, log);
    state::done(t, w + k, 0, false)
}

// send_do_view_change, from state t; `s` is the state as it was.
pub fn send_do_view_change(
    s: Replica,
    t: Replica,
    first: bool,
    log: &mut [u8],
    results: &mut [u8],
    totals: &mut [u8],
    acks: &mut [u8],
    stored: &mut [u8],
    out: &mut [u8],
    reps: &mut [u8],
) -> Returned
    requires { Gathering t (memory log.old results.old totals.old acks.old stored.old out.old reps.old) }
    ensures { Does (send_step s t first) result (memory log.old results.old totals.old acks.old stored.old out.old reps.old) (memory log.new results.new totals.new acks.new stored.new out.new reps.new) }
{
    if state::is_primary(t) {
        return record_own(s, t, first, log, results, totals, acks, stored, out, reps);
    }
    tell_primary(s, t, first, log, out)
}

// on_do_view_change of view v, from replica r; `part` begins with its log of o entries.
pub fn on_do_view_change(
    s: Replica,
    v: View,
    r: u8,
    normal: View,
    o: Op,
    c: Op,
    part: &[u8],
    log: &mut [u8],
    results: &mut [u8],
    totals: &mut [u8],
    acks: &mut [u8],
    stored: &mut [u8],
    out: &mut [u8],
    reps: &mut [u8],
) -> Returned
    requires { Gathering s (memory log.old results.old totals.old acks.old stored.old out.old reps.old) × Told s r o c part.now }
    ensures { Does (do_view_change_step s v r normal o c part.now) result (memory log.old results.old totals.old acks.old stored.old out.old reps.old) (memory log.new results.new totals.new acks.new stored.new out.new reps.new) }
{
    if v.0 < s.view.0 {
        return state::done(s, 0, 0, false);
    }
    if config::primary_id(s.setup.n, v) != s.setup.id {
        return state::done(s, 0, 0, false);
    }
    let d = report(normal, o, c);
    if s.view.0 < v.0 {
        let t = state::changing_to(s, v);
        return record_frame(
            s, t, r, d, true, part, log, results, totals, acks, stored, out, reps,
        );
    }
    let status = s.status;
    if state::is_normal(status) {
        return view_change::start_view::send_start_view(s, r, log, out);
    }
    record_frame(
        s, s, r, d, false, part, log, results, totals, acks, stored, out, reps,
    )
}
