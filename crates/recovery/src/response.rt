// on_recovery_response: responses are kept until a quorum of them has the state of the latest view's primary.
ghost use Rattle.std.specs.Prelude.{◌≡◌, ◌≤◌, length};
ghost use Rattle.reports.specs.Judge.{Lies};
ghost use Rattle.steps.specs.Steps.{Sound};
ghost use Rattle.book.specs.Memory.{runs};
ghost use Rattle.recovery.specs.Recovery.{response_of, Collecting, ResponsePassed, collected, recovered_by, collected_by, response_step};

use frames::{Progress, Refusal};
use numbers::{Op, View};
use reports::{Best, Judged};
use state::{Replica, Report, Returned};

// What is held of a response of view v.
fn response(v: View, state: Option<Progress>) -> Report
    ensures { result ≡ response_of v state }
{
    match state {
        None => Report {
            there: true,
            full: false,
            view: v,
            op: Op(0),
            commit: Op(0),
        },
        Some(Progress { op, commit }) => Report {
            there: true,
            full: true,
            view: v,
            op,
            commit,
        },
    }
}

// Back in the view of the chosen response, with its log; nothing is sent.
fn come_back<'a>(
    s: Replica,
    b: Best,
    g: Op,
    r: u8,
    fresh: &'a [u8],
    log: &mut [u8],
    results: &mut [u8],
    totals: &mut [u8],
    stored: &'a [u8],
) -> Returned
    requires { Sound s (runs log.old results.old totals.old) × (Lies b r s.setup.room stored.now fresh.now × ((s.commit.0 ≤ b.report.op.0) × (g.0 ≤ b.report.op.0))) }
    ensures { collected result (runs log.new results.new totals.new) stored.now ≡ recovered_by s b g r fresh.now (runs log.old results.old totals.old) stored.now }
{
    let v = b.report.view;
    let o = b.report.op;
    let c = s.commit;
    reports::store::install(log, b, r, s.setup.room, stored, fresh);
    let t = state::with_log(state::enter_normal(s, v), o, c);
    let u = steps::commit_up_to(t, g, log, results, totals);
    state::done(u, 0, 0, true)
}

// The response d of replica r is kept, refused by 7, or ends the recovery.
fn collect(
    s: Replica,
    r: u8,
    d: Report,
    fresh: &[u8],
    log: &mut [u8],
    results: &mut [u8],
    totals: &mut [u8],
    stored: &mut [u8],
) -> Returned
    requires { Collecting s (runs log.old results.old totals.old) (length stored.old) × ResponsePassed s r d (length fresh.now) }
    ensures { collected result (runs log.new results.new totals.new) stored.new ≡ collected_by s r d fresh.now (runs log.old results.old totals.old) stored.old }
{
    let n = s.setup.n;
    let room = s.setup.room;
    let v = s.view;
    let c = s.commit;
    let held = s.reports;
    let rows = reports::rows::with_report(held, r, d);
    match reports::judge::judge_response(rows, n, r, room, v, c, log, stored, fresh) {
        Judged::Wait => {
            let o = d.op;
            reports::store::keep(stored, fresh, room, r, o);
            state::done(state::with_reports(s, rows), 0, 0, false)
        }
        Judged::Refuse => state::refused(Refusal::Uncommits, s),
        Judged::Begin { best, commit } => {
            come_back(s, best, commit, r, fresh, log, results, totals, stored)
        }
    }
}

// on_recovery_response of view v, to the nonce x, from replica r; `part` begins with the log that it carries.
pub fn on_recovery_response(
    s: Replica,
    v: View,
    x: u64,
    r: u8,
    state: Option<Progress>,
    part: &[u8],
    log: &mut [u8],
    results: &mut [u8],
    totals: &mut [u8],
    stored: &mut [u8],
) -> Returned
    requires { Collecting s (runs log.old results.old totals.old) (length stored.old) × ResponsePassed s r (response_of v state) (length part.now) }
    ensures { collected result (runs log.new results.new totals.new) stored.new ≡ response_step s v x r state part.now (runs log.old results.old totals.old) stored.old }
{
    if x != s.nonce {
        return state::done(s, 0, 0, false);
    }
    let d = response(v, state);
    collect(s, r, d, part, log, results, totals, stored)
}
