// on_start_view_change, maybe_send_do_view_change
ghost use Rattle.std.specs.Prelude.{◌≡◌, true, ◌<◌};
ghost use Rattle.config.specs.Setup.{setup_ok};
ghost use Rattle.steps.specs.Steps.{spoke};
ghost use Rattle.steps.specs.Recorded.{Gathering, Does};
ghost use Rattle.book.specs.Memory.{memory};
ghost use Rattle.voting.specs.Votes.{sent_first, report_due, maybe_step, same_view, start_view_change_step};

use frames::Refusal;
use numbers::View;
use state::{Replica, Returned};

// Only what goes out first, from state t; `s` is the state as it was, for refusal 9.
pub fn call(s: Replica, t: Replica, first: bool, out: &mut [u8]) -> Returned
    requires { setup_ok t.setup ≡ true }
    ensures { spoke result out.new ≡ sent_first s t first out.old }
{
    if out.len() < do_view_change::begin::first_len(first, t) {
        return state::refused(Refusal::NoRoomForMessages, s);
    }
    let w = do_view_change::begin::call_first(first, t, out);
    state::done(t, w, 0, false)
}

// Whether our DoViewChange is due: once, as soon as n/2 distinct ids ask for the view.
fn is_due(t: Replica) -> bool
    requires { t.setup.n < 8 }
    ensures { result ≡ report_due t }
{
    let status = t.status;
    if !state::is_changing(status) {
        return false;
    }
    if t.catching {
        return false;
    }
    if t.sent {
        return false;
    }
    (t.setup.n / 2) as u32 <= config::count(t.setup.n, t.starts)
}

// maybe_send_do_view_change
fn maybe_send_do_view_change(
    s: Replica,
    t: Replica,
    first: bool,
    log: &mut [u8],
    results: &mut [u8],
    totals: &mut [u8],
    acks: &mut [u8],
    stored: &mut [u8],
    out: &mut [u8],
    reps: &mut [u8],
) -> Returned
    requires { Gathering t (memory log.old results.old totals.old acks.old stored.old out.old reps.old) }
    ensures { Does (maybe_step s t first) result (memory log.old results.old totals.old acks.old stored.old out.old reps.old) (memory log.new results.new totals.new acks.new stored.new out.new reps.new) }
{
    if !is_due(t) {
        return call(s, t, first, out);
    }
    do_view_change::record::send_do_view_change(
        s,
        state::with_sent(t),
        first,
        log,
        results,
        totals,
        acks,
        stored,
        out,
        reps,
    )
}

// Of our view: counted while we change to it; a Normal primary sends StartView to one who missed it.
fn on_same_view(
    s: Replica,
    r: u8,
    log: &mut [u8],
    results: &mut [u8],
    totals: &mut [u8],
    acks: &mut [u8],
    stored: &mut [u8],
    out: &mut [u8],
    reps: &mut [u8],
) -> Returned
    requires { Gathering s (memory log.old results.old totals.old acks.old stored.old out.old reps.old) × (r < s.setup.n) }
    ensures { Does (same_view s r) result (memory log.old results.old totals.old acks.old stored.old out.old reps.old) (memory log.new results.new totals.new acks.new stored.new out.new reps.new) }
{
    let status = s.status;
    if state::is_changing(status) {
        let t = state::with_start(s, r);
        return maybe_send_do_view_change(
            s, t, false, log, results, totals, acks, stored, out, reps,
        );
    }
    if !state::is_normal(status) {
        return state::done(s, 0, 0, false);
    }
    if state::is_primary(s) {
        return view_change::start_view::send_start_view(s, r, log, out);
    }
    state::done(s, 0, 0, false)
}

// on_start_view_change of view v, from replica r
pub fn on_start_view_change(
    s: Replica,
    v: View,
    r: u8,
    log: &mut [u8],
    results: &mut [u8],
    totals: &mut [u8],
    acks: &mut [u8],
    stored: &mut [u8],
    out: &mut [u8],
    reps: &mut [u8],
) -> Returned
    requires { Gathering s (memory log.old results.old totals.old acks.old stored.old out.old reps.old) × (r < s.setup.n) }
    ensures { Does (start_view_change_step s v r) result (memory log.old results.old totals.old acks.old stored.old out.old reps.old) (memory log.new results.new totals.new acks.new stored.new out.new reps.new) }
{
    if v.0 < s.view.0 {
        return state::done(s, 0, 0, false);
    }
    if s.view.0 < v.0 {
        let t = state::with_start(state::changing_to(s, v), r);
        return maybe_send_do_view_change(s, t, true, log, results, totals, acks, stored, out, reps);
    }
    on_same_view(s, r, log, results, totals, acks, stored, out, reps)
}
