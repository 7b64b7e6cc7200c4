// on_idle where the wait is over, and in ViewChange; `c` is the clock after the tick.
ghost use Rattle.std.specs.Prelude.{◌≡◌, true, false, ◌+◌};
ghost use Rattle.config.specs.Setup.{setup_ok};
ghost use Rattle.steps.specs.Steps.{spoke};
ghost use Rattle.steps.specs.Recorded.{Gathering, Does};
ghost use Rattle.book.specs.Memory.{memory};
ghost use Rattle.voting.specs.Tick.{in_last_view, next_view, next_view_asking, repeated, change_tick};

use clock::Clock;
use frames::Refusal;
use numbers::View;
use state::{Replica, Returned};

// Refusal 8: no view comes after it.
fn in_last_view(s: Replica) -> bool
    ensures { result ≡ in_last_view s }
{
    4_294_967_295 <= s.view.0
}

// The wait is over, in Normal and in ViewChange: the next view, or refusal 8.
pub fn next_view(s: Replica, c: Clock, out: &mut [u8]) -> Returned
    requires { setup_ok s.setup ≡ true }
    ensures { spoke result out.new ≡ next_view s c out.old }
{
    if in_last_view(s) {
        return state::refused(Refusal::LastView, s);
    }
    let v = View(s.view.0 + 1);
    view_change::start_view_change::start_view_change(s, state::with_clock(s, c), v, out)
}

// The wait is over, in StateTransfer: GetState first, in the view that is left.
pub fn next_view_asking(s: Replica, c: Clock, out: &mut [u8]) -> Returned
    requires { setup_ok s.setup ≡ true }
    ensures { spoke result out.new ≡ next_view_asking s c out.old }
{
    if in_last_view(s) {
        return state::refused(Refusal::LastView, s);
    }
    if out.len() < 16 + 12 * (s.setup.n as usize - 1) {
        return state::refused(Refusal::NoRoomForMessages, s);
    }
    let was = s.view;
    let at = s.op;
    let to = config::primary_id(s.setup.n, was);
    let v = View(s.view.0 + 1);
    let w = writers::kinds::get_state(out, to, s.setup.id, was, at);
    let k = view_change::start_view_change::call_others(s, v, &mut out[w..]);
    state::done(
        state::changing_to(state::with_clock(s, c), v),
        w + k,
        0,
        false,
    )
}

// In ViewChange, where the wait isn't over: what was sent is sent again.
fn repeat(
    s: Replica,
    c: Clock,
    log: &mut [u8],
    results: &mut [u8],
    totals: &mut [u8],
    acks: &mut [u8],
    stored: &mut [u8],
    out: &mut [u8],
    reps: &mut [u8],
) -> Returned
    requires { Gathering s (memory log.old results.old totals.old acks.old stored.old out.old reps.old) }
    ensures { Does (repeated s c) result (memory log.old results.old totals.old acks.old stored.old out.old reps.old) (memory log.new results.new totals.new acks.new stored.new out.new reps.new) }
{
    let t = state::with_clock(s, c);
    let at = s.commit;
    if s.catching {
        return steps::ask_state(s, t, at, out);
    }
    if s.sent {
        return do_view_change::record::send_do_view_change(
            s, t, true, log, results, totals, acks, stored, out, reps,
        );
    }
    crate::votes::call(s, t, true, out)
}

// on_idle in ViewChange; `up`: the wait is over
pub fn tick_change(
    s: Replica,
    c: Clock,
    up: bool,
    log: &mut [u8],
    results: &mut [u8],
    totals: &mut [u8],
    acks: &mut [u8],
    stored: &mut [u8],
    out: &mut [u8],
    reps: &mut [u8],
) -> Returned
    requires { Gathering s (memory log.old results.old totals.old acks.old stored.old out.old reps.old) }
    ensures { Does (change_tick s c up) result (memory log.old results.old totals.old acks.old stored.old out.old reps.old) (memory log.new results.new totals.new acks.new stored.new out.new reps.new) }
{
    if up {
        return next_view(s, c, out);
    }
    repeat(s, c, log, results, totals, acks, stored, out, reps)
}
