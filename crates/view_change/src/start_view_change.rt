// start_view_change: StartViewChange to all others.
ghost use Rattle.std.specs.Prelude.{◌≡◌, true, [], ◌-◌, ◌*◌, ◌≤◌, length};
ghost use Rattle.numbers.specs.Numbers.{Wrote};
ghost use Rattle.config.specs.Setup.{setup_ok};
ghost use Rattle.steps.specs.Steps.{spoke};
ghost use Rattle.view_change.specs.StartViewChange.{calls_length, calls_of, started_change};

use frames::{Message, Refusal};
use numbers::View;
use state::{Replica, Returned};

// StartViewChange of view v, to all others.
pub fn call_others(s: Replica, v: View, out: &mut [u8]) -> usize
    requires { (setup_ok s.setup ≡ true) × (calls_length s ≤ length out.old) }
    ensures { Wrote (calls_of s v) out.old out.new result }
{
    let m = Message::StartViewChange {
        view: v,
        from: s.setup.id,
    };
    writers::broadcast(out, s.setup.n, s.setup.id, m, b"")
}

// start_view_change to view v, from state t; `s` is the state as it was, for refusal 9.
pub fn start_view_change(s: Replica, t: Replica, v: View, out: &mut [u8]) -> Returned
    requires { setup_ok t.setup ≡ true }
    ensures { spoke result out.new ≡ started_change s t v out.old }
{
    if out.len() < 12 * (t.setup.n as usize - 1) {
        return state::refused(Refusal::NoRoomForMessages, s);
    }
    let w = call_others(t, v, out);
    state::done(state::changing_to(t, v), w, 0, false)
}
