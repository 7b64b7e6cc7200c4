// Recovery: what is answered to a replica that is back from a crash, and how that one comes back.
#![tactic(auto)]

ghost use Rattle.std.specs.Prelude.{◌≡◌, true, length};
ghost use Rattle.config.specs.Setup.{setup_ok};
ghost use Rattle.steps.specs.Steps.{spoke};
ghost use Rattle.view_change.specs.StartView.{LogHeld};
ghost use Rattle.recovery.specs.Recovery.{recovering_tick, full_answer, bare_answer, recovery_step};

use frames::{Message, Refusal};
use numbers::View;
use state::{Replica, Returned};

pub mod response; // on_recovery_response

// send_recovery, on each tick in Recovering; the clock is left alone.
pub fn tick_recovering(s: Replica, out: &mut [u8]) -> Returned
    requires { setup_ok s.setup ≡ true }
    ensures { spoke result out.new ≡ recovering_tick s out.old }
{
    if out.len() < 20 * (s.setup.n as usize - 1) {
        return state::refused(Refusal::NoRoomForMessages, s);
    }
    let view = s.view;
    let m = Message::Recovery {
        from: s.setup.id,
        nonce: s.nonce,
        view,
    };
    let w = writers::broadcast(out, s.setup.n, s.setup.id, m, b"");
    state::done(s, w, 0, false)
}

// A primary's answer, with its log.
fn answer_full(s: Replica, r: u8, x: u64, log: &[u8], out: &mut [u8]) -> Returned
    requires { LogHeld s (length log.now) }
    ensures { spoke result out.new ≡ full_answer s r x log.now out.old }
{
    if out.len() < 29 + 32 * (s.op.0 as usize) {
        return state::refused(Refusal::NoRoomForMessages, s);
    }
    let v = s.view;
    let o = s.op;
    let c = s.commit;
    let w = writers::kinds::response_full(out, r, v, x, s.setup.id, o, c, log);
    state::done(s, w, 0, false)
}

// A backup's, without.
fn answer_bare(s: Replica, r: u8, x: u64, out: &mut [u8]) -> Returned
    ensures { spoke result out.new ≡ bare_answer s r x out.old }
{
    if out.len() < 21 {
        return state::refused(Refusal::NoRoomForMessages, s);
    }
    let v = s.view;
    let w = writers::kinds::response_bare(out, r, v, x, s.setup.id);
    state::done(s, w, 0, false)
}

// on_recovery of replica r, with its nonce x and view v: one of a later view starts the view change, and isn't answered.
pub fn on_recovery(s: Replica, r: u8, x: u64, v: View, log: &[u8], out: &mut [u8]) -> Returned
    requires { LogHeld s (length log.now) }
    ensures { spoke result out.new ≡ recovery_step s r x v log.now out.old }
{
    if s.view.0 < v.0 {
        return view_change::start_view_change::start_view_change(s, s, v, out);
    }
    let status = s.status;
    if !state::is_normal(status) {
        return state::done(s, 0, 0, false);
    }
    if state::is_primary(s) {
        return answer_full(s, r, x, log, out);
    }
    answer_bare(s, r, x, out)
}
