// What a replica answers to a GetState.
ghost use Rattle.std.specs.Prelude.{◌≡◌, length};
ghost use Rattle.steps.specs.Steps.{spoke};
ghost use Rattle.transfer.specs.GetState.{Reading, answers, get_state_step};

use frames::Refusal;
use numbers::{Op, View};
use state::{Replica, Returned};

// Whether a GetState is answered: in Normal, in our view, from an op that we have.
fn answers(s: Replica, v: View, o: Op) -> bool
    ensures { result ≡ answers s v o }
{
    let status = s.status;
    if !state::is_normal(status) {
        return false;
    }
    if v.0 != s.view.0 {
        return false;
    }
    o.0 <= s.op.0
}

// on_get_state: our log from op o on, to the replica that asked
pub fn on_get_state(s: Replica, from: u8, v: View, o: Op, log: &[u8], out: &mut [u8]) -> Returned
    requires { Reading s (length log.now) }
    ensures { spoke result out.new ≡ get_state_step s from v o log.now out.old }
{
    if !answers(s, v, o) {
        return state::done(s, 0, 0, false);
    }
    let k = (s.op.0 - o.0) as usize;
    if out.len() < 23 + 32 * k {
        return state::refused(Refusal::NoRoomForMessages, s);
    }
    let op = s.op;
    let commit = s.commit;
    let p = entries::entry_place(o.0 as usize);
    let w = writers::kinds::new_state(out, from, v, o, op, commit, &log[p..]);
    state::done(s, w, 0, false)
}
