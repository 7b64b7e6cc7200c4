// What several handlers share: whether a primary's message is taken, commits up to an op number, GetState and PrepareOk.
#![tactic(auto)]

ghost use Rattle.std.specs.Prelude.{◌≡◌, ◌≤◌, ◌<◌, length};
ghost use Rattle.numbers.specs.Numbers.{over};
ghost use Rattle.steps.specs.Steps.{Sound, spoke, left, accept_changing, is_take, committed_to, settled, asked_for_state, deferred, transferred, prepare_ok_of, committed_and_acked};
ghost use Rattle.steps.specs.AcceptNumber.{Accepts};
ghost use Rattle.book.specs.Memory.{runs};

use frames::{Refusal, Status};
use numbers::{Op, View};
use state::{Replica, Returned};

// What accept_from_primary says of a message of view v: it is of an older view; it is heard and no more; it is of a newer view, to be caught up
// with; it is of ours, which we were changing to, and now catch up with; or it is taken, by a backup in Normal.
#[derive(Clone, Copy)]
pub enum Accept {
    Ignore,
    Hear,
    Join,
    Rejoin,
    Take,
}

fn accept_changing(s: Replica) -> Accept
    ensures { result ≡ accept_changing s }
{
    if s.catching {
        return Accept::Hear;
    }
    Accept::Rejoin
}

// accept_from_primary
pub fn accept_from_primary(s: Replica, v: View) -> Accept
    requires { 0 < s.setup.n }
    ensures { Accepts s v result }
{
    if v.0 < s.view.0 {
        return Accept::Ignore;
    }
    if s.view.0 < v.0 {
        return Accept::Join;
    }
    let status = s.status;
    if state::is_changing(status) {
        return accept_changing(s);
    }
    if !state::is_normal(status) {
        return Accept::Hear;
    }
    if state::is_primary(s) {
        return Accept::Hear;
    }
    Accept::Take
}

// Whether the message is taken.
pub fn takes(a: Accept) -> bool
    ensures { result ≡ is_take a }
{
    match a {
        Accept::Ignore => false,
        Accept::Hear => false,
        Accept::Join => false,
        Accept::Rejoin => false,
        Accept::Take => true,
    }
}

// commit_up_to: the ops after the commit number, up to k.
pub fn commit_up_to(s: Replica, k: Op, log: &[u8], results: &mut [u8], totals: &mut [u8]) -> Replica
    requires { Sound s (runs log.now results.old totals.old) × (k.0 ≤ s.op.0) }
    ensures { (result ≡ committed_to s k (runs log.now results.old totals.old)) × (runs log.now results.new totals.new ≡ settled s k (runs log.now results.old totals.old)) }
{
    if k.0 <= s.commit.0 {
        return s;
    }
    let from = s.commit.0;
    let count = k.0 - from;
    let takings = book::commit_up_to(
        log,
        results,
        totals,
        s.setup.members,
        s.takings,
        from as usize,
        count as usize,
    );
    state::with_commit(s, k, takings)
}

// send_get_state from op `at` on, to the primary of the view of `t`, which is the state after it; `s` is the state as it was, for refusal 9.
pub fn ask_state(s: Replica, t: Replica, at: Op, out: &mut [u8]) -> Returned
    requires { 0 < t.setup.n }
    ensures { spoke result out.new ≡ asked_for_state s t at out.old }
{
    if out.len() < 16 {
        return state::refused(Refusal::NoRoomForMessages, s);
    }
    let v = t.view;
    let to = config::primary_id(t.setup.n, v);
    let w = writers::kinds::get_state(out, to, t.setup.id, v, at);
    state::done(t, w, 0, false)
}

// state_transfer
pub fn state_transfer(s: Replica, out: &mut [u8]) -> Returned
    requires { 0 < s.setup.n }
    ensures { spoke result out.new ≡ transferred s out.old }
{
    let at = s.op;
    ask_state(
        s,
        state::with_status(state::heard(s), Status::StateTransfer),
        at,
        out,
    )
}

// What is done with a message from the primary that isn't taken: catch_up_with_view, or nothing but to hear it.
pub fn defer(a: Accept, s: Replica, v: View, out: &mut [u8]) -> Returned
    requires { 0 < s.setup.n }
    ensures { spoke result out.new ≡ deferred a s v out.old }
{
    let at = s.commit;
    match a {
        Accept::Ignore => state::done(s, 0, 0, false),
        Accept::Hear => state::done(state::heard(s), 0, 0, false),
        Accept::Join => ask_state(s, state::catching_up_in(s, v), at, out),
        Accept::Rejoin => ask_state(s, state::catching_up_in(state::heard(s), v), at, out),
        Accept::Take => state::done(s, 0, 0, false),
    }
}

// send_prepare_ok, with our own op number
fn send_prepare_ok(s: Replica, out: &mut [u8]) -> usize
    requires { (0 < s.setup.n) × (16 ≤ length out.old) }
    ensures { (result ≡ 16) × (out.new ≡ over (prepare_ok_of s) out.old) }
{
    let v = s.view;
    let o = s.op;
    let to = config::primary_id(s.setup.n, v);
    writers::kinds::prepare_ok(out, to, v, o, s.setup.id)
}

// The state t commits up to k, and acknowledges its op number; `s` is the state as it was, for refusal 9.
pub fn acknowledge(
    s: Replica,
    t: Replica,
    k: Op,
    installed: bool,
    log: &[u8],
    results: &mut [u8],
    totals: &mut [u8],
    out: &mut [u8],
) -> Returned
    requires { Sound t (runs log.now results.old totals.old) × (k.0 ≤ t.op.0) }
    ensures { left result (runs log.now results.new totals.new) out.new ≡ committed_and_acked s t k installed (runs log.now results.old totals.old) out.old }
{
    if out.len() < 16 {
        return state::refused(Refusal::NoRoomForMessages, s);
    }
    let u = commit_up_to(t, k, log, results, totals);
    let w = send_prepare_ok(u, out);
    state::done(u, w, 0, installed)
}
