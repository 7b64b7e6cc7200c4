// on_commit
ghost use Rattle.std.specs.Prelude.{◌≡◌};
ghost use Rattle.steps.specs.Steps.{Sound, left};
ghost use Rattle.book.specs.Memory.{runs};
ghost use Rattle.normal.specs.Commit.{taken_commit, commit_step};

use numbers::{Op, View};
use state::{Replica, Returned};

// A Commit past our log starts a state transfer.
fn take_commit(
    s: Replica,
    c: Op,
    log: &[u8],
    results: &mut [u8],
    totals: &mut [u8],
    out: &mut [u8],
) -> Returned
    requires { Sound s (runs log.now results.old totals.old) }
    ensures { left result (runs log.now results.new totals.new) out.new ≡ taken_commit s c (runs log.now results.old totals.old) out.old }
{
    if s.op.0 < c.0 {
        return steps::state_transfer(s, out);
    }
    let t = steps::commit_up_to(state::heard(s), c, log, results, totals);
    state::done(t, 0, 0, false)
}

// on_commit
pub fn on_commit(
    s: Replica,
    v: View,
    c: Op,
    log: &[u8],
    results: &mut [u8],
    totals: &mut [u8],
    out: &mut [u8],
) -> Returned
    requires { Sound s (runs log.now results.old totals.old) }
    ensures { left result (runs log.now results.new totals.new) out.new ≡ commit_step s v c (runs log.now results.old totals.old) out.old }
{
    let a = steps::accept_from_primary(s, v);
    if steps::takes(a) {
        return take_commit(s, c, log, results, totals, out);
    }
    steps::defer(a, s, v, out)
}
