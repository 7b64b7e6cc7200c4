// on_prepare
ghost use Rattle.std.specs.Prelude.{◌≡◌, ◌≤◌, ◌<◌};
ghost use Rattle.steps.specs.Steps.{Sound, left};
ghost use Rattle.book.specs.Memory.{runs};
ghost use Rattle.normal.specs.Prepare.{lower_of, append_verdict, appended_by, taken_prepare, prepare_step};
ghost use Rattle.normal.specs.PrepareNumber.{WeighsPrepare};

use client_table::Latest;
use entries::Entry;
use frames::Refusal;
use numbers::{Op, View};
use state::{Replica, Returned};

// What a backup does with the Prepare of op o: asks for what it misses; only commits and acknowledges, as it has the op; refuses it by 4 or 6; or
// appends it.
#[derive(Clone, Copy)]
pub enum PrepareVerdict {
    Transfer,
    Again,
    Refuse { refusal: Refusal },
    Append,
}

// What the Prepare says beside the view: op and commit number, the entry; and what the client table has of its client.
#[derive(Clone, Copy)]
pub struct Prepared {
    pub op: Op,
    pub commit: Op,
    pub entry: Entry,
    pub latest: Latest,
}

// The lower of two op numbers.
fn lower(a: Op, b: Op) -> Op
    ensures { result ≡ lower_of a b }
{
    if a.0 < b.0 {
        return a;
    }
    b
}

// Refusal 6 by the client's row: an entry of its latest number or an earlier one would not rise.
fn weigh_append(s: Replica, p: Prepared) -> PrepareVerdict
    ensures { result ≡ append_verdict s p }
{
    if s.setup.room <= s.op.0 {
        return PrepareVerdict::Refuse {
            refusal: Refusal::PastRoom,
        };
    }
    let latest = p.latest;
    if !client_table::is_new(latest, p.entry.request) {
        return PrepareVerdict::Refuse {
            refusal: Refusal::NotRising,
        };
    }
    PrepareVerdict::Append
}

fn weigh(s: Replica, p: Prepared) -> PrepareVerdict
    requires { s.op.0 ≤ 4096 }
    ensures { WeighsPrepare s p result }
{
    let next = s.op.0 + 1;
    if next < p.op.0 {
        return PrepareVerdict::Transfer;
    }
    if p.op.0 < next {
        return PrepareVerdict::Again;
    }
    weigh_append(s, p)
}

// The next op is appended; then it is committed and acknowledged as a re-sent one is.
fn append(
    s: Replica,
    p: Prepared,
    log: &mut [u8],
    results: &mut [u8],
    totals: &mut [u8],
    out: &mut [u8],
) -> Returned
    requires { Sound s (runs log.old results.old totals.old) × (s.op.0 < s.setup.room) }
    ensures { left result (runs log.new results.new totals.new) out.new ≡ appended_by s p (runs log.old results.old totals.old) out.old }
{
    if out.len() < 16 {
        return state::refused(Refusal::NoRoomForMessages, s);
    }
    let e = p.entry;
    let c = p.commit;
    let commit = s.commit;
    let op = Op(s.op.0 + 1);
    book::append(log, s.op.0 as usize, e);
    let t = state::with_log(state::heard(s), op, commit);
    steps::acknowledge(s, t, lower(c, op), false, log, results, totals, out)
}

fn take_prepare(
    s: Replica,
    p: Prepared,
    log: &mut [u8],
    results: &mut [u8],
    totals: &mut [u8],
    out: &mut [u8],
) -> Returned
    requires { Sound s (runs log.old results.old totals.old) }
    ensures { left result (runs log.new results.new totals.new) out.new ≡ taken_prepare s p (runs log.old results.old totals.old) out.old }
{
    let c = p.commit;
    let op = s.op;
    match weigh(s, p) {
        PrepareVerdict::Transfer => steps::state_transfer(s, out),
        PrepareVerdict::Again => {
            let u = state::heard(s);
            steps::acknowledge(s, u, lower(c, op), false, log, results, totals, out)
        }
        PrepareVerdict::Refuse { refusal } => state::refused(refusal, s),
        PrepareVerdict::Append => append(s, p, log, results, totals, out),
    }
}

// on_prepare
pub fn on_prepare(
    s: Replica,
    v: View,
    p: Prepared,
    log: &mut [u8],
    results: &mut [u8],
    totals: &mut [u8],
    out: &mut [u8],
) -> Returned
    requires { Sound s (runs log.old results.old totals.old) }
    ensures { left result (runs log.new results.new totals.new) out.new ≡ prepare_step s v p (runs log.old results.old totals.old) out.old }
{
    let a = steps::accept_from_primary(s, v);
    if steps::takes(a) {
        return take_prepare(s, p, log, results, totals, out);
    }
    steps::defer(a, s, v, out)
}
