// A view begins: the end of record_do_view_change, once its log is installed.
ghost use Rattle.std.specs.Prelude.{◌≡◌, true, ◌++◌, ◌+◌, ◌-◌, ◌*◌, ◌≤◌, length};
ghost use Rattle.numbers.specs.Numbers.{over, Wrote};
ghost use Rattle.config.specs.Setup.{setup_ok};
ghost use Rattle.book.specs.Memory.{runs, money};
ghost use Rattle.state.specs.Lengths.{acks_length};
ghost use Rattle.steps.specs.Steps.{Sound};
ghost use Rattle.view_change.specs.StartView.{LogHeld};
ghost use Rattle.do_view_change.specs.Begin.{calls_first, first_length, start_views_length, start_views_of, own_acks, entered, owed, begun, begin_step};

use frames::Message;
use numbers::Op;
use state::{Replica, Returned};

// How long the StartViewChanges are that go out first.
pub fn first_len(first: bool, t: Replica) -> usize
    requires { setup_ok t.setup ≡ true }
    ensures { result ≡ first_length first t }
{
    if first {
        return 12 * (t.setup.n as usize - 1);
    }
    0
}

// StartViewChange to all others, where the call asks for the view.
pub fn call_first(first: bool, t: Replica, out: &mut [u8]) -> usize
    requires { (setup_ok t.setup ≡ true) × (first_length first t ≤ length out.old) }
    ensures { Wrote (calls_first first t) out.old out.new result }
{
    if first {
        let v = t.view;
        return view_change::start_view_change::call_others(t, v, out);
    }
    0
}

// How long the StartViews are, of a log of o entries.
pub fn start_views_len(t: Replica, o: Op) -> usize
    requires { (setup_ok t.setup ≡ true) × (o.0 ≤ t.setup.room) }
    ensures { result ≡ start_views_length (entered t o) }
{
    (t.setup.n as usize - 1) * (19 + 32 * (o.0 as usize))
}

// StartView to all others, after what goes out first.
fn send_start_views(t: Replica, u: Replica, first: bool, log: &[u8], out: &mut [u8]) -> usize
    requires { (setup_ok t.setup ≡ true) × (LogHeld u (length log.now) × (first_length first t + start_views_length u ≤ length out.old)) }
    ensures { Wrote (calls_first first t ++ start_views_of u log.now) out.old out.new result }
{
    let view = u.view;
    let op = u.op;
    let commit = u.commit;
    let m = Message::StartView { view, op, commit };
    let w = call_first(first, t, out);
    w + writers::broadcast(&mut out[w..], u.setup.n, u.setup.id, m, log)
}

// Our own ack for each op that isn't committed, none for the others.
fn own_acks(u: Replica, acks: &mut [u8])
    requires { (setup_ok u.setup ≡ true) × ((u.commit.0 ≤ u.op.0) × ((u.op.0 ≤ u.setup.room) × (length acks.old ≡ acks_length u.setup))) }
    ensures { acks.new ≡ over (own_acks u) acks.old }
{
    let c = entries::ack_place(u.commit.0 as usize);
    let k = (u.op.0 - u.commit.0) as usize;
    numbers::fill(acks, u.setup.room as usize, 0);
    numbers::fill(&mut acks[c..], k, config::insert(0, u.setup.id));
}

// From state t, with the installed log of o entries: commits up to g with a reply to each, acks anew, StartView to all others.
pub fn begin(
    t: Replica,
    o: Op,
    g: Op,
    first: bool,
    log: &[u8],
    results: &mut [u8],
    totals: &mut [u8],
    acks: &mut [u8],
    out: &mut [u8],
    reps: &mut [u8],
) -> Returned
    requires { Sound (entered t o) (runs log.now results.old totals.old) × ((g.0 ≤ o.0) × ((length acks.old ≡ acks_length t.setup) × ((first_length first t + start_views_length (entered t o) ≤ length out.old) × (36 * owed t g ≤ length reps.old)))) }
    ensures { begun result (money results.new totals.new) acks.new out.new reps.new ≡ begin_step t o g first log.now (money results.old totals.old) acks.old out.old reps.old }
{
    let v = t.view;
    let c = t.commit;
    let e = state::with_log(state::enter_normal(t, v), o, c);
    let u = steps::commit_up_to(e, g, log, results, totals);
    let count = (u.commit.0 - c.0) as usize;
    book::write_replies(log, results, v, c.0 as usize, count, reps);
    own_acks(u, acks);
    let w = send_start_views(t, u, first, log, out);
    state::done(u, w, 36 * count, true)
}
