// on_idle in Normal: of a primary, and of a backup whose wait isn't over.
ghost use Rattle.std.specs.Prelude.{◌≡◌, ◌+◌, ◌-◌, ◌*◌, ◌≤◌, ◌<◌, length};
ghost use Rattle.numbers.specs.Numbers.{Wrote};
ghost use Rattle.steps.specs.Steps.{spoke};
ghost use Rattle.normal.specs.Tick.{Leading, heartbeat_length, prepares_length, prepares_to, prepares_of, primary_tick, backup_tick};

use clock::{Clock, Duty};
use frames::{Message, Refusal};
use numbers::Op;
use state::{Replica, Returned};

// The Prepare of the op after the first i, to all others.
fn send_prepare(s: Replica, i: u32, log: &[u8], out: &mut [u8]) -> usize
    requires { Leading s (length log.now) × ((i < s.op.0) × (prepares_length s 1 ≤ length out.old)) }
    ensures { Wrote (prepares_to s i log.now) out.old out.new result }
{
    let view = s.view;
    let commit = s.commit;
    let m = Message::Prepare {
        view,
        op: Op(i + 1),
        commit,
        entry: entries::entry_in(log, i as usize),
    };
    writers::broadcast(out, s.setup.n, s.setup.id, m, log)
}

// The Prepares of all ops that aren't committed, in order.
fn send_prepares(s: Replica, log: &[u8], out: &mut [u8]) -> usize
    requires { Leading s (length log.now) × (prepares_length s (s.op.0 - s.commit.0) ≤ length out.old) }
    ensures { Wrote (prepares_of s log.now (s.op.0 - s.commit.0)) out.old out.new result }
{
    let mut at = 0;
    for i in s.commit.0..s.op.0 {
        at += send_prepare(s, i, log, &mut out[at..]);
    }
    at
}

// How long the messages of a tick are.
fn tick_len(s: Replica) -> usize
    requires { Leading s (32 * s.setup.room) }
    ensures { result ≡ heartbeat_length s + prepares_length s (s.op.0 - s.commit.0) }
{
    let others = s.setup.n as usize - 1;
    let ops = (s.op.0 - s.commit.0) as usize;
    15 * others + 51 * others * ops
}

// The heartbeat, then a Prepare for every op that isn't committed.
pub fn tick_primary(s: Replica, log: &[u8], out: &mut [u8]) -> Returned
    requires { Leading s (length log.now) }
    ensures { spoke result out.new ≡ primary_tick s log.now out.old }
{
    if out.len() < tick_len(s) {
        return state::refused(Refusal::NoRoomForMessages, s);
    }
    let c = s.clock;
    let view = s.view;
    let committed = s.commit;
    let w = writers::broadcast(
        out,
        s.setup.n,
        s.setup.id,
        Message::Commit {
            view,
            commit: committed,
        },
        log,
    );
    let p = send_prepares(s, log, &mut out[w..]);
    let t = c.tick(s.setup.timeout, Duty::Lead);
    state::done(state::with_clock(s, t.clock), w + p, 0, false)
}

// A backup's tick after which the wait isn't over; `c` is the clock after it. Nothing is sent.
pub fn tick_backup(s: Replica, c: Clock) -> Returned
    ensures { result ≡ backup_tick s c }
{
    state::done(state::with_clock(s, c), 0, 0, false)
}
