// on_idle: what a tick does, by status.
ghost use Rattle.std.specs.Prelude.{◌≡◌, true, length};
ghost use Rattle.config.specs.Setup.{setup_ok};
ghost use Rattle.steps.specs.Steps.{spoke};
ghost use Rattle.normal.specs.Tick.{Leading};
ghost use Rattle.steps.specs.Recorded.{Gathering, Does};
ghost use Rattle.book.specs.Memory.{memory};
ghost use Rattle.handlers.specs.Handlers.{follow_tick, normal_tick, ask_tick, idle_step};

use clock::{Duty, Ticked};
use state::{Replica, Returned};

// A backup's: it waits, and then asks for the next view. `t` is what its clock's tick gave.
fn tick_follow(s: Replica, t: Ticked, out: &mut [u8]) -> Returned
    requires { setup_ok s.setup ≡ true }
    ensures { spoke result out.new ≡ follow_tick s t out.old }
{
    let c = t.clock;
    if t.up {
        return voting::tick::next_view(s, c, out);
    }
    normal::tick::tick_backup(s, c)
}

// In Normal.
fn tick_normal(s: Replica, log: &[u8], out: &mut [u8]) -> Returned
    requires { Leading s (length log.now) }
    ensures { spoke result out.new ≡ normal_tick s log.now out.old }
{
    if state::is_primary(s) {
        return normal::tick::tick_primary(s, log, out);
    }
    let c = s.clock;
    tick_follow(s, c.tick(s.setup.timeout, Duty::Follow), out)
}

// In StateTransfer: GetState on each tick, before a view change too.
fn tick_asking(s: Replica, t: Ticked, out: &mut [u8]) -> Returned
    requires { setup_ok s.setup ≡ true }
    ensures { spoke result out.new ≡ ask_tick s t out.old }
{
    let clock = t.clock;
    if t.up {
        return voting::tick::next_view_asking(s, clock, out);
    }
    transfer::tick_transfer(s, clock, out)
}

// on_idle
pub fn on_idle(
    s: Replica,
    log: &mut [u8],
    results: &mut [u8],
    totals: &mut [u8],
    acks: &mut [u8],
    stored: &mut [u8],
    out: &mut [u8],
    reps: &mut [u8],
) -> Returned
    requires { Gathering s (memory log.old results.old totals.old acks.old stored.old out.old reps.old) }
    ensures { Does (idle_step s) result (memory log.old results.old totals.old acks.old stored.old out.old reps.old) (memory log.new results.new totals.new acks.new stored.new out.new reps.new) }
{
    let status = s.status;
    if state::is_normal(status) {
        return tick_normal(s, log, out);
    }
    let c = s.clock;
    if state::is_transfer(status) {
        return tick_asking(s, c.tick(s.setup.timeout, Duty::Follow), out);
    }
    if state::is_changing(status) {
        let t = c.tick(s.setup.timeout, Duty::Change);
        let k = t.clock;
        return voting::tick::tick_change(s, k, t.up, log, results, totals, acks, stored, out, reps);
    }
    recovery::tick_recovering(s, out)
}
