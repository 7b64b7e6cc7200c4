// What a replica does with a NewState.
ghost use Rattle.std.specs.Prelude.{◌≡◌, ◌-◌, ◌*◌, ◌≤◌, ◌<◌, length};
ghost use Rattle.steps.specs.Steps.{Sound, left};
ghost use Rattle.book.specs.Memory.{runs};
ghost use Rattle.transfer.specs.NewState.{PartPassed, transfer_use, change_use, gap_filled, installed, new_state_step};
ghost use Rattle.transfer.specs.UseNumber.{Uses};

use crate::{Part, Use};
use frames::{Refusal, Status};
use numbers::View;
use state::{Replica, Returned};

// In StateTransfer it must start at or before our log's end, and end beyond it.
fn use_in_transfer(s: Replica, p: Part) -> Use
    ensures { result ≡ transfer_use s p }
{
    if s.op.0 < p.start.0 {
        return Use::Hear;
    }
    if p.end.0 <= s.op.0 {
        return Use::Hear;
    }
    Use::Fill
}

// Catching up, it must start exactly at our commit number.
fn use_in_change(s: Replica, p: Part) -> Use
    ensures { result ≡ change_use s p }
{
    if !s.catching {
        return Use::Hear;
    }
    if p.start.0 != s.commit.0 {
        return Use::Hear;
    }
    Use::Install
}

fn use_of(s: Replica, v: View, p: Part) -> Use
    ensures { Uses s v p result }
{
    if v.0 != s.view.0 {
        return Use::Ignore;
    }
    let status = s.status;
    if state::is_transfer(status) {
        return use_in_transfer(s, p);
    }
    if state::is_changing(status) {
        return use_in_change(s, p);
    }
    Use::Hear // in Normal, and Recovering
}

// The excess is appended; acks stay as they are. `rest` begins with it.
fn fill(
    s: Replica,
    p: Part,
    rest: &[u8],
    log: &mut [u8],
    results: &mut [u8],
    totals: &mut [u8],
    out: &mut [u8],
) -> Returned
    requires { Sound s (runs log.old results.old totals.old) × ((s.op.0 < p.end.0) × (PartPassed s p × (32 * (p.end.0 - s.op.0) ≤ length rest.now))) }
    ensures { left result (runs log.new results.new totals.new) out.new ≡ gap_filled s p rest.now (runs log.old results.old totals.old) out.old }
{
    let n = s.op.0 as usize;
    let k = (p.end.0 - s.op.0) as usize;
    if !book::rises_after(log, n, rest, k) {
        return state::refused(Refusal::NotRising, s); // our log with the excess is not rising
    }
    if out.len() < 16 {
        return state::refused(Refusal::NoRoomForMessages, s);
    }
    let commit = s.commit;
    let end = p.end;
    let c = p.commit;
    book::append_part(log, n, rest, k);
    let t = state::with_log(
        state::with_status(state::heard(s), Status::Normal),
        end,
        commit,
    );
    steps::acknowledge(s, t, c, false, log, results, totals, out)
}

// What we had beyond our commit number is replaced; acks stay as they are.
fn install(
    s: Replica,
    p: Part,
    part: &[u8],
    log: &mut [u8],
    results: &mut [u8],
    totals: &mut [u8],
    out: &mut [u8],
) -> Returned
    requires { Sound s (runs log.old results.old totals.old) × ((p.start.0 ≡ s.commit.0) × (PartPassed s p × (32 * (p.end.0 - p.start.0) ≤ length part.now))) }
    ensures { left result (runs log.new results.new totals.new) out.new ≡ installed s p part.now (runs log.old results.old totals.old) out.old }
{
    let n = s.commit.0 as usize;
    let k = (p.end.0 - p.start.0) as usize;
    if !book::rises_after(log, n, part, k) {
        return state::refused(Refusal::NotRising, s); // what is committed, with the part, is not rising
    }
    if out.len() < 16 {
        return state::refused(Refusal::NoRoomForMessages, s);
    }
    let commit = s.commit;
    let end = p.end;
    let c = p.commit;
    let view = s.view;
    book::append_part(log, n, part, k);
    let t = state::with_log(state::enter_normal(s, view), end, commit);
    steps::acknowledge(s, t, c, true, log, results, totals, out)
}

// on_new_state; `part` begins with its entries. One of our view counts as heard, in Normal too.
pub fn on_new_state(
    s: Replica,
    v: View,
    p: Part,
    part: &[u8],
    log: &mut [u8],
    results: &mut [u8],
    totals: &mut [u8],
    out: &mut [u8],
) -> Returned
    requires { Sound s (runs log.old results.old totals.old) × (PartPassed s p × (32 * (p.end.0 - p.start.0) ≤ length part.now)) }
    ensures { left result (runs log.new results.new totals.new) out.new ≡ new_state_step s v p part.now (runs log.old results.old totals.old) out.old }
{
    match use_of(s, v, p) {
        Use::Ignore => state::done(s, 0, 0, false),
        Use::Hear => state::done(state::heard(s), 0, 0, false),
        Use::Fill => {
            let skip = 32 * ((s.op.0 - p.start.0) as usize);
            fill(s, p, &part[skip..], log, results, totals, out)
        }
        Use::Install => install(s, p, part, log, results, totals, out),
    }
}
