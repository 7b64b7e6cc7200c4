// Creation: `new`, and `recover` for a replica that is back from a crash, on the runs that they zero and the lengths of all.
ghost use Rattle.std.specs.Prelude.{◌≡◌, true, [], length, replicate};
ghost use Rattle.numbers.specs.Numbers.{over};
ghost use Rattle.config.specs.Setup.{setup_ok};
ghost use Rattle.state.specs.Lengths.{totals_length, acks_length};
ghost use Rattle.outside.specs.Sound.{no_replica};
ghost use Rattle.outside.specs.Creation.{started, create_step, recover_step};

use crate::{Lengths, sound};
use clock::Clock;
use config::Setup;
use frames::{Refusal, Status};
use numbers::View;
use state::{Replica, Returned};

// The all-zero state, which refusal 1 then catches.
pub fn no_replica() -> Replica
    ensures { result ≡ no_replica }
{
    let setup = Setup {
        n: 0,
        id: 0,
        timeout: 0,
        room: 0,
        members: 0,
    };
    let clock = Clock {
        heard: false,
        waiting: 0,
        stable: 0,
        attempts: 0,
    };
    state::with_clock(state::new(setup, Status::Normal, View(0), 0), clock)
}

// Totals and acks are zeroed.
fn empty(u: Setup, totals: &mut [u8], acks: &mut [u8])
    requires { (setup_ok u ≡ true) × ((length totals.old ≡ totals_length u) × (length acks.old ≡ acks_length u)) }
    ensures { (totals.new ≡ over (replicate (totals_length u) 0) totals.old) × (acks.new ≡ over (replicate (acks_length u) 0) acks.old) }
{
    numbers::fill(totals, 8 * (u.members as usize), 0);
    numbers::fill(acks, u.room as usize, 0);
}

// new: in Normal, in view 0, with an empty log. Refusal 1.
pub fn create(u: Setup, l: Lengths, totals: &mut [u8], acks: &mut [u8]) -> Returned
    requires { (l.totals ≡ length totals.old) × (l.acks ≡ length acks.old) }
    ensures { started result totals.new acks.new [] ≡ create_step u l totals.old acks.old [] }
{
    if !sound::is_creatable(u, l) {
        return state::refused(Refusal::OutOfRange, no_replica());
    }
    empty(u, totals, acks);
    state::done(state::new(u, Status::Normal, View(0), 0), 0, 0, false)
}

// recover: in Recovering, with the view that was persisted and a nonce that was never used; Recovery to all others. 1, then 9.
pub fn recover(
    u: Setup,
    v: View,
    nonce: u64,
    l: Lengths,
    totals: &mut [u8],
    acks: &mut [u8],
    out: &mut [u8],
) -> Returned
    requires { (l.totals ≡ length totals.old) × (l.acks ≡ length acks.old) }
    ensures { started result totals.new acks.new out.new ≡ recover_step u v nonce l totals.old acks.old out.old }
{
    if !sound::is_creatable(u, l) {
        return state::refused(Refusal::OutOfRange, no_replica());
    }
    if out.len() < 20 * (u.n as usize - 1) {
        return state::refused(Refusal::NoRoomForMessages, no_replica());
    }
    empty(u, totals, acks);
    recovery::tick_recovering(state::new(u, Status::Recovering, v, nonce), out)
}
