// State transfer: what a replica answers to a GetState, what it does with a NewState, and a tick that waits for one.
#![tactic(auto)]

ghost use Rattle.std.specs.Prelude.{◌≡◌, ◌<◌};
ghost use Rattle.steps.specs.Steps.{spoke};
ghost use Rattle.transfer.specs.Tick.{transfer_tick};

use clock::Clock;
use numbers::Op;
use state::{Replica, Returned};

pub mod get_state; // on_get_state
pub mod new_state; // on_new_state

// The numbers of a NewState beside its view: its entries are those after op `start`, up to op `end`.
#[derive(Clone, Copy)]
pub struct Part {
    pub start: Op,
    pub end: Op,
    pub commit: Op,
}

// What a NewState is used for: nothing; to have heard it; to fill the gap after our log; or to replace what isn't committed.
#[derive(Clone, Copy)]
pub enum Use {
    Ignore,
    Hear,
    Fill,
    Install,
}

// on_idle in StateTransfer, of a tick after which the wait isn't over: GetState again. `c` is the clock after it.
pub fn tick_transfer(s: Replica, c: Clock, out: &mut [u8]) -> Returned
    requires { 0 < s.setup.n }
    ensures { spoke result out.new ≡ transfer_tick s c out.old }
{
    let at = s.op;
    steps::ask_state(s, state::with_clock(s, c), at, out)
}
