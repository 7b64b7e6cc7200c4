// The idle clock: a struct by value; each method hands back the new clock and whether time is up.
#![tactic(auto)]

ghost use Rattle.std.specs.Prelude.{◌≡◌};
ghost use Rattle.clock.specs.Clock.{fresh_clock, limit_of, stable_tick, wait_tick, tick_of, heard_of, reset_of, start_of, restart_of};

// `heard`: from the primary since the last tick. `waiting`: ticks without it, or in a view change. `stable`: ticks with it, counted to T.
// `attempts`: view changes with no stable stretch in between, counted to 10.
#[derive(Clone, Copy, PartialEq, Eq, Debug)]
pub struct Clock {
    pub heard: bool,
    pub waiting: u32,
    pub stable: u16,
    pub attempts: u8,
}

// A clock, and whether time is up: a view change is due.
#[derive(Clone, Copy, PartialEq, Eq, Debug)]
pub struct Ticked {
    pub clock: Clock,
    pub up: bool,
}

// What a replica does as a tick comes: leads in Normal, follows in Normal or StateTransfer, or is in ViewChange.
#[derive(Clone, Copy, PartialEq, Eq, Debug)]
pub enum Duty {
    Lead,
    Follow,
    Change,
}

// The clock of a replica just created.
pub fn fresh() -> Clock
    ensures { result ≡ fresh_clock }
{
    Clock {
        heard: true,
        waiting: 0,
        stable: 0,
        attempts: 0,
    }
}

// How many ticks a wait lasts.
fn limit(timeout: u16, attempts: u8) -> u32
    ensures { result ≡ limit_of timeout attempts }
{
    (timeout as u32) << attempts.min(10)
}

impl Clock {
    // A tick of stable operation.
    fn stable_tick(self, timeout: u16) -> Clock
        ensures { result ≡ stable_tick timeout self }
    {
        let stable = self.stable.saturating_add(1).min(timeout);
        let attempts = if timeout <= stable { 0 } else { self.attempts };
        Clock {
            stable,
            attempts,
            ..self
        }
    }

    // A tick of a wait.
    fn wait_tick(self, timeout: u16) -> Ticked
        ensures { result ≡ wait_tick timeout self }
    {
        let waiting = self.waiting.saturating_add(1);
        Ticked {
            clock: Clock { waiting, ..self },
            up: limit(timeout, self.attempts) <= waiting,
        }
    }

    fn follow_tick(self, timeout: u16) -> Ticked
        ensures { result ≡ tick_of timeout Duty.Follow self }
    {
        let unheard = Clock {
            heard: false,
            ..self
        };
        if self.heard {
            let followed = Clock {
                waiting: 0,
                ..unheard
            };
            return Ticked {
                clock: followed.stable_tick(timeout),
                up: false,
            };
        }
        let waits = Clock {
            stable: 0,
            ..unheard
        };
        waits.wait_tick(timeout)
    }

    pub fn tick(self, timeout: u16, duty: Duty) -> Ticked
        ensures { result ≡ tick_of timeout duty self }
    {
        match duty {
            Duty::Lead => Ticked {
                clock: self.stable_tick(timeout),
                up: false,
            },
            Duty::Follow => self.follow_tick(timeout),
            Duty::Change => self.wait_tick(timeout),
        }
    }

    // The primary was heard from.
    pub fn heard(self) -> Ticked
        ensures { result ≡ heard_of self }
    {
        Ticked {
            clock: Clock {
                heard: true,
                ..self
            },
            up: false,
        }
    }

    // The replica comes to Normal from a view change or a recovery.
    pub fn reset(self) -> Ticked
        ensures { result ≡ reset_of self }
    {
        Ticked {
            clock: Clock {
                heard: true,
                waiting: 0,
                stable: 0,
                ..self
            },
            up: false,
        }
    }

    // A view change starts; `again`: from ViewChange.
    pub fn start(self, again: bool) -> Ticked
        ensures { result ≡ start_of again self }
    {
        let raised = self.attempts.saturating_add(1).min(10);
        let attempts = if again { raised } else { self.attempts };
        Ticked {
            clock: Clock {
                waiting: 0,
                attempts,
                ..self
            },
            up: false,
        }
    }

    // The replica catches up with a view that has started.
    pub fn restart(self) -> Ticked
        ensures { result ≡ restart_of self }
    {
        Ticked {
            clock: Clock { waiting: 0, ..self },
            up: false,
        }
    }
}
