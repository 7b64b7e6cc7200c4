// What is known of the trace so far. At its first difference a run ends.
ghost use Rattle.std.specs.Prelude.{◌≡◌};
ghost use Rattle.playing.specs.Counts.{next_of, no_play, next_line, ended, waiting, closed, titled_now, run_begun, going_on, too_large, a_client, state_due, right, state_right, further_right, takings_right};

use crate::{Due, LastCall, Play, Run, Tally};

fn next(x: u64) -> u64
    ensures { result ≡ next_of x }
{
    x.wrapping_add(1)
}

// What is due after an answer that is right: a refused creation has no state line.
fn state_due(run: Run) -> Option<Due>
    ensures { result ≡ state_due run }
{
    if run.created && run.last.answer.outcome.is_err() {
        None
    } else {
        Some(Due::State)
    }
}

impl Play {
    // Before the first line.
    pub fn new() -> Self
        ensures { result ≡ no_play }
    {
        Self::default()
    }

    // At the next line.
    pub fn next_line(self) -> Self
        ensures { result ≡ next_line self }
    {
        Play {
            line: next(self.line),
            ..self
        }
    }

    // The run differs in this line: the rest of it is passed over.
    pub fn ended(self) -> Self
        ensures { result ≡ ended self }
    {
        let tally = Tally {
            differ: next(self.tally.differ),
            ..self.tally
        };
        Play {
            titled: false,
            run: None,
            tally,
            ..self
        }
    }

    // What the run still waits for.
    pub fn waiting(self) -> Option<Due>
        ensures { result ≡ waiting self }
    {
        self.run?.due
    }

    // The run is over.
    pub fn closed(self) -> Self
        ensures { result ≡ closed self }
    {
        Play {
            titled: false,
            run: None,
            ..self
        }
    }

    // A title stands there.
    pub fn titled(self) -> Self
        ensures { result ≡ titled_now self }
    {
        Play {
            titled: true,
            ..self
        }
    }

    // A run begins, by this creation.
    pub fn begun(self, last: LastCall) -> Self
        ensures { result ≡ run_begun self last }
    {
        let run = Run {
            due: Some(Due::Answer),
            created: true,
            last,
            here: 0,
        };
        let tally = Tally {
            runs: next(self.tally.runs),
            ..self.tally
        };
        Play {
            run: Some(run),
            tally,
            ..self
        }
    }

    // A call of the run's replica was made.
    pub fn going_on(self, run: Run, last: LastCall) -> Self
        ensures { result ≡ going_on self run last }
    {
        let run = Run {
            due: Some(Due::Answer),
            created: false,
            last,
            ..run
        };
        Play {
            run: Some(run),
            ..self
        }
    }

    // A run that there is no room for; its title waits no longer.
    pub fn too_large(self) -> Self
        ensures { result ≡ too_large self }
    {
        let tally = Tally {
            larger: next(self.tally.larger),
            ..self.tally
        };
        Play {
            titled: false,
            tally,
            ..self
        }
    }

    pub fn client(self) -> Self
        ensures { result ≡ a_client self }
    {
        let tally = Tally {
            clients: next(self.tally.clients),
            ..self.tally
        };
        Play { tally, ..self }
    }

    // The run's answer is right; one to a creation isn't counted.
    pub fn right(self, run: Run) -> Self
        ensures { result ≡ right self run }
    {
        let due = state_due(run);
        if run.created {
            let run = Some(Run { due, ..run });
            return Play { run, ..self };
        }
        let run = Run {
            due,
            here: next(run.here),
            ..run
        };
        let tally = Tally {
            calls: next(self.tally.calls),
            ..self.tally
        };
        Play {
            run: Some(run),
            tally,
            ..self
        }
    }

    // The run's state is right.
    pub fn state_right(self, run: Run) -> Self
        ensures { result ≡ state_right self run }
    {
        let run = Some(Run { due: None, ..run });
        Play { run, ..self }
    }

    // Nonce and reports that are right.
    pub fn further_right(self) -> Self
        ensures { result ≡ further_right self }
    {
        let tally = Tally {
            further: next(self.tally.further),
            ..self.tally
        };
        Play { tally, ..self }
    }

    // Takings that are right.
    pub fn takings_right(self) -> Self
        ensures { result ≡ takings_right self }
    {
        let tally = Tally {
            takings: next(self.tally.takings),
            ..self.tally
        };
        Play { tally, ..self }
    }
}
