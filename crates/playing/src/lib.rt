// Recorded calls played: what a line of a trace asks for, what is known of the trace so far, and a whole trace, through the replica that a program brings.
#![tactic(auto)]

use config::Setup;
use numbers::View;
use state::Returned;

pub mod asking; // what a line asks for
pub mod counts; // what is known of the trace so far
pub mod lent; // the memory of the calls
pub mod program; // the input's trace, to the output
pub mod say; // what differs, and the counts, in words
pub mod trace; // a whole trace

// How a run's replica begins: `new`, or `recover` with what is handed over by value.
#[derive(Clone, Copy)]
pub enum Creation {
    Create,
    Recover { view: View, nonce: u64 },
}

// A call of the run's replica.
#[derive(Clone, Copy)]
pub enum RunCall {
    Message,
    Idle,
}

// How many bytes a call's areas for messages and replies have.
#[derive(Clone, Copy)]
pub struct AreaSizes {
    pub messages: usize,
    pub replies: usize,
}

// What the next line of a run has to say.
#[derive(Clone, Copy)]
pub enum Due {
    Answer,
    State,
}

// A line of a run that is played: another one is missing before it; it is no line of a trace; a call of the run's replica; or a comparison with its answer, its state,
// and behind the state with nonce and reports or the takings.
#[derive(Clone, Copy)]
pub enum RunLine {
    Missing { due: Due },
    Unknown,
    Go { by: RunCall, areas: AreaSizes },
    Answer,
    State,
    Further,
    Takings,
}

// What a line asks for: nothing; a run of sizes that there is no room for; a client's run; a creation; or something of the run that is played.
#[derive(Clone, Copy)]
pub enum Asked {
    Nothing,
    Larger,
    Client,
    Begin {
        by: Creation,
        setup: Setup,
        areas: AreaSizes,
    },
    OfRun {
        run: Run,
        line: RunLine,
    },
}

// A call that was made: its areas, the digest of the memory before it, and what it answered.
#[derive(Clone, Copy)]
pub struct LastCall {
    pub areas: AreaSizes,
    pub before: u64,
    pub answer: Returned,
}

// A run that is played. `due`: what its next line has to say, if that isn't free. `created`: the last call was the creation. `here`: calls behind the creation whose
// answers were as recorded.
#[derive(Clone, Copy)]
pub struct Run {
    pub due: Option<Due>,
    pub created: bool,
    pub last: LastCall,
    pub here: u64,
}

// Runs, calls whose answers were as recorded, lines of nonce and reports that were, lines of takings that were, runs that differ, and what is passed over.
#[derive(Clone, Copy, Default)]
pub struct Tally {
    pub runs: u64,
    pub calls: u64,
    pub further: u64,
    pub takings: u64,
    pub differ: u64,
    pub clients: u64,
    pub larger: u64,
}

// `line`: the number of the line. `titled`: a run's title stands there, and waits for the verdict. Without a run lines are passed over.
#[derive(Clone, Copy, Default)]
pub struct Play {
    pub line: u64,
    pub titled: bool,
    pub run: Option<Run>,
    pub tally: Tally,
}
