// Replays recorded calls through the four calls of the replica whose client table is a slice of row structs, and compares number, messages, replies, memory and state
// after each, and the takings by the call that says them, as `replay` does. The format of the input is ../shared/vectors/FORMAT.md, with the lines `+` and `$` of
// host/README.md. No line, however wrong, asks for a `requires`. `playing` has the loop over the trace; here is the replica.
#![tactic(auto)]

use config::Setup;
use frames::Refusal;
use numbers::View;
use playing::lent::CallRuns;
use playing::program;
use playing::trace::Engine;
use state::{Replica, Returned};
use std::io;

mod rows; // a table in bytes, and as rows

// The replica over rows of structs, which are read from the table's bytes before a call and written back after it.
struct Structs;

impl Engine for Structs {
    fn create(u: Setup, lent: CallRuns) -> Returned {
        let CallRuns {
            log,
            results,
            totals,
            acks,
            table,
            stored,
            ..
        } = lent;
        rows::over(table, |rows| {
            replica_structs::create(u, log, results, totals, acks, stored, rows)
        })
    }

    fn recover(u: Setup, view: View, nonce: u64, lent: CallRuns) -> Returned {
        let CallRuns {
            log,
            results,
            totals,
            acks,
            table,
            stored,
            out,
            ..
        } = lent;
        rows::over(table, |rows| {
            replica_structs::recover(
                u, view, nonce, log, results, totals, acks, stored, rows, out,
            )
        })
    }

    fn on_message(s: Replica, frame: &[u8], lent: CallRuns) -> Returned {
        let CallRuns {
            log,
            results,
            totals,
            acks,
            table,
            stored,
            out,
            reps,
        } = lent;
        rows::over(table, |rows| {
            replica_structs::on_message(
                s, frame, log, results, totals, acks, stored, rows, out, reps,
            )
        })
    }

    fn on_idle(s: Replica, lent: CallRuns) -> Returned {
        let CallRuns {
            log,
            results,
            totals,
            acks,
            table,
            stored,
            out,
            reps,
        } = lent;
        rows::over(table, |rows| {
            replica_structs::on_idle(s, log, results, totals, acks, stored, rows, out, reps)
        })
    }

    fn takings(s: Replica) -> Result<u64, Refusal> {
        replica_structs::takings(s)
    }
}

fn main(rt: HostRuntime) -> io::Result<()> {
    program::run::<Structs, _, _>(&mut rt.reader(), &mut io::writer(&rt))
}
