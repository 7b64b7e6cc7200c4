// Replays recorded calls through the replica's four calls and compares number, messages, replies, memory and state after each, and the takings by the call that says
// them. The format of the input is ../shared/vectors/FORMAT.md, with the lines `+` and `$` of host/README.md. No line, however wrong, asks for a `requires`. `playing` has
// the loop over the trace; here is the replica.
#![tactic(auto)]

use config::Setup;
use frames::Refusal;
use numbers::View;
use playing::lent::CallRuns;
use playing::program;
use playing::trace::Engine;
use replica::{call, create};
use state::{Replica, Returned};
use std::io;

// The replica over the table in bytes.
struct Bytes;

impl Engine for Bytes {
    fn create(u: Setup, lent: CallRuns) -> Returned {
        let CallRuns {
            log,
            results,
            totals,
            acks,
            table,
            stored,
            ..
        } = lent;
        create::create(u, log, results, totals, acks, stored, table)
    }

    fn recover(u: Setup, view: View, nonce: u64, lent: CallRuns) -> Returned {
        let CallRuns {
            log,
            results,
            totals,
            acks,
            table,
            stored,
            out,
            ..
        } = lent;
        create::recover(
            u, view, nonce, log, results, totals, acks, stored, table, out,
        )
    }

    fn on_message(s: Replica, frame: &[u8], lent: CallRuns) -> Returned {
        let CallRuns {
            log,
            results,
            totals,
            acks,
            table,
            stored,
            out,
            reps,
        } = lent;
        call::on_message(
            s, frame, log, results, totals, acks, stored, table, out, reps,
        )
    }

    fn on_idle(s: Replica, lent: CallRuns) -> Returned {
        let CallRuns {
            log,
            results,
            totals,
            acks,
            table,
            stored,
            out,
            reps,
        } = lent;
        call::on_idle(s, log, results, totals, acks, stored, table, out, reps)
    }

    fn takings(s: Replica) -> Result<u64, Refusal> {
        call::takings(s)
    }
}

fn main(rt: HostRuntime) -> io::Result<()> {
    program::run::<Bytes, _, _>(&mut rt.reader(), &mut io::writer(&rt))
}
