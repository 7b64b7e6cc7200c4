// The outside calls but for the client table, of which they are told its length and a client's latest request.
ghost use Rattle.std.specs.Prelude.{◌≡◌, []};
ghost use Rattle.book.specs.Memory.{memory};
ghost use Rattle.frames.specs.Numbered.{checked_offset};
ghost use Rattle.state.specs.Answers.{offset_of_answer};
ghost use Rattle.steps.specs.Recorded.{Does};
ghost use Rattle.outside.specs.Calls.{checked_of};
ghost use Rattle.replica_structs.specs.Core.{lengths_by, client_in, Passes, checked_core, idle_core, create_core, recover_core, change_after, row_bytes};

use client_table::{Change, Latest};
use config::Setup;
use frames::{Message, Refusal};
use numbers::{Op, View};
use outside::Lengths;
use state::{Replica, Returned};

// How many bytes so many rows would have; of more than any table has, none.
fn in_bytes(rows: usize) -> usize
    ensures { result ≡ row_bytes rows }
{
    if 4096 < rows {
        return 0;
    }
    25 * rows
}

// Refusal 1, then what refusals 2 to 6 on the frame alone say; of what is lent beside it only the lengths.
pub fn checked(
    s: Replica,
    log: usize,
    results: usize,
    totals: usize,
    acks: usize,
    stored: usize,
    rows: usize,
    frame: &[u8],
) -> Result<Message, Refusal>
    ensures { result ≡ checked_of s (lengths_by log results totals acks stored rows) frame.now }
{
    let l = Lengths {
        log,
        results,
        totals,
        acks,
        stored,
        table: in_bytes(rows),
    };
    outside::call::checked(s, l, frame)
}

// The client whose row is asked for.
pub fn client_in(c: Result<Message, Refusal>) -> Option<u64>
    ensures { result ≡ client_in c }
{
    match c {
        Ok(message) => outside::call::carried_by(message),
        Err(_) => None,
    }
}

// on_message: what refusals 1 to 6 say; the handler.
pub fn on_message(
    s: Replica,
    c: Result<Message, Refusal>,
    latest: Latest,
    frame: &[u8],
    log: &mut [u8],
    results: &mut [u8],
    totals: &mut [u8],
    acks: &mut [u8],
    stored: &mut [u8],
    out: &mut [u8],
    reps: &mut [u8],
) -> Returned
    requires { Passes c s frame.now (memory log.old results.old totals.old acks.old stored.old out.old reps.old) }
    ensures { Does (checked_core c s latest frame.now) result
        (memory log.old results.old totals.old acks.old stored.old out.old reps.old)
        (memory log.new results.new totals.new acks.new stored.new out.new reps.new) × (offset_of_answer result ≡ checked_offset c) }
{
    match c {
        Err(refusal) => state::refused(refusal, s),
        Ok(message) => handlers::message::on_message(
            s,
            message,
            outside::call::told(message, latest),
            frame,
            log,
            results,
            totals,
            acks,
            stored,
            out,
            reps,
        ),
    }
}

// on_idle
pub fn on_idle(
    s: Replica,
    rows: usize,
    log: &mut [u8],
    results: &mut [u8],
    totals: &mut [u8],
    acks: &mut [u8],
    stored: &mut [u8],
    out: &mut [u8],
    reps: &mut [u8],
) -> Returned
    ensures { Does (idle_core s rows) result (memory log.old results.old totals.old acks.old stored.old out.old reps.old) (memory log.new results.new totals.new acks.new stored.new out.new reps.new) }
{
    let l = Lengths {
        log: log.len(),
        results: results.len(),
        totals: totals.len(),
        acks: acks.len(),
        stored: stored.len(),
        table: in_bytes(rows),
    };
    if !outside::sound::is_sound(s, l) {
        return state::refused(Refusal::OutOfRange, s);
    }
    handlers::idle::on_idle(s, log, results, totals, acks, stored, out, reps)
}

// new
pub fn create(
    u: Setup,
    rows: usize,
    log: &[u8],
    results: &[u8],
    totals: &mut [u8],
    acks: &mut [u8],
    stored: &[u8],
) -> Returned
    ensures { Does (create_core u rows) result (memory log.now results.now totals.old acks.old stored.now [] []) (memory log.now results.now totals.new acks.new stored.now [] []) }
{
    let l = Lengths {
        log: log.len(),
        results: results.len(),
        totals: totals.len(),
        acks: acks.len(),
        stored: stored.len(),
        table: in_bytes(rows),
    };
    outside::create::create(u, l, totals, acks)
}

// recover: 1, then 9.
pub fn recover(
    u: Setup,
    v: View,
    nonce: u64,
    rows: usize,
    log: &[u8],
    results: &[u8],
    totals: &mut [u8],
    acks: &mut [u8],
    stored: &[u8],
    out: &mut [u8],
) -> Returned
    ensures { Does (recover_core u v nonce rows) result (memory log.now results.now totals.old acks.old stored.now out.old []) (memory log.now results.now totals.new acks.new stored.now out.new []) }
{
    let l = Lengths {
        log: log.len(),
        results: results.len(),
        totals: totals.len(),
        acks: acks.len(),
        stored: stored.len(),
        table: in_bytes(rows),
    };
    outside::create::recover(u, v, nonce, l, totals, acks, out)
}

// What the table has to follow: nothing after a refusal.
pub fn change_after(s: Replica, a: Returned) -> Change
    ensures { result ≡ change_after s a }
{
    if a.outcome.is_err() {
        return Change {
            installed: false,
            op: Op(0),
            commit: Op(0),
            to: Op(0),
            done: Op(0),
        };
    }
    outside::call::change_by(s, a)
}
