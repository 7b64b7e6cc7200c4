// on_message and on_idle: refusals 1 to 6, the client's row, the core, and the client table brought up to what the core did.
ghost use Rattle.std.specs.Prelude.{◌≡◌, Ok, length, ◌*◌, ◌≤◌};
ghost use Rattle.frames.specs.Kinds.{well_formed};
ghost use Rattle.frames.specs.Refusals.{check_frame};
ghost use Rattle.client_table.specs.Found.{AppendsFor};
ghost use Rattle.client_table_bytes.specs.Layout.{byte_row, rows_of};
ghost use Rattle.state.specs.Answers.{code_of, offset_of_answer};
ghost use Rattle.state.specs.Lengths.{table_length};
ghost use Rattle.steps.specs.Recorded.{Gathering};
ghost use Rattle.book.specs.Memory.{memory};
ghost use Rattle.offsets.specs.Offsets.{Points};
ghost use Rattle.outside.specs.Calls.{change_by};
ghost use Rattle.replica.specs.Calls.{found_for, latest_found, Following, tabled, followed_by, checked_call};
ghost use Rattle.replica.specs.Lent.{called, Keeps, lent};
ghost use Rattle.replica.specs.Promise.{MessagePromise, IdlePromise, TakingsPromise};

use client_table::{Found, Latest};
use client_table_bytes::{ByteRows, MarkedRow};
use frames::{Message, Refusal};
use outside::Lengths;
use state::{Replica, Returned};

// What is found of the client whose entry a message carries, among the first n rows.
fn found_for(m: Message, n: u32, table: &[u8]) -> Option<Found<MarkedRow>>
    requires { 25 * n ≤ length table.now }
    ensures { result ≡ found_for m n table.now }
{
    let client = outside::call::carried_by(m)?;
    Some(client_table::find::<ByteRows>(table, n as usize, client))
}

// The same as the core is told it.
fn latest_found(f: Option<Found<MarkedRow>>) -> Latest
    ensures { result ≡ latest_found f }
{
    match f {
        Some(found) => client_table::told::<ByteRows>(found),
        None => Latest::Nothing,
    }
}

// The table follows what the core did, `s` being the state before it; a refused call leaves it.
fn follow(s: Replica, a: Returned, log: &[u8], results: &[u8], table: &mut [u8]) -> Returned
    requires { Following s a (length log.now) (length results.now) (length table.old) }
    ensures { tabled result table.new ≡ followed_by s a log.now results.now table.old }
{
    if a.outcome.is_err() {
        return a;
    }
    let k = outside::call::change_by(s, a);
    client_table::follow::<ByteRows>(table, s.setup.room as usize, log, results, k);
    a
}

// The same after a message that carries an entry; f is what was found of its client. A log is never installed then.
fn follow_found(
    s: Replica,
    a: Returned,
    f: Found<MarkedRow>,
    log: &[u8],
    results: &[u8],
    table: &mut [u8],
) -> Returned
    requires { Following s a (length log.now) (length results.now) (length table.old) × (code_of a ≡ 0 → AppendsFor byte_row (change_by s a) f (rows_of s.setup.room table.old) log.now) }
    ensures { tabled result table.new ≡ followed_by s a log.now results.now table.old }
{
    if a.outcome.is_err() {
        return a;
    }
    let k = outside::call::change_by(s, a);
    client_table::follow_found::<ByteRows>(table, s.setup.room as usize, f, log, results, k);
    a
}

// A frame that passed refusals 2 to 6.
fn take(
    s: Replica,
    m: Message,
    frame: &[u8],
    log: &mut [u8],
    results: &mut [u8],
    totals: &mut [u8],
    acks: &mut [u8],
    stored: &mut [u8],
    table: &mut [u8],
    out: &mut [u8],
    reps: &mut [u8],
) -> Returned
    requires { Gathering s (memory log.old results.old totals.old acks.old stored.old out.old reps.old) × ((check_frame s.setup frame.now ≡ Ok m) × (length table.old ≡ table_length s.setup)) }
    ensures { called result (lent log.new results.new totals.new acks.new stored.new table.new out.new reps.new) ≡ checked_call (Ok m) s frame.now (lent log.old results.old totals.old acks.old stored.old table.old out.old reps.old) }
{
    let found = found_for(m, s.setup.room, table);
    let latest = latest_found(found);
    let a = handlers::message::on_message(
        s, m, latest, frame, log, results, totals, acks, stored, out, reps,
    );
    match found {
        Some(f) => follow_found(s, a, f, log, results, table),
        None => follow(s, a, log, results, table),
    }
}

// on_message: any bytes, in any state, with any memory.
pub fn on_message(
    s: Replica,
    frame: &[u8],
    log: &mut [u8],
    results: &mut [u8],
    totals: &mut [u8],
    acks: &mut [u8],
    stored: &mut [u8],
    table: &mut [u8],
    out: &mut [u8],
    reps: &mut [u8],
) -> Returned
    ensures { Keeps (MessagePromise s frame.now) result
        (lent log.old results.old totals.old acks.old stored.old table.old out.old reps.old)
        (lent log.new results.new totals.new acks.new stored.new table.new out.new reps.new) × Points well_formed frame.now (code_of result) (offset_of_answer result) }
{
    let l = Lengths {
        log: log.len(),
        results: results.len(),
        totals: totals.len(),
        acks: acks.len(),
        stored: stored.len(),
        table: table.len(),
    };
    match outside::call::checked(s, l, frame) {
        Err(refusal) => state::refused(refusal, s),
        Ok(message) => take(
            s, message, frame, log, results, totals, acks, stored, table, out, reps,
        ),
    }
}

// on_idle: a tick, in any state, with any memory.
pub fn on_idle(
    s: Replica,
    log: &mut [u8],
    results: &mut [u8],
    totals: &mut [u8],
    acks: &mut [u8],
    stored: &mut [u8],
    table: &mut [u8],
    out: &mut [u8],
    reps: &mut [u8],
) -> Returned
    ensures { Keeps (IdlePromise s) result (lent log.old results.old totals.old acks.old stored.old table.old out.old reps.old) (lent log.new results.new totals.new acks.new stored.new table.new out.new reps.new) }
{
    let l = Lengths {
        log: log.len(),
        results: results.len(),
        totals: totals.len(),
        acks: acks.len(),
        stored: stored.len(),
        table: table.len(),
    };
    if !outside::sound::is_sound(s, l) {
        return state::refused(Refusal::OutOfRange, s);
    }
    let a = handlers::idle::on_idle(s, log, results, totals, acks, stored, out, reps);
    follow(s, a, log, results, table)
}

// takings: the sum over all members that the state keeps, in any state.
pub fn takings(s: Replica) -> Result<u64, Refusal>
    ensures { TakingsPromise s result }
{
    outside::takings::takings(s)
}
