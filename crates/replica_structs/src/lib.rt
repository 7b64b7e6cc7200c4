// The replica for callers in Rattle, with the client table as a slice of row structs: creation, recovery, a frame, a tick, the takings. None asks anything of its caller. Each is thin:
// refusals 1 to 6, the row that the core asks for, the core, and the table brought up to what it did.
#![tactic(auto)]

ghost use Rattle.std.specs.Prelude.{◌≡◌, []};
ghost use Rattle.offsets.specs.Offsets.{Points};
ghost use Rattle.frames.specs.Kinds.{well_formed};
ghost use Rattle.state.specs.Answers.{code_of, offset_of_answer};
ghost use Rattle.replica_structs.specs.Calls.{KeepsRows, latest_in, lent_rows};
ghost use Rattle.replica.specs.Promise.{TakingsPromise};
ghost use Rattle.replica_structs.specs.Promise.{MessageRowsPromise, IdleRowsPromise, CreateRowsPromise, RecoverRowsPromise};

use client_table::Latest;
use client_table_structs::Row;
use config::Setup;
use frames::Refusal;
use numbers::View;
use state::{Replica, Returned};

pub mod kernel; // the calls but for the table

// new
pub fn create(
    u: Setup,
    log: &[u8],
    results: &[u8],
    totals: &mut [u8],
    acks: &mut [u8],
    stored: &[u8],
    table: &mut [Row],
) -> Returned
    ensures { KeepsRows (CreateRowsPromise u) result (lent_rows log.now results.now totals.old acks.old stored.now table.old [] []) (lent_rows log.now results.now totals.new acks.new stored.now table.new [] []) }
{
    let n = table.len();
    let a = kernel::create(u, n, log, results, totals, acks, stored);
    if a.outcome.is_err() {
        return a;
    }
    client_table_structs::clear(table);
    a
}

// recover
pub fn recover(
    u: Setup,
    v: View,
    nonce: u64,
    log: &[u8],
    results: &[u8],
    totals: &mut [u8],
    acks: &mut [u8],
    stored: &[u8],
    table: &mut [Row],
    out: &mut [u8],
) -> Returned
    ensures { KeepsRows (RecoverRowsPromise u v nonce) result (lent_rows log.now results.now totals.old acks.old stored.now table.old out.old []) (lent_rows log.now results.now totals.new acks.new stored.now table.new out.new []) }
{
    let n = table.len();
    let a = kernel::recover(u, v, nonce, n, log, results, totals, acks, stored, out);
    if a.outcome.is_err() {
        return a;
    }
    client_table_structs::clear(table);
    a
}

// What the table has of the client that is asked for.
fn latest_in(table: &[Row], client: Option<u64>) -> Latest
    ensures { result ≡ latest_in table.now client }
{
    match client {
        Some(id) => client_table_structs::latest(table, id),
        None => Latest::Nothing,
    }
}

// on_message
pub fn on_message(
    s: Replica,
    frame: &[u8],
    log: &mut [u8],
    results: &mut [u8],
    totals: &mut [u8],
    acks: &mut [u8],
    stored: &mut [u8],
    table: &mut [Row],
    out: &mut [u8],
    reps: &mut [u8],
) -> Returned
    ensures { KeepsRows (MessageRowsPromise s frame.now) result
        (lent_rows log.old results.old totals.old acks.old stored.old table.old out.old reps.old)
        (lent_rows log.new results.new totals.new acks.new stored.new table.new out.new reps.new) × Points well_formed frame.now (code_of result) (offset_of_answer result) }
{
    let n = table.len();
    let c = kernel::checked(
        s,
        log.len(),
        results.len(),
        totals.len(),
        acks.len(),
        stored.len(),
        n,
        frame,
    );
    let latest = latest_in(table, kernel::client_in(c));
    let a = kernel::on_message(
        s, c, latest, frame, log, results, totals, acks, stored, out, reps,
    );
    client_table_structs::follow(table, log, results, kernel::change_after(s, a));
    a
}

// on_idle
pub fn on_idle(
    s: Replica,
    log: &mut [u8],
    results: &mut [u8],
    totals: &mut [u8],
    acks: &mut [u8],
    stored: &mut [u8],
    table: &mut [Row],
    out: &mut [u8],
    reps: &mut [u8],
) -> Returned
    ensures { KeepsRows (IdleRowsPromise s) result (lent_rows log.old results.old totals.old acks.old stored.old table.old out.old reps.old) (lent_rows log.new results.new totals.new acks.new stored.new table.new out.new reps.new) }
{
    let n = table.len();
    let a = kernel::on_idle(s, n, log, results, totals, acks, stored, out, reps);
    client_table_structs::follow(table, log, results, kernel::change_after(s, a));
    a
}

// takings: of the state alone, so that the table's form plays no part.
pub fn takings(s: Replica) -> Result<u64, Refusal>
    ensures { TakingsPromise s result }
{
    outside::takings::takings(s)
}
