// Rows put in the table, and the table brought up to what a call did to the log.
// Kept: loops count entries, since `entries` and `fees` alone say where an entry and its result have their cells.
ghost use Rattle.std.specs.Prelude.{◌≡◌, ◌-◌, ◌*◌, ◌≤◌, length, drop, replicate};
ghost use Rattle.entries.specs.Entries.{entries};
ghost use Rattle.entries.specs.Places.{entry_place, result_place};
ghost use Rattle.fees.specs.Results.{outcomes};
ghost use Rattle.client_table.specs.Rows.{spot_of, inserted, put_row, appended, replied, rows_committed, rebuilt, followed};
ghost use Rattle.client_table.specs.Found.{found_in, AppendsFor};
ghost use Rattle.client_table.specs.Leaves.{Leaves};

use crate::{Change, Form, Found, Goal, search};
use entries::Entry;
use fees::Outcome;

// The row of a client that has none; a full table takes none.
fn insert<F: Form>(table: &mut [F::Cell], n: usize, at: usize, row: F::Row)
    requires { F.Fits n (length table.old) × (at ≡ spot_of F.shape (F.rows n table.old) (F.shape.client row)) }
    ensures { Leaves F.rows F.rest n table.old table.new (inserted F.shape (F.rows n table.old) row) }
{
    let to = search::seek::<F>(table, n, at, Goal::End);
    if n <= to {
        return;
    }
    F::store(table, n, at, to, row);
}

// `row` becomes its client's row; f is what was found of him.
fn put_found<F: Form>(table: &mut [F::Cell], n: usize, f: Found<F::Row>, row: F::Row)
    requires { F.Fits n (length table.old) × (f ≡ found_in F.shape (F.rows n table.old) (F.shape.client row)) }
    ensures { Leaves F.rows F.rest n table.old table.new (put_row F.shape (F.rows n table.old) row) }
{
    match f {
        Ok((at, _)) => F::store(table, n, at, at, row),
        Err((at, _)) => insert::<F>(table, n, at, row),
    }
}

// `row` becomes its client's row.
fn put<F: Form>(table: &mut [F::Cell], n: usize, row: F::Row)
    requires { F.Fits n (length table.old) }
    ensures { Leaves F.rows F.rest n table.old table.new (put_row F.shape (F.rows n table.old) row) }
{
    let f = search::find::<F>(table, n, F::client(row));
    put_found::<F>(table, n, f, row);
}

// The entries from .. to of the log, in order, become their clients' rows; none where from is past to.
pub fn follow_append<F: Form>(table: &mut [F::Cell], n: usize, log: &[u8], from: usize, to: usize)
    requires { F.Fits n (length table.old) × (32 * to ≤ length log.now) }
    ensures { Leaves F.rows F.rest n table.old table.new (appended F.shape (F.rows n table.old) (entries (to - from) (drop (entry_place from) log.now))) }
{
    for k in from..to {
        put::<F>(table, n, F::fresh(entries::entry_in(log, k)));
    }
}

// The entry was executed: its reply is kept where it is its client's latest request.
fn reply<F: Form>(table: &mut [F::Cell], n: usize, e: Entry, o: Outcome)
    requires { F.Fits n (length table.old) }
    ensures { Leaves F.rows F.rest n table.old table.new (replied F.shape (F.rows n table.old) e o) }
{
    let Ok((at, x)) = search::find::<F>(table, n, e.client) else {
        return;
    };
    if F::request(x) != e.request {
        return;
    }
    F::store(table, n, at, at, F::answered(e, o));
}

// The entries from .. to were executed, and gave these results; none where from is past to.
pub fn follow_commit<F: Form>(
    table: &mut [F::Cell],
    n: usize,
    log: &[u8],
    results: &[u8],
    from: usize,
    to: usize,
)
    requires { F.Fits n (length table.old) × ((32 * to ≤ length log.now) × (9 * to ≤ length results.now)) }
    ensures { Leaves F.rows F.rest n table.old table.new (rows_committed F.shape (F.rows n table.old) (entries (to - from) (drop (entry_place from) log.now)) (outcomes (to - from) (drop (result_place from) results.now))) }
{
    for k in from..to {
        reply::<F>(
            table,
            n,
            entries::entry_in(log, k),
            fees::result_in(results, k),
        );
    }
}

// The first `done` entries of the log become their clients' rows, in order, each with what it gave.
fn refill<F: Form>(table: &mut [F::Cell], n: usize, log: &[u8], results: &[u8], done: usize)
    requires { F.Fits n (length table.old) × ((32 * done ≤ length log.now) × (9 * done ≤ length results.now)) }
    ensures { Leaves F.rows F.rest n table.old table.new (rebuilt F.shape (F.rows n table.old) (entries done log.now) (outcomes done results.now)) }
{
    for k in 0..done {
        let e = entries::entry_in(log, k);
        let o = fees::result_in(results, k);
        put::<F>(table, n, F::answered(e, o));
    }
}

// The table of a log of `op` entries, the first `done` of them committed, which gave these results; whatever was there before.
pub fn rebuild<F: Form>(
    table: &mut [F::Cell],
    n: usize,
    log: &[u8],
    results: &[u8],
    op: usize,
    done: usize,
)
    requires { F.Fits n (length table.old) × ((32 * op ≤ length log.now) × ((9 * done ≤ length results.now) × (done ≤ op))) }
    ensures { Leaves F.rows F.rest n table.old table.new (rebuilt F.shape (replicate n F.shape.blank) (entries op log.now) (outcomes done results.now)) }
{
    F::clear(table, n);
    refill::<F>(table, n, log, results, done);
    follow_append::<F>(table, n, log, done, op);
}

// All of a call's change: a log that it installed, or entries that it appended and then those that it committed.
pub fn follow<F: Form>(table: &mut [F::Cell], n: usize, log: &[u8], results: &[u8], change: Change)
    requires { F.Fits n (length table.old) × ((32 * change.to.0 ≤ length log.now) × ((9 * change.done.0 ≤ length results.now) × (change.done.0 ≤ change.to.0))) }
    ensures { Leaves F.rows F.rest n table.old table.new (followed F.shape change (F.rows n table.old) (entries change.to.0 log.now) (outcomes change.done.0 results.now)) }
{
    let to = change.to.0 as usize;
    let done = change.done.0 as usize;
    if change.installed {
        rebuild::<F>(table, n, log, results, to, done);
        return;
    }
    follow_append::<F>(table, n, log, change.op.0 as usize, to);
    follow_commit::<F>(table, n, log, results, change.commit.0 as usize, done);
}

// No more than one entry was appended, and f is what was found of its client before: it becomes his row, and he is not searched again.
fn append_found<F: Form>(
    table: &mut [F::Cell],
    n: usize,
    f: Found<F::Row>,
    log: &[u8],
    change: Change,
)
    requires { F.Fits n (length table.old) × ((32 * change.to.0 ≤ length log.now) × AppendsFor F.shape change f (F.rows n table.old) log.now) }
    ensures { Leaves F.rows F.rest n table.old table.new (appended F.shape (F.rows n table.old) (drop change.op.0 (entries change.to.0 log.now))) }
{
    if change.to.0 <= change.op.0 {
        return;
    }
    let e = entries::entry_in(log, change.op.0 as usize);
    put_found::<F>(table, n, f, F::fresh(e));
}

// As `follow`, where no more than one entry was appended, and f is what was found of its client before.
pub fn follow_found<F: Form>(
    table: &mut [F::Cell],
    n: usize,
    f: Found<F::Row>,
    log: &[u8],
    results: &[u8],
    change: Change,
)
    requires { F.Fits n (length table.old) × ((32 * change.to.0 ≤ length log.now) × ((9 * change.done.0 ≤ length results.now) × ((change.done.0 ≤ change.to.0) × AppendsFor F.shape change f (F.rows n table.old) log.now))) }
    ensures { Leaves F.rows F.rest n table.old table.new (followed F.shape change (F.rows n table.old) (entries change.to.0 log.now) (outcomes change.done.0 results.now)) }
{
    append_found::<F>(table, n, f, log, change);
    let (from, to) = (change.commit.0 as usize, change.done.0 as usize);
    follow_commit::<F>(table, n, log, results, from, to);
}
