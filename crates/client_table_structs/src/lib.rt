// The client table as a slice of row structs, for callers in Rattle: rows in rising order of client id, unused rows last. What is done to it is in
// client_table; thin functions do it to a whole slice.
#![tactic(auto)]

ghost use Rattle.std.specs.Prelude.{◌≡◌, [], ◌*◌, ◌≤◌, ◌<◌, length, replicate};
ghost use Rattle.std.proofs.Common.{sym};
ghost use Rattle.entries.specs.Entries.{entries};
ghost use Rattle.fees.specs.Results.{outcomes};
ghost use Rattle.client_table.specs.Found.{found_in};
ghost use Rattle.client_table.specs.Rows.{stored, rebuilt, followed};
ghost use Rattle.client_table_structs.specs.Shape.{unused_row, struct_row, latest_among};
ghost use Rattle.client_table_structs.specs.Lawful.{struct-lawful};

use client_table::{Change, Form, Found, Latest};
use entries::Entry;
use fees::Outcome;

pub mod cell; // what a row says, and the rows of entries

// What a row is used for: nothing, a request that has no reply yet, or one whose reply is kept, with an outcome of 1 to 6; any other code is no reply.
#[derive(Clone, Copy)]
pub enum KeptReply {
    Unused,
    Waiting,
    // Kept: a number, as in `fees::Outcome`.
    Kept { code: u8, total: u64 },
}

// A client's latest request, and its reply.
#[derive(Clone, Copy)]
pub struct Row {
    pub client: u64,
    pub request: u64,
    pub reply: KeptReply,
}

// The form of a table of structs: the whole slice is rows.
pub struct StructRows;

impl Form for StructRows {
    type Cell = Row;

    type Row = Row;

    ghost shape = { struct_row };

    ghost Fits = { λ n cells. n ≡ cells };

    ghost rows = { λ n s. s };

    ghost rest = { λ n s. [] };

    fn row_at(table: &[Row], _n: usize, at: usize) -> Row {
        table[at]
    }

    fn store(table: &mut [Row], _n: usize, at: usize, to: usize, row: Row) {
        table.copy_within(at..to, at + 1);
        table[at] = row;
    }

    fn clear(table: &mut [Row], _n: usize) {
        table.fill(cell::no_row());
    }

    fn is_used(row: Row) -> bool {
        cell::is_used(row.reply)
    }

    fn client(row: Row) -> u64 {
        row.client
    }

    fn request(row: Row) -> u64 {
        row.request
    }

    fn held(row: Row) -> Latest {
        cell::held_in(row.request, row.reply)
    }

    fn blank() -> Row {
        cell::no_row()
    }

    fn fresh(e: Entry) -> Row {
        cell::row_holding(e, KeptReply::Waiting)
    }

    fn answered(e: Entry, o: Outcome) -> Row {
        let reply = KeptReply::Kept {
            code: o.code,
            total: o.total,
        };
        cell::row_holding(e, reply)
    }

    ghost lawful = { struct-lawful };

    ghost length_rows = { λ n s f. sym f };
}

// The place of the client's row, and the row; or the place where it would go, and what stands there.
pub fn find(table: &[Row], client: u64) -> Found<Row>
    ensures { result ≡ found_in struct_row table.now client }
{
    client_table::find::<StructRows>(table, table.len(), client)
}

// What the table has of a client.
pub fn latest(table: &[Row], client: u64) -> Latest
    ensures { result ≡ latest_among table.now client }
{
    client_table::told::<StructRows>(find(table, client))
}

// `row` takes place `at`, after the rows from there up to `to` have gone up one place.
pub fn store(table: &mut [Row], at: usize, to: usize, row: Row)
    requires { (at ≤ to) × (to < length table.old) }
    ensures { table.new ≡ stored struct_row at to row table.old }
{
    let n = table.len();
    StructRows::store(table, n, at, to, row);
}

// All rows become unused.
pub fn clear(table: &mut [Row])
    ensures { table.new ≡ replicate (length table.old) unused_row }
{
    let n = table.len();
    StructRows::clear(table, n);
}

// The table of a log of `op` entries, the first `done` of them committed, which gave these results; whatever was there before.
pub fn rebuild(table: &mut [Row], log: &[u8], results: &[u8], op: usize, done: usize)
    requires { (32 * op ≤ length log.now) × ((9 * done ≤ length results.now) × (done ≤ op)) }
    ensures { table.new ≡ rebuilt struct_row (replicate (length table.old) unused_row) (entries op log.now) (outcomes done results.now) }
{
    let n = table.len();
    client_table::rebuild::<StructRows>(table, n, log, results, op, done);
}

// The table brought up to what a call did to the log.
pub fn follow(table: &mut [Row], log: &[u8], results: &[u8], change: Change)
    requires { (32 * change.to.0 ≤ length log.now) × ((9 * change.done.0 ≤ length results.now) × (change.done.0 ≤ change.to.0)) }
    ensures { table.new ≡ followed struct_row change table.old (entries change.to.0 log.now) (outcomes change.done.0 results.now) }
{
    let n = table.len();
    client_table::follow::<StructRows>(table, n, log, results, change);
}
