// The client table in lent bytes: 25 a row, in rising order of client id, unused rows last. What is done to it is in client_table.
#![tactic(auto)]

ghost use Rattle.std.specs.Prelude.{◌≡◌, ◌++◌, ◌-◌, ◌*◌, ◌≤◌, length, take};
ghost use Rattle.numbers.proofs.CellLaws.{cells-length};
ghost use Rattle.client_table_bytes.specs.Layout.{byte_row, row_of, rows_of, rest_of};
ghost use Rattle.client_table_bytes.specs.Lawful.{byte-lawful};

use client_table::{Form, Latest};
use entries::Entry;
use fees::Outcome;

mod cell; // a row read, written and made

// A row: mark 0 is an unused row, 1 to 6 the outcome of the reply that is kept, whose total follows; any other is a row in use that keeps no reply.
// Kept: the mark is a number, since C may lend any byte, and each is kept as it is.
#[derive(Clone, Copy)]
pub struct MarkedRow {
    pub client: u64,
    pub request: u64,
    pub mark: u8,
    pub total: u64,
}

// The form of a table in lent bytes.
pub struct ByteRows;

impl Form for ByteRows {
    type Cell = u8;

    type Row = MarkedRow;

    ghost shape = { byte_row };

    ghost Fits = { λ n cells. 25 * n ≤ cells };

    ghost rows = { rows_of };

    ghost rest = { rest_of };

    fn row_at(table: &[u8], _n: usize, at: usize) -> MarkedRow {
        cell::row_at(table, 25 * at)
    }

    fn store(table: &mut [u8], _n: usize, at: usize, to: usize, row: MarkedRow) {
        let p = 25 * at;
        let e = 25 * to + 25;
        shift(&mut table[p..e]);
        cell::write_row(&mut table[p..], row);
    }

    fn clear(table: &mut [u8], n: usize) {
        numbers::fill(table, 25 * n, 0);
    }

    fn is_used(row: MarkedRow) -> bool {
        row.mark != 0
    }

    fn client(row: MarkedRow) -> u64 {
        row.client
    }

    fn request(row: MarkedRow) -> u64 {
        row.request
    }

    fn held(row: MarkedRow) -> Latest {
        client_table::held(row.request, row.mark, row.total)
    }

    fn blank() -> MarkedRow {
        cell::no_row()
    }

    fn fresh(e: Entry) -> MarkedRow {
        cell::row_with(e, 255, 0)
    }

    fn answered(e: Entry, o: Outcome) -> MarkedRow {
        cell::row_with(e, o.code, o.total)
    }

    ghost lawful = { byte-lawful };

    ghost length_rows = { λ n s f. cells-length 25 row_of n s };
}

// All bytes but the last 25 go up 25 places: one move.
fn shift(part: &mut [u8])
    requires { 25 ≤ length part.old }
    ensures { part.new ≡ take 25 part.old ++ take (length part.old - 25) part.old }
{
    let n = part.len() - 25;
    part.copy_within(0..n, 25);
}
