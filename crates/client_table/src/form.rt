// A form in which the table is held: what its cells are, and how rows stand in them. A form is a type without values.
ghost use Rattle.std.specs.Prelude.{◌≡◌, true, ◌≤◌, ◌<◌, ℕ, List, length, replicate};
ghost use Rattle.client_table.specs.Shape.{Shape, row_at};
ghost use Rattle.client_table.specs.Latest.{latest_by};
ghost use Rattle.client_table.specs.Lawful.{Lawful};
ghost use Rattle.client_table.specs.Leaves.{Leaves};
ghost use Rattle.client_table.specs.Rows.{stored};

use crate::Latest;
use entries::Entry;
use fees::Outcome;

pub trait Form {
    type Cell: Copy;

    type Row: Copy;

    ghost shape: { Shape Self.Row };

    // n rows have room in a run of so many cells
    ghost Fits: { (n cells : ℕ) → Type 0 };

    // the first n rows of a run, and the cells behind them
    ghost rows: { ℕ → List Self.Cell → List Self.Row };

    ghost rest: { ℕ → List Self.Cell → List Self.Cell };

    // The row at a place.
    fn row_at(table: &[Self::Cell], n: usize, at: usize) -> Self::Row
        requires { Fits n (length table.now) × (at < n) }
        ensures { result ≡ row_at shape (rows n table.now) at };

    // `row` takes place `at`, after the rows from there up to `to` have gone up one place.
    fn store(table: &mut [Self::Cell], n: usize, at: usize, to: usize, row: Self::Row)
        requires { Fits n (length table.old) × ((at ≤ to) × (to < n)) }
        ensures { Leaves rows rest n table.old table.new (stored shape at to row (rows n table.old)) };

    // All n rows become unused.
    fn clear(table: &mut [Self::Cell], n: usize)
        requires { Fits n (length table.old) }
        ensures { Leaves rows rest n table.old table.new (replicate n shape.blank) };

    fn is_used(row: Self::Row) -> bool
        ensures { result ≡ shape.used row };

    fn client(row: Self::Row) -> u64
        ensures { result ≡ shape.client row };

    fn request(row: Self::Row) -> u64
        ensures { result ≡ shape.request row };

    // What a row in use holds; an unused one is found for nobody.
    fn held(row: Self::Row) -> Latest
        ensures { result ≡ latest_by true (shape.request row) (shape.kept row) };

    // An unused row.
    fn blank() -> Self::Row
        ensures { result ≡ shape.blank };

    // The row of an entry that has no reply yet.
    fn fresh(e: Entry) -> Self::Row
        ensures { result ≡ shape.fresh e };

    // With its reply.
    fn answered(e: Entry, o: Outcome) -> Self::Row
        ensures { result ≡ shape.answered e o };

    ghost lawful: { Lawful shape };

    ghost length_rows: { (n : ℕ) (s : List Self.Cell) → Fits n (length s) → length (rows n s) ≡ n };
}
