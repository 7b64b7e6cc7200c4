// A row of the table: read, written, and made.
ghost use Rattle.std.specs.Prelude.{◌≡◌, ◌+◌, ◌≤◌, length, drop};
ghost use Rattle.numbers.specs.Numbers.{over};
ghost use Rattle.client_table_bytes.specs.Layout.{no_row, row_with, row_of, encode_row};

use crate::MarkedRow;
use entries::Entry;

// The row at byte p.
pub fn row_at(table: &[u8], p: usize) -> MarkedRow
    requires { p + 25 ≤ length table.now }
    ensures { result ≡ row_of (drop p table.now) }
{
    MarkedRow {
        client: numbers::read_u64(table, p),
        request: numbers::read_u64(table, p + 8),
        mark: numbers::read_u8(table, p + 16),
        total: numbers::read_u64(table, p + 17),
    }
}

pub fn write_row(area: &mut [u8], row: MarkedRow)
    requires { 25 ≤ length area.old }
    ensures { area.new ≡ over (encode_row row) area.old }
{
    numbers::write_u64(area, row.client);
    numbers::write_u64(&mut area[8..], row.request);
    numbers::write_u8(&mut area[16..], row.mark);
    numbers::write_u64(&mut area[17..], row.total);
}

// An unused row.
pub fn no_row() -> MarkedRow
    ensures { result ≡ no_row }
{
    MarkedRow {
        client: 0,
        request: 0,
        mark: 0,
        total: 0,
    }
}

// The row of an entry, with a mark and a total.
pub fn row_with(e: Entry, mark: u8, total: u64) -> MarkedRow
    ensures { result ≡ row_with e mark total }
{
    MarkedRow {
        client: e.client,
        request: e.request,
        mark,
        total,
    }
}
