// The client table's 25 bytes a row, as they stand in the memory that is compared, and the rows of structs that they stand for: mark 0 is an unused row, 1 to 6 the outcome of the
// reply that is kept, any other no reply yet. A row that a call left as it was keeps its bytes, whatever they are.
use client_table_structs::{KeptReply, Row};
use state::Returned;

fn reply_of(mark: u8, total: u64) -> KeptReply {
    match mark {
        0 => KeptReply::Unused,
        1..=6 => KeptReply::Kept { code: mark, total },
        _ => KeptReply::Waiting,
    }
}

// Mark and total.
fn marked(k: KeptReply) -> (u8, u64) {
    match k {
        KeptReply::Unused => (0, 0),
        KeptReply::Waiting => (255, 0),
        KeptReply::Kept { code, total } => (code, total),
    }
}

fn read(bytes: &[u8; 25]) -> Row {
    Row {
        client: numbers::read_u64(bytes, 0),
        request: numbers::read_u64(bytes, 8),
        reply: reply_of(bytes[16], numbers::read_u64(bytes, 17)),
    }
}

fn encoded(row: Row) -> [u8; 25] {
    let (mark, total) = marked(row.reply);
    let mut bytes = [0; 25];
    numbers::write_u64(&mut bytes, row.client);
    numbers::write_u64(&mut bytes[8..], row.request);
    bytes[16] = mark;
    numbers::write_u64(&mut bytes[17..], total);
    bytes
}

// The call, lent as many rows as the table has bytes for, of eight at most.
pub fn over<F: FnOnce(&mut [Row]) -> Returned>(table: &mut [u8], call: F) -> Returned
    requires { F.IsAlwaysCallable call }
{
    let mut rows = [client_table_structs::cell::no_row(); 8];
    let (cells, _) = table.as_chunks_mut::<25>();
    let n = cells.len().min(8);
    for (row, bytes) in rows.iter_mut().zip(cells.iter()) {
        *row = read(bytes);
    }
    let answer = call(&mut rows[..n]);
    for (bytes, row) in cells.iter_mut().zip(&rows) {
        let new = encoded(*row);
        if encoded(read(bytes)) != new {
            *bytes = new;
        }
    }
    answer
}
