// The rows of a file, one after the other, up to the first bad one.
ghost use Rattle.std.specs.Prelude.{◌≡◌, ◌+◌, ◌*◌, ◌≤◌, length, Ok};
ghost use Rattle.numbers.specs.Numbers.{over};
ghost use Rattle.numbers.specs.Cells.{packed};
ghost use Rattle.entries.specs.Entries.{encode_entry};
ghost use Rattle.csv_table.specs.Reading.{row_in, scanned, table_entries};

use crate::{BadField, CsvRefusal, RowRead, fields};
use entries::Entry;

// Row i, at the front: the header where i is 0, else that of op i.
fn row(s: &[u8], i: u64) -> Result<RowRead, BadField>
    ensures { result ≡ row_in i s.now }
{
    let mut values = [0u64; 6];
    let mut p: usize = 0;
    for k in 0..6 {
        let told = match fields::told(&s[p..], i, k, values[3] as u8) {
            Ok(told) => told,
            Err(fault) => {
                return Err(BadField {
                    fault,
                    column: (k + 1) as u8,
                    place: p,
                });
            }
        };
        values[k] = told.value;
        p += told.used;
    }
    let [_, client, request, operation, member, cents] = values;
    Ok(RowRead {
        used: p,
        entry: Entry {
            client,
            request,
            operation: operation as u8,
            member: member as u32,
            cents,
        },
    })
}

// How many rows a file has, up to the first bad one, which is named.
pub fn scan(file: &[u8]) -> Result<usize, CsvRefusal>
    ensures { result ≡ scanned file.now }
{
    let mut p: usize = 0;
    let mut i: usize = 0;
    loop {
        // Kept: a match, no `map_err`: these sums' bounds are the loop's, which a closure doesn't have.
        let r = match row(&file[p..], i as u64) {
            Ok(r) => r,
            Err(bad) => {
                return Err(CsvRefusal::BadRow {
                    row: i + 1,
                    column: bad.column,
                    fault: bad.fault,
                    offset: p + bad.place,
                });
            }
        };
        p += r.used;
        i += 1;
        if p == file.len() {
            return Ok(i);
        }
    }
}

// The entries of the n rows behind the header into the area, 32 bytes each.
pub fn copy_entries(file: &[u8], n: usize, area: &mut [u8])
    requires good { scanned file.now ≡ Ok (n + 1) }
    requires room { 32 * n ≤ length area.old }
    ensures { area.new ≡ over (packed encode_entry (table_entries n file.now)) area.old }
{
    let header = row(file, 0).unwrap();
    let mut p = header.used;
    for j in 0..n {
        let r = row(&file[p..], (j + 1) as u64).unwrap();
        entries::write_entry(&mut area[32 * j..], r.entry);
        p += r.used;
    }
}
