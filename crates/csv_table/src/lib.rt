// The treasurer's table of entries as CSV by RFC 4180: exported from a run of entries, and imported, with fields plain or quoted.
#![tactic(auto)]

ghost use Rattle.std.specs.Prelude.{◌≡◌};
ghost use Rattle.csv_table.specs.Calls.{export_call, import_call};

use entries::Entry;

mod exporting; // rows into an area
mod fields; // a field of a row: where it stands, how it ends, what it says
mod reading; // rows of a file, up to the first bad one
mod refusal; // why a call is refused, and the numbers for it

pub use refusal::{CsvRefusal, FieldFault};

// How a field ends: by a comma, by CRLF, or by the file's end.
#[derive(Clone, Copy, Debug, PartialEq, Eq)]
pub enum FieldEnd {
    Comma,
    Line,
    File,
}

// A field of a file, from its front: where its content begins and how many bytes it has, how many bytes the field takes with its end, and how it ends.
#[derive(Clone, Copy)]
pub struct Field {
    pub start: usize,
    pub size: usize,
    pub used: usize,
    pub ends: FieldEnd,
}

// What a good field says, and how many bytes it takes with its end.
#[derive(Clone, Copy)]
pub struct FieldRead {
    pub value: u64,
    pub used: usize,
}

// How many bytes a good row takes, and its entry.
#[derive(Clone, Copy)]
pub struct RowRead {
    pub used: usize,
    pub entry: Entry,
}

// The first bad field of a row: what is wrong with it, its column, and how far behind the row's beginning it stands.
// A column stays a number, 1 to 6: it is a position, and what it names is the header's.
#[derive(Clone, Copy)]
pub struct BadField {
    pub fault: FieldFault,
    pub column: u8,
    pub place: usize,
}

// The table of a run of entries, 32 bytes each, into the area: how many bytes it has.
pub fn export(run: &[u8], area: &mut [u8]) -> Result<usize, CsvRefusal>
    ensures { (record { answer = result; area = area.new }) ≡ export_call run.now area.old }
{
    if !entries::run_ok(run) {
        return Err(CsvRefusal::BadEntry);
    }
    if !exporting::fits(run, area.len()) {
        return Err(CsvRefusal::NoRoom);
    }
    Ok(exporting::write_table(run, area))
}

// A table's entries into the area, 32 bytes each: how many they are. The whole file is looked over before any byte is written: what is lent keeps no trace of a bad one.
pub fn import(file: &[u8], area: &mut [u8]) -> Result<usize, CsvRefusal>
    ensures { (record { answer = result; area = area.new }) ≡ import_call file.now area.old }
{
    let rows = reading::scan(file)?;
    let n = rows - 1;
    if area.len() / 32 < n {
        return Err(CsvRefusal::NoRoom);
    }
    reading::copy_entries(file, n, area);
    Ok(n)
}
