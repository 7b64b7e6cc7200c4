// The C boundary of the treasurer's table: each call takes byte runs and returns the refusal's number, 0 where it is done. Counts and other answers go to a lent number or array of numbers, and are 0 with a refusal, but for
// what 13 carries. None asks anything of its caller but that what he points to is there, and that no two of these places overlap.
// Kept: numbers for refusals, answers in lent places, and runs one by one, since C has no Result and no slice in a struct: include/whitherhaul_csv.h.
#![tactic(auto)]

ghost use Rattle.std.specs.Prelude.{◌≡◌, get_or};
ghost use Rattle.csv_table.specs.Calls.{export_call, import_call};
ghost use Rattle.whitherhaul_csv.specs.Boundary.{csv_code, numbers_of};

use csv_table::CsvRefusal;

// An answer as C has it: what the call returns.
fn code(answer: Result<usize, CsvRefusal>) -> u8
    ensures { result ≡ csv_code answer }
{
    match answer {
        Ok(_) => 0,
        Err(refusal) => u8::from(refusal),
    }
}

// And its numbers.
fn numbers(answer: Result<usize, CsvRefusal>) -> [u64; 5]
    ensures { result ≡ numbers_of answer }
{
    match answer {
        Ok(n) => [n as u64, 0, 0, 0, 0],
        Err(
            CsvRefusal::BadRow {
                row,
                column,
                fault,
                offset,
            },
        ) => [
            0,
            row as u64,
            column as u64,
            u8::from(fault) as u64,
            offset as u64,
        ],
        Err(_) => [0; 5],
    }
}

// The table of a run of entries.
pub fn whitherhaul_csv_export(run: &[u8], area: &mut [u8], bytes: &mut u64) -> u8
    ensures code { result ≡ csv_code (export_call run.now area.old).answer }
    ensures bytes { bytes.new ≡ get_or (numbers_of (export_call run.now area.old).answer) 0 0 }
    ensures area { area.new ≡ (export_call run.now area.old).area }
{
    let answer = csv_table::export(run, area);
    *bytes = numbers(answer)[0];
    code(answer)
}

// A table's entries; answers: entries, and with 13 the first bad row, the column of its first bad field, what is wrong with that, and where in the file it begins.
pub fn whitherhaul_csv_import(file: &[u8], area: &mut [u8], answers: &mut [u64; 5]) -> u8
    ensures code { result ≡ csv_code (import_call file.now area.old).answer }
    ensures numbers { answers.new ≡ numbers_of (import_call file.now area.old).answer }
    ensures area { area.new ≡ (import_call file.now area.old).area }
{
    let answer = csv_table::import(file, area);
    *answers = numbers(answer);
    code(answer)
}
