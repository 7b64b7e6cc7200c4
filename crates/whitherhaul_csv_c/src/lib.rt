// The calls of the crate whitherhaul_csv as C finds them in libwhitherhaul_csv.a: each passes its arguments on, and promises the same.
// Kept: numbers for refusals, answers in lent places, and runs one by one, since C has no Result and no slice in a struct: include/whitherhaul_csv.h.
#![tactic(auto)]

ghost use Rattle.std.specs.Prelude.{◌≡◌, get_or};
ghost use Rattle.csv_table.specs.Calls.{export_call, import_call};
ghost use Rattle.whitherhaul_csv.specs.Boundary.{csv_code, numbers_of};

// The table of a run of entries.
#[unsafe(no_mangle)]
pub extern "C" fn whitherhaul_csv_export(run: &[u8], area: &mut [u8], bytes: &mut u64) -> u8
    ensures code { result ≡ csv_code (export_call run.now area.old).answer }
    ensures bytes { bytes.new ≡ get_or (numbers_of (export_call run.now area.old).answer) 0 0 }
    ensures area { area.new ≡ (export_call run.now area.old).area }
{
    whitherhaul_csv::whitherhaul_csv_export(run, area, bytes)
}

// A table's entries; answers: entries, and with 13 the first bad row, the column of its first bad field, what is wrong with that, and where in the file it begins.
#[unsafe(no_mangle)]
pub extern "C" fn whitherhaul_csv_import(file: &[u8], area: &mut [u8], answers: &mut [u64; 5]) -> u8
    ensures code { result ≡ csv_code (import_call file.now area.old).answer }
    ensures numbers { answers.new ≡ numbers_of (import_call file.now area.old).answer }
    ensures area { area.new ≡ (import_call file.now area.old).area }
{
    whitherhaul_csv::whitherhaul_csv_import(file, area, answers)
}
