// The calls of the crate whitherhaul_journal as C finds them in libwhitherhaul_journal.a: each passes its arguments on, and promises the same.
// Kept: numbers for refusals, answers in lent places, and runs one by one, since C has no Result and no slice in a struct: include/whitherhaul_journal.h.
#![tactic(auto)]

ghost use Rattle.std.specs.Prelude.{◌≡◌, ◌∷◌};
ghost use Rattle.journal.specs.Calls.{write_call, append_call, read_call, frame_in, takings_of};
ghost use Rattle.whitherhaul_journal.specs.Boundary.{WroteFrames, ReadAs, framed_numbers, TakenAs};

// The journal of a run of entries.
#[unsafe(no_mangle)]
pub extern "C" fn whitherhaul_journal_write(
    members: u32,
    run: &[u8],
    area: &mut [u8],
    bytes: &mut u64,
) -> u8
    ensures { WroteFrames result bytes.new area.new (write_call members run.now area.old) }
{
    whitherhaul_journal::whitherhaul_journal_write(members, run, area, bytes)
}

// The frames of ops from + 1 to `to` out of a replica's log and results.
#[unsafe(no_mangle)]
pub extern "C" fn whitherhaul_journal_append(
    from: u32,
    to: u32,
    log: &[u8],
    results: &[u8],
    area: &mut [u8],
    bytes: &mut u64,
) -> u8
    ensures { WroteFrames result bytes.new area.new (append_call from to log.now results.now area.old) }
{
    whitherhaul_journal::whitherhaul_journal_append(from, to, log, results, area, bytes)
}

// A file read back; answers: entries, and with 12 the offset of the first bad frame and what is wrong with it.
#[unsafe(no_mangle)]
pub extern "C" fn whitherhaul_journal_read(
    members: u32,
    file: &[u8],
    area: &mut [u8],
    totals: &mut [u8],
    answers: &mut [u64; 3],
) -> u8
    ensures { ReadAs result answers.new area.new totals.new (read_call members file.now area.old totals.old) }
{
    whitherhaul_journal::whitherhaul_journal_read(members, file, area, totals, answers)
}

// Frame number i + 1 of a file as it stands: returns what is wrong with its form, or 0; answers: client, request, operation, member, cents, outcome, total.
#[unsafe(no_mangle)]
pub extern "C" fn whitherhaul_journal_frame(file: &[u8], i: u64, answers: &mut [u64; 7]) -> u8
    ensures { framed_numbers (frame_in i file.now) ≡ result ∷ answers.new }
{
    whitherhaul_journal::whitherhaul_journal_frame(file, i, answers)
}

// The takings: all totals added up.
#[unsafe(no_mangle)]
pub extern "C" fn whitherhaul_journal_takings(members: u32, totals: &[u8], cents: &mut u64) -> u8
    ensures { TakenAs result cents.new (takings_of members totals.now) }
{
    whitherhaul_journal::whitherhaul_journal_takings(members, totals, cents)
}
