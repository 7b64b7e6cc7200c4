// The C boundary of the journal: each call takes numbers and byte runs and returns the refusal's number, 0 where it is done. Counts and other answers go to a lent number or array of numbers, and are 0 with a refusal, but for
// the offset and the fault that 12 carries. None asks anything of its caller but that what he points to is there, and that no two of these places overlap.
// Kept: numbers for refusals and faults, and answers in lent places, since C has no Result: include/whitherhaul_journal.h.
#![tactic(auto)]

ghost use Rattle.std.specs.Prelude.{◌≡◌, ◌∷◌};
ghost use Rattle.journal.specs.Calls.{write_call, append_call, read_call, frame_in, takings_of};
ghost use Rattle.journal.specs.Refusals.{bad_offset, bad_fault};
ghost use Rattle.whitherhaul_journal.specs.Boundary.{in_numbers, WroteFrames, ReadAs, framed_numbers, TakenAs};

use journal::JournalRefusal;

// An answer as C has it: the refusal's number, 0 where the call is done; what was counted, 0 with a refusal; and of a bad frame the offset of its first byte and what is wrong with it.
#[derive(Clone, Copy)]
pub struct InNumbers {
    pub code: u8,
    pub count: u64,
    pub offset: u64,
    pub fault: u8,
}

fn bad_offset(why: JournalRefusal) -> u64
    ensures { result ≡ bad_offset why }
{
    match why {
        JournalRefusal::BadFrame { offset, .. } => offset as u64,
        _ => 0,
    }
}

fn bad_fault(why: JournalRefusal) -> u8
    ensures { result ≡ bad_fault why }
{
    match why {
        JournalRefusal::BadFrame { fault, .. } => fault.into(),
        _ => 0,
    }
}

fn in_numbers(answer: Result<u64, JournalRefusal>) -> InNumbers
    ensures { result ≡ in_numbers answer }
{
    match answer {
        Ok(count) => InNumbers {
            code: 0,
            count,
            offset: 0,
            fault: 0,
        },
        Err(why) => InNumbers {
            code: why.into(),
            count: 0,
            offset: bad_offset(why),
            fault: bad_fault(why),
        },
    }
}

// The journal of a run of entries.
pub fn whitherhaul_journal_write(members: u32, run: &[u8], area: &mut [u8], bytes: &mut u64) -> u8
    ensures { WroteFrames result bytes.new area.new (write_call members run.now area.old) }
{
    let a = in_numbers(journal::write(members, run, area).map(|n| n as u64));
    *bytes = a.count;
    a.code
}

// The frames of ops from + 1 to `to` out of a replica's log and results.
pub fn whitherhaul_journal_append(
    from: u32,
    to: u32,
    log: &[u8],
    results: &[u8],
    area: &mut [u8],
    bytes: &mut u64,
) -> u8
    ensures { WroteFrames result bytes.new area.new (append_call from to log.now results.now area.old) }
{
    let a = in_numbers(journal::append(from, to, log, results, area).map(|n| n as u64));
    *bytes = a.count;
    a.code
}

// A file read back; answers: entries, and with 12 the offset of the first bad frame and what is wrong with it.
pub fn whitherhaul_journal_read(
    members: u32,
    file: &[u8],
    area: &mut [u8],
    totals: &mut [u8],
    answers: &mut [u64; 3],
) -> u8
    ensures { ReadAs result answers.new area.new totals.new (read_call members file.now area.old totals.old) }
{
    let a = in_numbers(journal::read(members, file, area, totals).map(|n| n as u64));
    *answers = [a.count, a.offset, a.fault as u64];
    a.code
}

// Frame number i + 1 of a file as it stands: returns what is wrong with its form, or 0; answers: client, request, operation, member, cents, outcome, total.
pub fn whitherhaul_journal_frame(file: &[u8], i: u64, answers: &mut [u64; 7]) -> u8
    ensures { framed_numbers (frame_in i file.now) ≡ result ∷ answers.new }
{
    match journal::frame(file, i as usize) {
        Ok(framed) => {
            let e = framed.entry;
            *answers = [
                e.client,
                e.request,
                e.operation as u64,
                e.member as u64,
                e.cents,
                framed.outcome.code as u64,
                framed.outcome.total,
            ];
            0
        }
        Err(fault) => {
            *answers = [0; 7];
            fault.into()
        }
    }
}

// The takings: all totals added up.
pub fn whitherhaul_journal_takings(members: u32, totals: &[u8], cents: &mut u64) -> u8
    ensures { TakenAs result cents.new (takings_of members totals.now) }
{
    let a = in_numbers(journal::takings(members, totals));
    *cents = a.count;
    a.code
}
