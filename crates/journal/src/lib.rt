// A journal of the applied entries, a frame of 50 bytes for each: written from a list of entries, appended to out of a replica's own log and results, and read back.
#![tactic(auto)]

ghost use Rattle.std.specs.Prelude.{◌≡◌};
ghost use Rattle.journal.specs.Calls.{write_call, append_call, totals_there, read_call, frame_in, takings_of};

use entries::Entry;
use fees::Outcome;

mod refusal; // why a call is refused
mod grouping; // the fee rules on the totals of 64 members
mod writing; // frames into an area
mod examining; // the first bad frame of a file

pub use refusal::{Fault, JournalRefusal};

// So many good frames, and what is wrong with what follows, if anything follows.
#[derive(Clone, Copy)]
pub struct Examined {
    pub frames: usize,
    pub fault: Option<Fault>,
}

// What stands in a frame.
#[derive(Clone, Copy)]
pub struct Framed {
    pub entry: Entry,
    pub outcome: Outcome,
}

// The journal of a run of entries, 32 bytes each, into the area, and how many bytes it has. Outcomes and totals are worked out by the fee rules from zero.
pub fn write(members: u32, run: &[u8], area: &mut [u8]) -> Result<usize, JournalRefusal>
    ensures { (record { answer = result; area = area.new }) ≡ write_call members run.now area.old }
{
    if !numbers::within(1, 4096, members as u64) {
        return Err(JournalRefusal::OutOfRange);
    }
    if !entries::run_ok(run) {
        return Err(JournalRefusal::BadEntry);
    }
    let n = run.len() / 32;
    if 4096 < n {
        return Err(JournalRefusal::TooMany);
    }
    if area.len() < 50 * n {
        return Err(JournalRefusal::NoRoom);
    }
    writing::write_frames(members, run, area);
    Ok(50 * n)
}

// The frames of ops from + 1 to `to` into the area, out of a replica's log and results, and how many bytes they have: nothing is worked out anew.
pub fn append(
    from: u32,
    to: u32,
    log: &[u8],
    results: &[u8],
    area: &mut [u8],
) -> Result<usize, JournalRefusal>
    ensures { (record { answer = result; area = area.new }) ≡ append_call from to log.now results.now area.old }
{
    if !writing::ops_there(from, to, log, results) {
        return Err(JournalRefusal::OutOfRange);
    }
    let k = (to - from) as usize;
    if area.len() < 50 * k {
        return Err(JournalRefusal::NoRoom);
    }
    writing::copy_frames(from, k, log, results, area);
    Ok(50 * k)
}

// Whether a run has M totals.
fn totals_there(members: u32, totals: &[u8]) -> bool
    ensures { result ≡ totals_there members totals.now }
{
    if !numbers::within(1, 4096, members as u64) {
        return false;
    }
    totals.len() == 8 * members as usize
}

// A file's entries into the area, 32 bytes each, the members' totals after them, and how many entries it has. The whole file is examined before any byte is written: what is lent keeps no trace of a bad one.
pub fn read(
    members: u32,
    file: &[u8],
    area: &mut [u8],
    totals: &mut [u8],
) -> Result<usize, JournalRefusal>
    ensures { (record { answer = result; area = area.new; totals = totals.new }) ≡ read_call members file.now area.old totals.old }
{
    if !totals_there(members, totals) {
        return Err(JournalRefusal::OutOfRange);
    }
    let j = examining::examine(members, file);
    if let Some(fault) = j.fault {
        return Err(JournalRefusal::BadFrame {
            offset: 50 * j.frames,
            fault,
        });
    }
    if area.len() < 32 * j.frames {
        return Err(JournalRefusal::NoRoom);
    }
    examining::copy_entries(file, area);
    examining::put_totals(members, file, totals);
    Ok(j.frames)
}

// What stands in frame number i + 1 of a file, whatever the fee rules say of it; or what is wrong with its form.
pub fn frame(file: &[u8], i: usize) -> Result<Framed, Fault>
    ensures { result ≡ frame_in i file.now }
{
    if 4096 <= i {
        return Err(Fault::PastLast);
    }
    let Some(rest) = file.get(50 * i..) else {
        return Err(Fault::CutShort);
    };
    examining::form_fault(rest, (i + 1) as u32)?;
    Ok(Framed {
        entry: entries::entry_at(rest, 9),
        outcome: fees::result_at(rest, 41),
    })
}

// The takings: all totals added up.
pub fn takings(members: u32, totals: &[u8]) -> Result<u64, JournalRefusal>
    ensures { result ≡ takings_of members totals.now }
{
    if !totals_there(members, totals) {
        return Err(JournalRefusal::OutOfRange);
    }
    let mut cents: u64 = 0;
    for total in totals.chunks_exact(8) {
        let t = numbers::read_u64(total, 0);
        if 1_000_000_000 < t {
            return Err(JournalRefusal::OutOfRange);
        }
        cents += t;
    }
    Ok(cents)
}
