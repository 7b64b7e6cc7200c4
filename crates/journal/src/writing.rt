// Frames into an area, each straight after the one before it.
ghost use Rattle.std.specs.Prelude.{◌≡◌, ◌+◌, ◌*◌, ◌≤◌, ◌<◌, length, drop};
ghost use Rattle.numbers.specs.Numbers.{over};
ghost use Rattle.entries.specs.Entries.{entries, run_count};
ghost use Rattle.entries.specs.Places.{entry_place, result_place};
ghost use Rattle.fees.specs.Results.{outcomes};
ghost use Rattle.journal.specs.Journal.{journal_frame, frames_after, journal};
ghost use Rattle.journal.specs.Steps.{WritesGroup};
ghost use Rattle.journal.specs.Calls.{ops_there};

use crate::grouping::Group;
use entries::Entry;
use fees::Outcome;

// A frame's 50 bytes over the front of the area.
fn write_frame(area: &mut [u8], op: u32, e: Entry, o: Outcome)
    requires { 50 ≤ length area.old }
    ensures { area.new ≡ over (journal_frame op e o) area.old }
{
    numbers::write_u32(area, 46);
    numbers::write_u8(&mut area[4..], 1);
    numbers::write_u32(&mut area[5..], op);
    entries::write_entry(&mut area[9..], e);
    fees::write_result(&mut area[41..], o);
}

// The frames of those entries of a run that are of a group's members.
fn write_group(group: Group, run: &[u8], area: &mut [u8])
    requires few { run_count run.now ≤ 4096 }
    requires room { 50 * run_count run.now ≤ length area.old }
    ensures { WritesGroup group.members group.low (run_count run.now) run.now area.old area.new }
{
    let mut totals: [u8; 512] = [0; 512];
    // Kept: by the index, since with run.chunks_exact(32).enumerate() a write of 4,096 entries of 240 members takes a sixth longer.
    for k in 0..run.len() / 32 {
        let e = entries::entry_at(run, 32 * k);
        if group.has(e.member) {
            let o = group.apply(&mut totals, e);
            write_frame(&mut area[50 * k..], (k + 1) as u32, e, o);
        }
    }
}

// The frames of a run's entries, with what the fee rules give for each from totals of 0. The run is looked over once for each group of members.
pub fn write_frames(members: u32, run: &[u8], area: &mut [u8])
    requires some { 1 ≤ members }
    requires few { run_count run.now ≤ 4096 }
    requires room { 50 * run_count run.now ≤ length area.old }
    ensures { area.new ≡ over (journal members (entries (run_count run.now) run.now)) area.old }
{
    for low in (0..members).step_by(64) {
        write_group(Group { members, low }, run, area);
    }
}

// Whether log and results have the ops from + 1 to `to`.
pub fn ops_there(from: u32, to: u32, log: &[u8], results: &[u8]) -> bool
    ensures { result ≡ ops_there from to log.now results.now }
{
    if to < from {
        return false;
    }
    if 4096 < to {
        return false;
    }
    if log.len() < entries::entry_place(to as usize) {
        return false;
    }
    entries::result_place(to as usize) <= results.len()
}

// The frames of k ops after the first `from`, with the results that stand there.
pub fn copy_frames(from: u32, k: usize, log: &[u8], results: &[u8], area: &mut [u8])
    requires few { from + k ≤ 4096 }
    requires logged { entry_place (from + k) ≤ length log.now }
    requires given { result_place (from + k) ≤ length results.now }
    requires room { 50 * k ≤ length area.old }
    ensures { area.new ≡ over (frames_after from (entries k (drop (entry_place from) log.now)) (outcomes k (drop (result_place from) results.now))) area.old }
{
    let first = from as usize;
    // Kept: by the index, since a zip of two chunks_exact, each skipped to `from` and taken to k, and an enumerate over it are no plainer.
    for j in 0..k {
        let i = first + j;
        let e = entries::entry_in(log, i);
        let o = fees::result_in(results, i);
        write_frame(&mut area[50 * j..], (i + 1) as u32, e, o);
    }
}
