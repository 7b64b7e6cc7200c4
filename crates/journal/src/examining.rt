// The first bad frame of a file; and the entries and totals of a good one.
ghost use Rattle.std.specs.Prelude.{◌≡◌, ◌+◌, ◌*◌, ◌/◌, ◌≤◌, ◌<◌, length};
ghost use Rattle.numbers.specs.Numbers.{big, over};
ghost use Rattle.numbers.specs.Cells.{packed};
ghost use Rattle.entries.specs.Entries.{encode_entry};
ghost use Rattle.model.specs.Book.{through};
ghost use Rattle.journal.specs.Journal.{no_totals, filed};
ghost use Rattle.journal.specs.Examining.{form_fault, result_fault};
ghost use Rattle.journal.specs.Steps.{ExaminesForms, ExaminedBelow, Examines};

use crate::grouping::Group;
use crate::{Examined, Fault};
use fees::Outcome;

// What is wrong with the form of the frame at the front of s, which has to have this op number.
pub fn form_fault(s: &[u8], op: u32) -> Result<(), Fault>
    ensures { result ≡ form_fault op s.now }
{
    if s.len() < 50 {
        return Err(Fault::CutShort);
    }
    if numbers::read_u32(s, 0) != 46 {
        return Err(Fault::Length);
    }
    if numbers::read_u8(s, 4) != 1 {
        return Err(Fault::Version);
    }
    if numbers::read_u32(s, 5) != op {
        return Err(Fault::OpNumber);
    }
    if !entries::entry_ok(s, 9) {
        return Err(Fault::Entry);
    }
    Ok(())
}

// What is wrong with a result that stands there, where the fee rules give the first one.
fn result_fault(given: Outcome, stands: Outcome) -> Result<(), Fault>
    ensures { result ≡ result_fault given stands }
{
    if stands.code != given.code {
        return Err(Fault::Outcome);
    }
    if stands.total != given.total {
        return Err(Fault::Total);
    }
    Ok(())
}

// A file up to the first frame whose form is bad.
fn examine_forms(file: &[u8]) -> Examined
    ensures { ExaminesForms file.now result }
{
    for (i, frame) in file.chunks(50).enumerate() {
        if i == 4096 {
            return Examined {
                frames: i,
                fault: Some(Fault::PastLast),
            };
        }
        if let Err(fault) = form_fault(frame, (i + 1) as u32) {
            return Examined {
                frames: i,
                fault: Some(fault),
            };
        }
    }
    Examined {
        frames: file.len() / 50,
        fault: None,
    }
}

// A file up to the first frame that is bad by its form, or by its result where that is of this group of members or one before. j is what was found before this group.
fn examine_group(group: Group, file: &[u8], j: Examined) -> Examined
    requires { ExaminedBelow group.members group.low file.now j }
    ensures { ExaminedBelow group.members (group.low + 64) file.now result }
{
    let mut totals: [u8; 512] = [0; 512];
    for (i, frame) in file[..50 * j.frames].chunks_exact(50).enumerate() {
        let e = entries::entry_at(frame, 9);
        if group.has(e.member) {
            let given = group.apply(&mut totals, e);
            if let Err(fault) = result_fault(given, fees::result_at(frame, 41)) {
                return Examined {
                    frames: i,
                    fault: Some(fault),
                };
            }
        }
    }
    j
}

// A file up to its first bad frame. It is looked over once for the forms, and once for the results of each group of members.
pub fn examine(members: u32, file: &[u8]) -> Examined
    requires { 1 ≤ members }
    ensures { Examines members file.now result }
{
    let mut j = examine_forms(file);
    for low in (0..members).step_by(64) {
        j = examine_group(Group { members, low }, file, j);
    }
    j
}

// The entries of a file's frames into the area, 32 bytes each.
pub fn copy_entries(file: &[u8], area: &mut [u8])
    requires few { length file.now ≤ 204800 }
    requires room { 32 * (length file.now / 50) ≤ length area.old }
    ensures { area.new ≡ over (packed encode_entry (filed (length file.now / 50) file.now)) area.old }
{
    // Kept: by the index, since with file.chunks_exact(50).enumerate() a read of 4,096 frames of 240 members takes a tenth longer.
    for j in 0..file.len() / 50 {
        entries::write_entry(&mut area[32 * j..], entries::entry_at(file, 50 * j + 9));
    }
}

// The totals after a file's frames over a run of M totals.
pub fn put_totals(members: u32, file: &[u8], totals: &mut [u8])
    requires { length totals.old ≡ 8 * members }
    ensures { totals.new ≡ packed (big 8) (through (no_totals members) (filed (length file.now / 50) file.now)) }
{
    totals.fill(0);
    for frame in file.chunks_exact(50) {
        fees::apply(totals, members, entries::entry_at(frame, 9));
    }
}
