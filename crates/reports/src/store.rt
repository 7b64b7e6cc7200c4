// Logs of reports moved: each is copied once, to its replica's place or over our log.
ghost use Rattle.std.specs.Prelude.{◌≡◌, ◌+◌, ◌*◌, ◌≤◌, ◌<◌, length};
ghost use Rattle.state.specs.Lengths.{stored_place};
ghost use Rattle.reports.specs.Judge.{Lies};
ghost use Rattle.reports.specs.Store.{kept_log, chosen_over};

use crate::{Best, judge};
use numbers::Op;

// The log of a report, o entries, goes to the place of its replica.
pub fn keep(stored: &mut [u8], fresh: &[u8], room: u32, id: u8, o: Op)
    requires { (room ≤ 4096) × ((id < 7) × ((o.0 ≤ room) × ((stored_place room id + 32 * o.0 ≤ length stored.old) × (32 * o.0 ≤ length fresh.now)))) }
    ensures { stored.new ≡ kept_log room id o fresh.now stored.old }
{
    let at = judge::place(room, id);
    numbers::copy(&mut stored[at..], fresh, 32 * (o.0 as usize));
}

// The chosen log over ours; the new report, of replica `id`, has its log in `fresh`.
pub fn install<'a>(log: &mut [u8], b: Best, id: u8, room: u32, stored: &'a [u8], fresh: &'a [u8])
    requires { Lies b id room stored.now fresh.now × (length log.old ≡ 32 * room) }
    ensures { log.new ≡ chosen_over b id room stored.now fresh.now log.old }
{
    let k = b.report.op.0 as usize;
    let theirs = judge::chosen_log(b, id, room, stored, fresh);
    book::append_part(log, 0, theirs, k);
}

// The same where the new report is our own: if it is chosen, nothing moves.
pub fn install_own(log: &mut [u8], b: Best, id: u8, room: u32, stored: &[u8])
    requires { Lies b id room stored.now log.old × (length log.old ≡ 32 * room) }
    ensures { log.new ≡ chosen_over b id room stored.now log.old log.old }
{
    let from = b.id;
    if from == id {
        return;
    }
    let k = b.report.op.0 as usize;
    let at = judge::place(room, from);
    book::append_part(log, 0, &stored[at..], k);
}
