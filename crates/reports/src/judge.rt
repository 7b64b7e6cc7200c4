// Quorums judged: nothing is stored here. The report that just came in, of replica `id`, is among the rows; its log isn't stored yet and
// lies in `fresh`, a part of its frame or our own log. All other logs lie in `stored`. `ours` is our log, c our commit number.
ghost use Rattle.std.specs.Prelude.{◌≡◌, true, false, ◌+◌, ◌*◌, ◌≤◌, length};
ghost use Rattle.state.specs.Lengths.{stored_place};
ghost use Rattle.reports.specs.Judge.{log_from, chosen_log, weighed, answered_by_primary, Lies, Fits};
ghost use Rattle.reports.specs.JudgedNumber.{Judges, JudgesResponse};

use crate::{Best, Judged, rows};
use numbers::{Op, View};
use state::Reports;

// Where the stored log of a replica begins.
pub fn place(room: u32, id: u8) -> usize
    requires { (room ≤ 4096) × (id ≤ 7) }
    ensures { result ≡ stored_place room id }
{
    32 * (room as usize) * (id as usize)
}

// The first k bytes of `fresh`, or k bytes of `stored` from a place on: lent, not copied.
fn log_of<'a>(stored: &'a [u8], fresh: &'a [u8], new: bool, at: usize, k: usize) -> &'a [u8]
    requires { (new ≡ true → k ≤ length fresh.now) × (new ≡ false → at + k ≤ length stored.now) }
    ensures { result.now ≡ log_from new at k stored.now fresh.now }
{
    if new {
        return &fresh[..k];
    }
    let e = at + k;
    &stored[at..e]
}

// The log of a report, where it lies.
pub fn chosen_log<'a>(b: Best, id: u8, room: u32, stored: &'a [u8], fresh: &'a [u8]) -> &'a [u8]
    requires { Lies b id room stored.now fresh.now }
    ensures { result.now ≡ chosen_log b id room stored.now fresh.now }
{
    let from = b.id;
    let k = 32 * (b.report.op.0 as usize);
    let at = place(room, from);
    log_of(stored, fresh, from == id, at, k)
}

// With a report and the commit number g to go up to. The numbers are compared first, the bytes last.
fn weigh<'a>(
    b: Best,
    g: Op,
    id: u8,
    room: u32,
    c: Op,
    ours: &[u8],
    stored: &'a [u8],
    fresh: &'a [u8],
) -> Judged
    requires { (Lies b id room stored.now fresh.now) × (32 * c.0 ≤ length ours.now) }
    ensures { result ≡ weighed b g id room c.0 ours.now stored.now fresh.now }
{
    if b.report.op.0 < g.0 {
        return Judged::Refuse;
    }
    if b.report.op.0 < c.0 {
        return Judged::Refuse;
    }
    let k = b.report.op.0 as usize;
    let theirs = chosen_log(b, id, room, stored, fresh);
    if book::keeps(ours, c.0 as usize, theirs, k) {
        return Judged::Begin { best: b, commit: g };
    }
    Judged::Refuse
}

// DoViewChanges of n replicas.
pub fn judge<'a>(
    t: Reports,
    n: u8,
    id: u8,
    room: u32,
    c: Op,
    ours: &[u8],
    stored: &'a [u8],
    fresh: &'a [u8],
) -> Judged
    requires { (Fits t n id room stored.now fresh.now) × (32 * c.0 ≤ length ours.now) }
    ensures { Judges t n id room c.0 ours.now stored.now fresh.now result }
{
    if rows::filled(t, n) < config::quorum(n) {
        return Judged::Wait;
    }
    let b = rows::choose(t, n);
    let g = rows::greatest_commit(t, n);
    weigh(b, g, id, room, c, ours, stored, fresh)
}

// With the row of the primary of the latest view, v, which may be empty.
fn judge_primary<'a>(
    b: Best,
    v: View,
    id: u8,
    room: u32,
    c: Op,
    ours: &[u8],
    stored: &'a [u8],
    fresh: &'a [u8],
) -> Judged
    requires { (b.report.there ≡ true → Lies b id room stored.now fresh.now) × (32 * c.0 ≤ length ours.now) }
    ensures { result ≡ answered_by_primary b v.0 id room c.0 ours.now stored.now fresh.now }
{
    if !b.report.there {
        return Judged::Wait;
    }
    if !b.report.full {
        return Judged::Wait;
    }
    if b.report.view.0 != v.0 {
        return Judged::Wait;
    }
    let commit = b.report.commit;
    weigh(b, commit, id, room, c, ours, stored, fresh)
}

// RecoveryResponses of n replicas; `view` is ours.
pub fn judge_response<'a>(
    t: Reports,
    n: u8,
    id: u8,
    room: u32,
    view: View,
    c: Op,
    ours: &[u8],
    stored: &'a [u8],
    fresh: &'a [u8],
) -> Judged
    requires { (Fits t n id room stored.now fresh.now) × (32 * c.0 ≤ length ours.now) }
    ensures { JudgesResponse t n id room view.0 c.0 ours.now stored.now fresh.now result }
{
    if rows::filled(t, n) < config::quorum(n) {
        return Judged::Wait;
    }
    let v = rows::latest_view(t, n);
    if v.0 < view.0 {
        return Judged::Wait;
    }
    let p = config::primary_id(n, v);
    let d = rows::report_at(t, p);
    let b = Best { id: p, report: d };
    judge_primary(b, v, id, room, c, ours, stored, fresh)
}
