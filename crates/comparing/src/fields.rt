// The state line: nineteen numbers, by their place in it; and the digest of the reports that are held.
ghost use Rattle.std.specs.Prelude.{◌≡◌, ◌+◌, ◌*◌, ◌^◌, ◌<◌, ◌≤◌, true, false, [], ◌∷◌, length};
ghost use Rattle.numbers.specs.Numbers.{big};
ghost use Rattle.state.specs.Statuses.{is_recovering};
ghost use Rattle.comparing.specs.Digests.{digest_after, digest_of, part_at};
ghost use Rattle.comparing.specs.Fields.{one_if, at_most_seven, held_set, held_as, row_text, table_text, state_line, field_in, first_differing, report_text, reports_text, reports_digest};

use crate::{digest, memory, words};
use frames::Status;
use state::{Replica, Report, Reports};

fn is_recovering(s: Status) -> bool
    ensures { result ≡ is_recovering s }
{
    matches!(s, Status::Recovering)
}

// The set with replica i, if its report is there.
fn with_held(set: u8, t: Reports, i: u8) -> u8
    requires { (i < 7) × (set ≡ held_set i t.rows) }
    ensures { result ≡ held_set (i + 1) t.rows }
{
    let d = reports::rows::report_at(t, i);
    if d.there {
        return config::insert(set, i);
    }
    set
}

// Whose report is there, among the first n, of seven at most.
fn held(t: Reports, n: u8) -> u8
    requires { n ≤ 7 }
    ensures { result ≡ held_set n t.rows }
{
    let mut set = 0;
    for i in 0..n {
        set = with_held(set, t, i);
    }
    set
}

// RecoveryResponses that are held, none but in Recovering; or DoViewChanges, none there.
fn held_as(responses: bool, s: Replica) -> u64
    ensures { result ≡ held_as responses s }
{
    if is_recovering(s.status) != responses {
        return 0;
    }
    u64::from(held(s.reports, s.setup.n.min(7)))
}

// One row of the client table: mark 0 is an unused one, 1 to 6 one with a reply, any other one without.
fn with_row(h: u64, row: &[u8]) -> u64
    requires { length row.now ≡ 25 }
    ensures { result ≡ digest_after h (row_text row.now) }
{
    match row[16] {
        0 => h,
        1..=6 => digest::with_bytes(h, row),
        _ => digest::with_bytes(digest::with_bytes(h, &row[..16]), &[0; 9]),
    }
}

// Row i, where the memory has so many.
fn with_nth(h: u64, mem: &[u8], i: u32) -> u64
    ensures { result ≡ digest_after h (row_text (part_at (400 + 25 * i) 25 mem.now)) }
{
    match memory::part(mem, memory::TABLE + 25 * i as usize, 25) {
        Some(row) => with_row(h, row),
        None => h,
    }
}

fn clients(mem: &[u8], room: u32) -> u64
    ensures { result ≡ digest_of (table_text room mem.now) }
{
    let mut h = digest::EMPTY;
    for i in 0..room {
        h = with_nth(h, mem, i);
    }
    h
}

fn part(mem: &[u8], at: usize, n: usize) -> u64
    ensures { result ≡ digest_of (part_at at n mem.now) }
{
    digest::with_part(digest::EMPTY, mem, at, n)
}

// What the state has at each place of the line.
pub fn values(s: Replica, mem: &[u8]) -> [u64; 19]
    ensures { result ≡ state_line s mem.now }
{
    let c = s.clock;
    [
        u64::from(u8::from(s.status)),
        u64::from(s.view.0),
        u64::from(s.normal.0),
        u64::from(s.op.0),
        u64::from(s.commit.0),
        u64::from(c.heard),
        u64::from(c.waiting),
        u64::from(c.stable),
        u64::from(c.attempts),
        u64::from(s.starts),
        u64::from(s.sent),
        u64::from(s.catching),
        held_as(false, s),
        held_as(true, s),
        part(mem, memory::LOG, 32 * s.op.0 as usize),
        clients(mem, s.setup.room),
        part(mem, memory::TOTALS, 8 * s.setup.members as usize),
        part(mem, memory::ACKS, s.setup.room as usize),
        part(mem, memory::LOG, 32 * s.commit.0 as usize),
    ]
}

// What a line has at place k.
fn wanted(line: &[u8], k: usize) -> u64
    requires { k < 2 ^ 63 }
    ensures { result ≡ field_in k line.now }
{
    if k < 14 {
        return words::decimal(line, k + 1);
    }
    words::hexadecimal(line, k + 1)
}

// The first place at which a line and the state differ, 19: none.
pub fn differing(line: &[u8], values: &[u64]) -> usize
    ensures { result ≡ first_differing line.now 0 values.now }
{
    for (k, x) in values.iter().enumerate() {
        if wanted(line, k) != *x {
            return k;
        }
    }
    values.len()
}

// The digest with a number of four bytes more.
fn with_number(h: u64, x: u32) -> u64
    ensures { result ≡ digest_after h (big 4 x) }
{
    let mut area = [0; 4];
    numbers::write_u32(&mut area, x);
    digest::with_bytes(h, &area)
}

// The numbers of a report.
fn with_numbers(h: u64, i: u8, d: Report) -> u64
    ensures { result ≡ digest_after (digest_after (digest_after (digest_after h (i ∷ one_if d.full ∷ [])) (big 4 d.view.0)) (big 4 d.op.0)) (big 4 d.commit.0) }
{
    let a = digest::with_bytes(h, &[i, u8::from(d.full)]);
    let b = with_number(a, d.view.0);
    let c = with_number(b, d.op.0);
    with_number(c, d.commit.0)
}

// The report of replica i, where it is there.
fn with_report(h: u64, i: u8, d: Report, room: u32, mem: &[u8]) -> u64
    requires { (i < 7) × (room ≤ 4096) }
    ensures { result ≡ digest_after h (report_text room i d mem.now) }
{
    if !d.there {
        return h;
    }
    let a = with_numbers(h, i, d);
    let at = memory::STORED + reports::judge::place(room, i);
    digest::with_part(a, mem, at, 32 * (d.op.0 as usize))
}

// The reports of the first n.
fn with_reports(t: Reports, n: u8, room: u32, mem: &[u8]) -> u64
    requires { (n ≤ 7) × (room ≤ 4096) }
    ensures { result ≡ digest_of (reports_text room n t.rows mem.now) }
{
    let mut h = digest::EMPTY;
    for i in 0..n {
        h = with_report(h, i, reports::rows::report_at(t, i), room, mem);
    }
    h
}

// The digest of the reports that are held.
pub fn reports(s: Replica, mem: &[u8]) -> u64
    ensures { result ≡ reports_digest s mem.now }
{
    if 4096 < s.setup.room {
        return digest::EMPTY;
    }
    with_reports(s.reports, s.setup.n.min(7), s.setup.room, mem)
}
