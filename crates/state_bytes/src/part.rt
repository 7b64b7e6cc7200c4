// The parts of the state run.
ghost use Rattle.std.specs.Prelude.{◌≡◌, ◌+◌, ◌≤◌, length, take, drop};
ghost use Rattle.numbers.specs.Numbers.{over};
ghost use Rattle.state_bytes.specs.Layout.{setup_of, encode_setup, clock_of, encode_clock, report_in, encode_report, ReportFits, reports_of, encode_reports, ReportsFit, all_reports_ok, all_zero};

use crate::flag;
use clock::Clock;
use config::Setup;
use state::{Report, Reports};

// The setup, 12 bytes.
pub fn setup_at(run: &[u8], at: usize) -> Setup
    requires { at + 12 ≤ length run.now }
    ensures { result ≡ setup_of (drop at run.now) }
{
    Setup {
        n: numbers::read_u8(run, at),
        id: numbers::read_u8(run, at + 1),
        timeout: numbers::read_u16(run, at + 2),
        room: numbers::read_u32(run, at + 4),
        members: numbers::read_u32(run, at + 8),
    }
}

pub fn write_setup(area: &mut [u8], u: Setup)
    requires { 12 ≤ length area.old }
    ensures { area.new ≡ over (encode_setup u) area.old }
{
    numbers::write_u8(area, u.n);
    numbers::write_u8(&mut area[1..], u.id);
    numbers::write_u16(&mut area[2..], u.timeout);
    numbers::write_u32(&mut area[4..], u.room);
    numbers::write_u32(&mut area[8..], u.members);
}

// The clock, 8 bytes.
pub fn clock_at(run: &[u8], at: usize) -> Clock
    requires { at + 8 ≤ length run.now }
    ensures { result ≡ clock_of (drop at run.now) }
{
    Clock {
        heard: flag::flag_at(run, at),
        waiting: numbers::read_u32(run, at + 1),
        stable: numbers::read_u16(run, at + 5),
        attempts: numbers::read_u8(run, at + 7),
    }
}

pub fn write_clock(area: &mut [u8], c: Clock)
    requires { 8 ≤ length area.old }
    ensures { area.new ≡ over (encode_clock c) area.old }
{
    flag::write_flag(area, c.heard);
    numbers::write_u32(&mut area[1..], c.waiting);
    numbers::write_u16(&mut area[5..], c.stable);
    numbers::write_u8(&mut area[7..], c.attempts);
}

// A report, 14 bytes.
fn report_at(run: &[u8], at: usize) -> Report
    requires { at + 14 ≤ length run.now }
    ensures { result ≡ report_in (drop at run.now) }
{
    Report {
        there: flag::flag_at(run, at),
        full: flag::flag_at(run, at + 1),
        view: numbers::read_view(run, at + 2),
        op: numbers::read_op(run, at + 6),
        commit: numbers::read_op(run, at + 10),
    }
}

// What the types of its fields say is told to whoever writes it: it is why the report is read back.
fn write_report(area: &mut [u8], d: Report)
    requires { 14 ≤ length area.old }
    ensures { (area.new ≡ over (encode_report d) area.old) × ReportFits d }
{
    flag::write_flag(area, d.there);
    flag::write_flag(&mut area[1..], d.full);
    numbers::write_u32(&mut area[2..], d.view.0);
    numbers::write_u32(&mut area[6..], d.op.0);
    numbers::write_u32(&mut area[10..], d.commit.0);
}

// Whether the two flags of each of seven reports have a meaning.
pub fn reports_ok(run: &[u8], at: usize) -> bool
    requires { at + 98 ≤ length run.now }
    ensures { result ≡ all_reports_ok 7 (drop at run.now) }
{
    for i in 0..7 {
        let p = at + 14 * i;
        if !flag::flag_ok(run, p) {
            return false;
        }
        if !flag::flag_ok(run, p + 1) {
            return false;
        }
    }
    true
}

// Whether the 98 bytes of the seven reports are all zero: a few wide looks.
pub fn is_zero(run: &[u8], at: usize) -> bool
    requires { at + 98 ≤ length run.now }
    ensures { result ≡ all_zero (take 98 (drop at run.now)) }
{
    for i in 0..12 {
        if numbers::read_u64(run, at + 8 * i) != 0 {
            return false;
        }
    }
    numbers::read_u16(run, at + 96) == 0
}

// Seven reports, one for each replica id.
pub fn reports_at(run: &[u8], at: usize) -> Reports
    requires { at + 98 ≤ length run.now }
    ensures { result ≡ reports_of (drop at run.now) }
{
    Reports {
        rows: [
            report_at(run, at),
            report_at(run, at + 14),
            report_at(run, at + 28),
            report_at(run, at + 42),
            report_at(run, at + 56),
            report_at(run, at + 70),
            report_at(run, at + 84),
        ],
    }
}

// And that there are seven rows.
pub fn write_reports(area: &mut [u8], t: Reports)
    requires { 98 ≤ length area.old }
    ensures { (area.new ≡ over (encode_reports t) area.old) × ReportsFit t }
{
    for (i, d) in t.rows.iter().enumerate() {
        write_report(&mut area[14 * i..], *d);
    }
}
