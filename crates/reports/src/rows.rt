// The rows of reports, one for each replica id, by value. Loops go from the last id down, so that a tie stays with the highest.
ghost use Rattle.std.specs.Prelude.{◌≡◌, ◌≤◌, ◌<◌, length, get_or, take};
ghost use Rattle.state.specs.Statuses.{no_report};
ghost use Rattle.reports.specs.Rows.{with_report, count_one, greater_commit, later_view, better_of, filled_in, greatest_in, latest_view_in, chosen_from};
ghost use Rattle.state.specs.Sound.{is_none, report_ok, row_ok, reports_ok, gathered_ok};

use crate::Best;
use config::Setup;
use numbers::{Op, View};
use state::{Report, Reports};

// The report of replica i. That there are seven rows is told to whoever asks for one.
pub fn report_at(t: Reports, i: u8) -> Report
    requires { i < 7 }
    ensures { (result ≡ get_or t.rows i no_report) × (length t.rows ≡ 7) }
{
    t.rows[i as usize]
}

// The reports with that of replica i.
pub fn with_report(t: Reports, i: u8, d: Report) -> Reports
    requires { i < 7 }
    ensures { (result ≡ with_report t i d) × (length t.rows ≡ 7) }
{
    let mut u = t;
    u.rows[i as usize] = d;
    u
}

fn count_one(d: Report, k: u8) -> u8
    requires { k < 255 }
    ensures { result ≡ count_one d k }
{
    if d.there { k + 1 } else { k }
}

fn greater_commit(d: Report, g: Op) -> Op
    ensures { result.0 ≡ greater_commit d g.0 }
{
    if !d.there {
        return g;
    }
    if g.0 < d.commit.0 {
        return Op(d.commit.0);
    }
    g
}

fn later_view(d: Report, v: View) -> View
    ensures { result.0 ≡ later_view d v.0 }
{
    if !d.there {
        return v;
    }
    if v.0 < d.view.0 {
        return View(d.view.0);
    }
    v
}

// The report of replica i, or the best of those with higher ids.
fn better(d: Report, i: u8, b: Best) -> Best
    ensures { result ≡ better_of d i b }
{
    if !d.there {
        return b;
    }
    if !b.report.there {
        return Best { id: i, report: d };
    }
    if b.report.view.0 < d.view.0 {
        return Best { id: i, report: d };
    }
    if d.view.0 < b.report.view.0 {
        return b;
    }
    if b.report.op.0 < d.op.0 {
        return Best { id: i, report: d };
    }
    b
}

// How many of the first n are there.
pub fn filled(t: Reports, n: u8) -> u8
    requires { n ≤ 7 }
    ensures { result ≡ filled_in (take n t.rows) }
{
    let mut k = 0;
    for i in (0..n).rev() {
        k = count_one(report_at(t, i), k);
    }
    k
}

// The greatest commit number of the first n.
pub fn greatest_commit(t: Reports, n: u8) -> Op
    requires { n ≤ 7 }
    ensures { result.0 ≡ greatest_in (take n t.rows) }
{
    let mut g = Op(0);
    for i in (0..n).rev() {
        g = greater_commit(report_at(t, i), g);
    }
    g
}

// The latest view of the first n.
pub fn latest_view(t: Reports, n: u8) -> View
    requires { n ≤ 7 }
    ensures { result.0 ≡ latest_view_in (take n t.rows) }
{
    let mut v = View(0);
    for i in (0..n).rev() {
        v = later_view(report_at(t, i), v);
    }
    v
}

// Of the first n the one with the greatest last normal view, then the longest log, then the highest id.
pub fn choose(t: Reports, n: u8) -> Best
    requires { n ≤ 7 }
    ensures { result ≡ chosen_from 0 (take n t.rows) }
{
    let none = Report {
        there: false,
        full: false,
        view: View(0),
        op: Op(0),
        commit: Op(0),
    };
    let mut b = Best {
        id: 0,
        report: none,
    };
    for i in (0..n).rev() {
        b = better(report_at(t, i), i, b);
    }
    b
}

// A row without a report has nothing in it.
fn is_none(d: Report) -> bool
    ensures { result ≡ is_none d }
{
    if d.there {
        return false;
    }
    if d.full {
        return false;
    }
    if d.view.0 != 0 {
        return false;
    }
    if d.op.0 != 0 {
        return false;
    }
    d.commit.0 == 0
}

fn report_ok(d: Report, room: u32) -> bool
    ensures { result ≡ report_ok room d }
{
    if !d.there {
        return is_none(d);
    }
    if room < d.op.0 {
        return false;
    }
    d.commit.0 <= d.op.0
}

// Refusal 1 on row i: from n on there is none.
fn row_ok(t: Reports, i: u8, n: u8, room: u32) -> bool
    requires { i < 7 }
    ensures { (result ≡ row_ok room n i t.rows) × (length t.rows ≡ 7) }
{
    if n <= i {
        return is_none(report_at(t, i));
    }
    report_ok(report_at(t, i), room)
}

// Refusal 1 on the rows: given exactly where this is false. Each row is asked for by a number that the compiler knows, so that it keeps no table of rows for this.
fn reports_ok(t: Reports, n: u8, room: u32) -> bool
    requires { n ≤ 7 }
    ensures { result ≡ reports_ok room n t.rows }
{
    if !row_ok(t, 0, n, room) {
        return false;
    }
    if !row_ok(t, 1, n, room) {
        return false;
    }
    if !row_ok(t, 2, n, room) {
        return false;
    }
    if !row_ok(t, 3, n, room) {
        return false;
    }
    if !row_ok(t, 4, n, room) {
        return false;
    }
    if !row_ok(t, 5, n, room) {
        return false;
    }
    row_ok(t, 6, n, room)
}

// Refusal 1 on all that is gathered, in a setup of n replicas and this room: given exactly where this is false.
pub fn gathered_ok(starts: u8, t: Reports, u: Setup) -> bool
    requires { u.n ≤ 7 }
    ensures { result ≡ gathered_ok u starts t.rows }
{
    if 1u8 << u.n <= starts {
        return false;
    }
    reports_ok(t, u.n, u.room)
}
