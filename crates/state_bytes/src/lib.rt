// The state in a lent byte run of 154 bytes, for callers that aren't Rattle: read, written, and tested for bytes without meaning.
#![tactic(auto)]

ghost use Rattle.std.specs.Prelude.{◌≡◌, true, ◌≤◌, length};
ghost use Rattle.numbers.specs.Numbers.{over};
ghost use Rattle.state_bytes.specs.Layout.{state_with, state_of, encode_place, encode_votes, Onward, Clocked, state_ok, is_quiet, front_ok, look_of, looks_quiet, HoldsState};

use state::{Replica, Reports};

mod part; // setup, clock, reports
mod flag; // flags and the status

// The state that the run holds, with these reports.
fn read_with(run: &[u8], reports: Reports) -> Replica
    requires { 154 ≤ length run.now }
    ensures { result ≡ state_with run.now reports }
{
    Replica {
        setup: part::setup_at(run, 0),
        status: flag::status_of(numbers::read_u8(run, 12)),
        view: numbers::read_view(run, 13),
        normal: numbers::read_view(run, 17),
        catching: flag::flag_at(run, 21),
        op: numbers::read_op(run, 22),
        commit: numbers::read_op(run, 26),
        takings: numbers::read_u64(run, 146),
        clock: part::clock_at(run, 30),
        starts: numbers::read_u8(run, 38),
        sent: flag::flag_at(run, 39),
        nonce: numbers::read_u64(run, 40),
        reports,
    }
}

// The state that the run holds.
pub fn read_state(run: &[u8]) -> Replica
    requires { 154 ≤ length run.now }
    ensures { result ≡ state_of run.now }
{
    read_with(run, part::reports_at(run, 48))
}

// Whether no report is there: the state outside of a view change and a recovery.
pub fn is_quiet(run: &[u8]) -> bool
    requires { 154 ≤ length run.now }
    ensures { result ≡ is_quiet run.now }
{
    part::is_zero(run, 48)
}

// The state that such a run holds: its reports are not read.
pub fn read_quiet(run: &[u8]) -> Replica
    requires { (154 ≤ length run.now) × (is_quiet run.now ≡ true) }
    ensures { result ≡ state_of run.now }
{
    read_with(run, state::no_reports())
}

// Where the replica stands: 18 bytes.
fn write_place(area: &mut [u8], s: Replica)
    requires { 18 ≤ length area.old }
    ensures { area.new ≡ over (encode_place s) area.old }
{
    numbers::write_u8(area, u8::from(s.status));
    numbers::write_u32(&mut area[1..], s.view.0);
    numbers::write_u32(&mut area[5..], s.normal.0);
    flag::write_flag(&mut area[9..], s.catching);
    numbers::write_u32(&mut area[10..], s.op.0);
    numbers::write_u32(&mut area[14..], s.commit.0);
}

// What a view change or a recovery has gathered, but for the reports: 10 bytes.
fn write_votes(area: &mut [u8], s: Replica)
    requires { 10 ≤ length area.old }
    ensures { area.new ≡ over (encode_votes s) area.old }
{
    numbers::write_u8(area, s.starts);
    flag::write_flag(&mut area[1..], s.sent);
    numbers::write_u64(&mut area[2..], s.nonce);
}

// The run holds the state.
pub fn write_state(run: &mut [u8], s: Replica)
    requires { length run.old ≡ 154 }
    ensures { HoldsState s run.new }
{
    let setup = s.setup;
    part::write_setup(run, setup);
    write_place(&mut run[12..], s);
    let clock = s.clock;
    part::write_clock(&mut run[30..], clock);
    write_votes(&mut run[38..], s);
    let reports = s.reports;
    part::write_reports(&mut run[48..], reports);
    numbers::write_u64(&mut run[146..], s.takings);
}

// The run goes from the state that it holds to one that is further on in the same view: 18 bytes.
pub fn write_onward(run: &mut [u8], s: Replica)
    requires { (state_ok run.old ≡ true) × Onward (state_of run.old) s }
    ensures { HoldsState s run.new }
{
    numbers::write_u8(&mut run[12..], u8::from(s.status));
    numbers::write_u32(&mut run[22..], s.op.0);
    numbers::write_u32(&mut run[26..], s.commit.0);
    let clock = s.clock;
    flag::write_flag(&mut run[30..], clock.heard);
    numbers::write_u64(&mut run[146..], s.takings);
}

// The same where only the clock is another: 8 bytes.
pub fn write_clocked(run: &mut [u8], s: Replica)
    requires { (state_ok run.old ≡ true) × Clocked (state_of run.old) s }
    ensures { HoldsState s run.new }
{
    let clock = s.clock;
    part::write_clock(&mut run[30..], clock);
}

// Whether the run has its length, and a status and flags with a meaning, those of the reports left aside.
fn front_ok(run: &[u8]) -> bool
    ensures { result ≡ front_ok run.now }
{
    if run.len() != 154 {
        return false;
    }
    if 3 < numbers::read_u8(run, 12) {
        return false;
    }
    if !flag::flag_ok(run, 21) {
        return false;
    }
    if !flag::flag_ok(run, 30) {
        return false;
    }
    flag::flag_ok(run, 39)
}

// What a run that holds a state is: one without reports, or one whose reports are to be read.
#[derive(Clone, Copy)]
pub enum Look {
    Quiet,
    Reporting,
}

impl Look {
    pub fn is_quiet(self) -> bool
        ensures { result ≡ looks_quiet self }
    {
        match self {
            Look::Quiet => true,
            Look::Reporting => false,
        }
    }
}

// None: it holds no state, for its length or a byte without meaning. The reports' bytes are looked at once for both.
pub fn look_over(run: &[u8]) -> Option<Look>
    ensures { result ≡ look_of run.now }
{
    if !front_ok(run) {
        return None;
    }
    if is_quiet(run) {
        return Some(Look::Quiet);
    }
    if !part::reports_ok(run, 48) {
        return None;
    }
    Some(Look::Reporting)
}
