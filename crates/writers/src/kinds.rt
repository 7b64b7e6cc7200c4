// A writer for each kind that replicas send each other; `write_frame` chooses among them. `log` begins with the entries that are carried.
ghost use Rattle.std.specs.Prelude.{Some, None, [], ◌+◌, ◌-◌, ◌*◌, ◌≤◌, length, take};
ghost use Rattle.numbers.specs.Numbers.{Wrote};
ghost use Rattle.frames.specs.Kinds.{fields_end, state_end};
ghost use Rattle.frames.specs.Messages.{progress};
ghost use Rattle.writers.specs.Writers.{encode};

use crate::parts;
use entries::Entry;
use frames::{Kind, Message};
use numbers::{Op, View};

pub fn prepare(area: &mut [u8], to: u8, v: View, o: Op, c: Op, e: Entry) -> usize
    requires { fields_end 2 + 32 ≤ length area.old }
    ensures { Wrote (encode to (Message.Prepare v o c e) []) area.old area.new result }
{
    parts::write_viewed(area, 47, Kind::Prepare, to, v);
    numbers::write_u32(&mut area[11..], o.0);
    numbers::write_u32(&mut area[15..], c.0);
    entries::write_entry(&mut area[19..], e);
    51
}

pub fn prepare_ok(area: &mut [u8], to: u8, v: View, o: Op, r: u8) -> usize
    requires { fields_end 3 ≤ length area.old }
    ensures { Wrote (encode to (Message.PrepareOk v o r) []) area.old area.new result }
{
    parts::write_viewed(area, 12, Kind::PrepareOk, to, v);
    numbers::write_u32(&mut area[11..], o.0);
    numbers::write_u8(&mut area[15..], r);
    16
}

pub fn commit(area: &mut [u8], to: u8, v: View, c: Op) -> usize
    requires { fields_end 4 ≤ length area.old }
    ensures { Wrote (encode to (Message.Commit v c) []) area.old area.new result }
{
    parts::write_viewed(area, 11, Kind::Commit, to, v);
    numbers::write_u32(&mut area[11..], c.0);
    15
}

pub fn get_state(area: &mut [u8], to: u8, r: u8, v: View, o: Op) -> usize
    requires { fields_end 5 ≤ length area.old }
    ensures { Wrote (encode to (Message.GetState r v o) []) area.old area.new result }
{
    parts::write_header(area, 12, Kind::GetState, to);
    numbers::write_u8(&mut area[7..], r);
    numbers::write_u32(&mut area[8..], v.0);
    numbers::write_u32(&mut area[12..], o.0);
    16
}

// The entries after op number a, up to z; `log` begins with them.
pub fn new_state(area: &mut [u8], to: u8, v: View, a: Op, z: Op, c: Op, log: &[u8]) -> usize
    requires { (z.0 - a.0 ≤ 4096) × ((32 * (z.0 - a.0) ≤ length log.now) × (fields_end 6 + 32 * (z.0 - a.0) ≤ length area.old)) }
    ensures { Wrote (encode to (Message.NewState v a z c) (take (32 * (z.0 - a.0)) log.now)) area.old area.new result }
{
    let k = crate::span(a, z);
    let n = 32 * (k as usize);
    parts::write_span(area, 19 + 32 * k, to, v, a, z);
    numbers::write_u32(&mut area[19..], c.0);
    numbers::copy(&mut area[23..], log, n);
    23 + n
}

pub fn start_view_change(area: &mut [u8], to: u8, v: View, r: u8) -> usize
    requires { fields_end 7 ≤ length area.old }
    ensures { Wrote (encode to (Message.StartViewChange v r) []) area.old area.new result }
{
    parts::write_viewed(area, 8, Kind::StartViewChange, to, v);
    numbers::write_u8(&mut area[11..], r);
    12
}

pub fn do_view_change(
    area: &mut [u8],
    to: u8,
    v: View,
    r: u8,
    l: View,
    o: Op,
    c: Op,
    log: &[u8],
) -> usize
    requires { (o.0 ≤ 4096) × ((32 * o.0 ≤ length log.now) × (fields_end 8 + 32 * o.0 ≤ length area.old)) }
    ensures { Wrote (encode to (Message.DoViewChange v r l o c) (take (32 * o.0) log.now)) area.old area.new result }
{
    let n = 32 * (o.0 as usize);
    parts::write_report(area, 20 + 32 * o.0, to, v, r, l);
    numbers::write_u32(&mut area[16..], o.0);
    numbers::write_u32(&mut area[20..], c.0);
    numbers::copy(&mut area[24..], log, n);
    24 + n
}

pub fn start_view(area: &mut [u8], to: u8, v: View, o: Op, c: Op, log: &[u8]) -> usize
    requires { (o.0 ≤ 4096) × ((32 * o.0 ≤ length log.now) × (fields_end 9 + 32 * o.0 ≤ length area.old)) }
    ensures { Wrote (encode to (Message.StartView v o c) (take (32 * o.0) log.now)) area.old area.new result }
{
    let n = 32 * (o.0 as usize);
    parts::write_viewed(area, 15 + 32 * o.0, Kind::StartView, to, v);
    numbers::write_u32(&mut area[11..], o.0);
    numbers::write_u32(&mut area[15..], c.0);
    numbers::copy(&mut area[19..], log, n);
    19 + n
}

pub fn recovery(area: &mut [u8], to: u8, r: u8, x: u64, v: View) -> usize
    requires { fields_end 10 ≤ length area.old }
    ensures { Wrote (encode to (Message.Recovery r x v) []) area.old area.new result }
{
    parts::write_header(area, 16, Kind::Recovery, to);
    numbers::write_u8(&mut area[7..], r);
    numbers::write_u64(&mut area[8..], x);
    numbers::write_u32(&mut area[16..], v.0);
    20
}

// A RecoveryResponse of a replica that does not lead.
pub fn response_bare(area: &mut [u8], to: u8, v: View, x: u64, r: u8) -> usize
    requires { fields_end 11 ≤ length area.old }
    ensures { Wrote (encode to (Message.RecoveryResponse v x r None) []) area.old area.new result }
{
    parts::write_response(area, 17, to, v, x, r, 0);
    21
}

// A RecoveryResponse of the primary.
pub fn response_full(
    area: &mut [u8],
    to: u8,
    v: View,
    x: u64,
    r: u8,
    o: Op,
    c: Op,
    log: &[u8],
) -> usize
    requires { (o.0 ≤ 4096) × ((32 * o.0 ≤ length log.now) × (state_end + 32 * o.0 ≤ length area.old)) }
    ensures { Wrote (encode to (Message.RecoveryResponse v x r (Some (progress o c))) (take (32 * o.0) log.now)) area.old area.new result }
{
    let n = 32 * (o.0 as usize);
    parts::write_response(area, 25 + 32 * o.0, to, v, x, r, 1);
    numbers::write_u32(&mut area[21..], o.0);
    numbers::write_u32(&mut area[25..], c.0);
    numbers::copy(&mut area[29..], log, n);
    29 + n
}
