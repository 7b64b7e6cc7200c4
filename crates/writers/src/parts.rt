// The parts that frames begin with.
ghost use Rattle.std.specs.Prelude.{◌++◌, ◌≡◌, ◌≤◌, length};
ghost use Rattle.numbers.specs.Numbers.{big, over};
ghost use Rattle.frames.specs.Kinds.{kind_number};
ghost use Rattle.writers.specs.Writers.{header};

use frames::Kind;
use numbers::{Op, View};

// The number of a Reply. It is no kind of frame that a replica takes.
const REPLY: u8 = 12;

// Length, version, a kind's number, addressee.
fn write_numbered(area: &mut [u8], len: u32, number: u8, to: u8)
    requires { 7 ≤ length area.old }
    ensures { area.new ≡ over (header len number to) area.old }
{
    numbers::write_u32(area, len);
    numbers::write_u8(&mut area[4..], 1);
    numbers::write_u8(&mut area[5..], number);
    numbers::write_u8(&mut area[6..], to);
}

// Length, version, kind, addressee.
pub fn write_header(area: &mut [u8], len: u32, kind: Kind, to: u8)
    requires { 7 ≤ length area.old }
    ensures { area.new ≡ over (header len (kind_number kind) to) area.old }
{
    write_numbered(area, len, u8::from(kind), to);
}

// The header, and a view number.
pub fn write_viewed(area: &mut [u8], len: u32, kind: Kind, to: u8, v: View)
    requires { 11 ≤ length area.old }
    ensures { area.new ≡ over (header len (kind_number kind) to ++ big 4 v.0) area.old }
{
    write_header(area, len, kind, to);
    numbers::write_u32(&mut area[7..], v.0);
}

// A NewState up to its end.
pub fn write_span(area: &mut [u8], len: u32, to: u8, v: View, a: Op, z: Op)
    requires { 19 ≤ length area.old }
    ensures { area.new ≡ over (header len 6 to ++ big 4 v.0 ++ big 4 a.0 ++ big 4 z.0) area.old }
{
    write_viewed(area, len, Kind::NewState, to, v);
    numbers::write_u32(&mut area[11..], a.0);
    numbers::write_u32(&mut area[15..], z.0);
}

// A Reply up to the request number.
pub fn write_answered(area: &mut [u8], v: View, client: u64, request: u64)
    requires { 27 ≤ length area.old }
    ensures { area.new ≡ over (header 32 12 0 ++ big 4 v.0 ++ big 8 client ++ big 8 request) area.old }
{
    write_numbered(area, 32, REPLY, 0);
    numbers::write_u32(&mut area[7..], v.0);
    numbers::write_u64(&mut area[11..], client);
    numbers::write_u64(&mut area[19..], request);
}

// A DoViewChange up to the last normal view.
pub fn write_report(area: &mut [u8], len: u32, to: u8, v: View, r: u8, l: View)
    requires { 16 ≤ length area.old }
    ensures { area.new ≡ over (header len 8 to ++ big 4 v.0 ++ big 1 r ++ big 4 l.0) area.old }
{
    write_viewed(area, len, Kind::DoViewChange, to, v);
    numbers::write_u8(&mut area[11..], r);
    numbers::write_u32(&mut area[12..], l.0);
}

// A RecoveryResponse up to its mark: 0, or 1 where a log follows.
pub fn write_response(area: &mut [u8], len: u32, to: u8, v: View, x: u64, r: u8, mark: u8)
    requires { 21 ≤ length area.old }
    ensures { area.new ≡ over (header len 11 to ++ big 4 v.0 ++ big 8 x ++ big 1 r ++ big 1 mark) area.old }
{
    write_viewed(area, len, Kind::RecoveryResponse, to, v);
    numbers::write_u64(&mut area[11..], x);
    numbers::write_u8(&mut area[19..], r);
    numbers::write_u8(&mut area[20..], mark);
}
