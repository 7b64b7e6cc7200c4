// When a frame is well formed. Each test is made once all bytes that it reads are known to be there.
ghost use Rattle.std.specs.Prelude.{◌≡◌, true, ◌+◌, ◌-◌, ◌≤◌, eqb, length};
ghost use Rattle.numbers.specs.Words.{when◌then◌else◌};
ghost use Rattle.numbers.specs.Numbers.{num};
ghost use Rattle.frames.specs.Kinds.{kind_number, KindIf, kind_of, fields_end, response_mark, state_end, room_of, fields_ok, count_of, head_ok, body_ok, well_formed};

use crate::Kind;

// Where the fields of a RecoveryResponse end with a log.
pub const STATE_END: usize = 29;

// Where the fields end and the entries begin; of a RecoveryResponse without a log.
pub fn fields_end(kind: Kind) -> usize
    ensures { result ≡ fields_end (kind_number kind) }
{
    match kind {
        Kind::Request => 7,
        Kind::Prepare => 19,
        Kind::PrepareOk => 16,
        Kind::Commit => 15,
        Kind::GetState => 16,
        Kind::NewState => 23,
        Kind::StartViewChange => 12,
        Kind::DoViewChange => 24,
        Kind::StartView => 19,
        Kind::Recovery => 20,
        Kind::RecoveryResponse => 21,
    }
}

fn room(frame: &[u8], kind: Kind) -> usize
    requires { fields_end (kind_number kind) ≤ length frame.now }
    ensures { result ≡ room_of (kind_number kind) frame.now }
{
    if kind == Kind::RecoveryResponse {
        if numbers::read_u8(frame, 20) == 1 {
            return STATE_END;
        }
    }
    fields_end(kind)
}

fn fields_ok(frame: &[u8], kind: Kind) -> bool
    requires { fields_end (kind_number kind) ≤ length frame.now }
    ensures { result ≡ fields_ok (kind_number kind) frame.now }
{
    match kind {
        Kind::NewState => numbers::read_u32(frame, 11) <= numbers::read_u32(frame, 15),
        Kind::RecoveryResponse => numbers::read_u8(frame, 20) <= 1,
        _ => true,
    }
}

fn count_new_state(frame: &[u8]) -> u32
    requires { (fields_end 6 ≤ length frame.now) × (num 4 11 frame.now ≤ num 4 15 frame.now) }
    ensures { result ≡ num 4 15 frame.now - num 4 11 frame.now }
{
    numbers::read_u32(frame, 15) - numbers::read_u32(frame, 11)
}

fn count_response(frame: &[u8]) -> u32
    requires { (fields_end 11 ≤ length frame.now) × (response_mark frame.now ≡ 1 → state_end ≤ length frame.now) }
    ensures { result ≡ (when eqb (response_mark frame.now) 1 then num 4 21 frame.now else 0) }
{
    if numbers::read_u8(frame, 20) == 1 {
        return numbers::read_u32(frame, 21);
    }
    0
}

fn count(frame: &[u8], kind: Kind) -> u32
    requires { (room_of (kind_number kind) frame.now ≤ length frame.now) × (fields_ok (kind_number kind) frame.now ≡ true) }
    ensures { result ≡ count_of (kind_number kind) frame.now }
{
    match kind {
        Kind::Request => 1,
        Kind::Prepare => 1,
        Kind::NewState => count_new_state(frame),
        Kind::DoViewChange => numbers::read_u32(frame, 16),
        Kind::StartView => numbers::read_u32(frame, 11),
        Kind::RecoveryResponse => count_response(frame),
        _ => 0,
    }
}

fn head_ok(frame: &[u8]) -> bool
    ensures { result ≡ head_ok frame.now }
{
    let n = frame.len();
    if n < 7 {
        return false;
    }
    if numbers::read_u32(frame, 0) as usize + 4 != n {
        return false;
    }
    numbers::read_u8(frame, 4) == 1
}

fn body_ok(frame: &[u8], kind: Kind) -> bool
    ensures { result ≡ body_ok (kind_number kind) frame.now }
{
    let n = frame.len();
    if n < fields_end(kind) {
        return false;
    }
    if !fields_ok(frame, kind) {
        return false;
    }
    let at = room(frame, kind);
    if n < at {
        return false;
    }
    let k = count(frame, kind) as usize;
    if n != at + 32 * k {
        return false;
    }
    entries::entries_ok(frame, at, k)
}

// The kind of a well-formed frame. Refusal 2 is given exactly where this is none.
pub fn well_formed(frame: &[u8]) -> Option<Kind>
    ensures { KindIf (well_formed frame.now) (kind_of frame.now) result }
{
    if !head_ok(frame) {
        return None;
    }
    let kind = Kind::of_number(crate::kind_of(frame))?;
    if !body_ok(frame, kind) {
        return None;
    }
    Some(kind)
}
