// Frames written: each over the front of the part that is lent, with the count of its bytes as the answer.
#![tactic(auto)]

ghost use Rattle.std.specs.Prelude.{◌≡◌, ◌+◌, ◌-◌, ◌*◌, ◌≤◌, ◌<◌, length, take, [], eqb};
ghost use Rattle.numbers.specs.Numbers.{Wrote};
ghost use Rattle.numbers.specs.Words.{when◌then◌else◌};
ghost use Rattle.frames.specs.Kinds.{fields_end};
ghost use Rattle.writers.specs.Writers.{encode, reply, state_size, size_of, length_of, Room, to_others};

use entries::Entry;
use frames::{Kind, Message, Progress};
use numbers::{Op, View};

mod parts; // the header, and the fields of frames that carry a log
pub mod kinds; // a writer for each kind that replicas send each other

// The bytes of a frame before the log that it carries, and how many entries that has.
#[derive(Clone, Copy, PartialEq, Eq, Debug)]
pub struct Size {
    pub fields: usize,
    pub entries: u32,
}

// A Request to replica `to`.
pub fn write_request(area: &mut [u8], to: u8, e: Entry) -> usize
    requires { fields_end 1 + 32 ≤ length area.old }
    ensures { Wrote (encode to (Message.Request e) []) area.old area.new result }
{
    parts::write_header(area, 35, Kind::Request, to);
    entries::write_entry(&mut area[7..], e);
    39
}

// A Reply: view, client, request, outcome's number and total.
pub fn write_reply(
    area: &mut [u8],
    v: View,
    client: u64,
    request: u64,
    outcome: u8,
    total: u64,
) -> usize
    requires { 36 ≤ length area.old }
    ensures { Wrote (reply v client request outcome total) area.old area.new result }
{
    parts::write_answered(area, v, client, request);
    numbers::write_u8(&mut area[27..], outcome);
    numbers::write_u64(&mut area[28..], total);
    36
}

// z less a, or 0.
fn span(a: Op, z: Op) -> u32
    ensures { result ≡ z.0 - a.0 }
{
    z.0.saturating_sub(a.0)
}

fn sized(fields: usize, entries: u32) -> Size
    ensures { result ≡ record { fields = fields; entries = entries } }
{
    Size { fields, entries }
}

fn response_size(state: Option<Progress>) -> Size
    ensures { result ≡ state_size state }
{
    match state {
        None => sized(21, 0),
        Some(p) => sized(29, p.op.0),
    }
}

fn frame_size(m: Message) -> Size
    ensures { result ≡ size_of m }
{
    match m {
        Message::Request { .. } => sized(39, 0),
        Message::Prepare { .. } => sized(51, 0),
        Message::PrepareOk { .. } => sized(16, 0),
        Message::Commit { .. } => sized(15, 0),
        Message::GetState { .. } => sized(16, 0),
        Message::NewState { start, end, .. } => sized(23, span(start, end)),
        Message::StartViewChange { .. } => sized(12, 0),
        Message::DoViewChange { op, .. } => sized(24, op.0),
        Message::StartView { op, .. } => sized(19, op.0),
        Message::Recovery { .. } => sized(20, 0),
        Message::RecoveryResponse { state, .. } => response_size(state),
    }
}

// How many bytes a message's frame has.
pub fn frame_len(m: Message) -> usize
    ensures { result ≡ length_of m }
{
    let s = frame_size(m);
    s.fields + 32 * (s.entries as usize)
}

fn write_state(
    area: &mut [u8],
    to: u8,
    v: View,
    x: u64,
    r: u8,
    state: Option<Progress>,
    log: &[u8],
) -> usize
    requires { Room (Message.RecoveryResponse v x r state) (length log.now) (length area.old) }
    ensures { Wrote (encode to (Message.RecoveryResponse v x r state) (take (32 * (size_of (Message.RecoveryResponse v x r state)).entries) log.now)) area.old area.new result }
{
    match state {
        None => kinds::response_bare(area, to, v, x, r),
        Some(Progress { op, commit }) => kinds::response_full(area, to, v, x, r, op, commit, log),
    }
}

// A message's frame to replica `to`. `log` begins with the entries that it carries.
pub fn write_frame(area: &mut [u8], to: u8, m: Message, log: &[u8]) -> usize
    requires { Room m (length log.now) (length area.old) }
    ensures { Wrote (encode to m (take (32 * (size_of m).entries) log.now)) area.old area.new result }
{
    match m {
        Message::Request { entry } => write_request(area, to, entry),
        Message::Prepare {
            view,
            op,
            commit,
            entry,
        } => kinds::prepare(area, to, view, op, commit, entry),
        Message::PrepareOk { view, op, from } => kinds::prepare_ok(area, to, view, op, from),
        Message::Commit { view, commit } => kinds::commit(area, to, view, commit),
        Message::GetState { from, view, op } => kinds::get_state(area, to, from, view, op),
        Message::NewState {
            view,
            start,
            end,
            commit,
        } => kinds::new_state(area, to, view, start, end, commit, log),
        Message::StartViewChange { view, from } => kinds::start_view_change(area, to, view, from),
        Message::DoViewChange {
            view,
            from,
            last_normal,
            op,
            commit,
        } => kinds::do_view_change(area, to, view, from, last_normal, op, commit, log),
        Message::StartView { view, op, commit } => kinds::start_view(
            area, to, view, op, commit, log,
        ),
        Message::Recovery { from, nonce, view } => kinds::recovery(area, to, from, nonce, view),
        Message::RecoveryResponse {
            view,
            nonce,
            from,
            state,
        } => write_state(area, to, view, nonce, from, state, log),
    }
}

// A message's frame, or nothing where it would go to ourselves.
fn write_other(area: &mut [u8], to: u8, me: u8, m: Message, log: &[u8]) -> usize
    requires { (to ≡ me → ⊥) → Room m (length log.now) (length area.old) }
    ensures { Wrote (when eqb to me then [] else encode to m (take (32 * (size_of m).entries) log.now)) area.old area.new result }
{
    if to == me {
        return 0;
    }
    write_frame(area, to, m, log)
}

// A message to each replica but ourselves, in id order: the rest of the area is lent to the next frame.
pub fn broadcast(area: &mut [u8], n: u8, me: u8, m: Message, log: &[u8]) -> usize
    requires { (me < n) × (((size_of m).entries ≤ 4096) × ((32 * (size_of m).entries ≤ length log.now) × ((n - 1) * length_of m ≤ length area.old))) }
    ensures { Wrote (to_others n me m (take (32 * (size_of m).entries) log.now)) area.old area.new result }
{
    let mut at = 0;
    for to in 0..n {
        at += write_other(&mut area[at..], to, me, m, log);
    }
    at
}
