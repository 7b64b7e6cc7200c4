// Frames of every kind, as replica 1 gets them, and frames with a part changed.
ghost use Rattle.std.specs.Prelude.{◌≡◌, ◌<◌, ◌≤◌, [], ◌∷◌, length, take, MatchOption};
ghost use Rattle.numbers.specs.Numbers.{big, Wrote};
ghost use Rattle.entries.specs.Entries.{encode_entry};
ghost use Rattle.comparing.specs.Areas.{stored_at};
ghost use Rattle.frame_vectors.specs.Vectors.{tried_entry, entries_run, tried_frame, vector_of, short_message, logged_message, tried_reply, with_bytes, cut_to, fitted_length};

use comparing::memory;
use entries::Entry;
use frames::{Message, Progress};
use numbers::{Op, View};

const NONCE: u64 = 0x0102030405060708;

// The kinds that carry no log, by their kind byte; a RecoveryResponse in its form 0.
#[derive(Clone, Copy)]
pub enum ShortKind {
    Request = 1,
    Prepare = 2,
    PrepareOk = 3,
    Commit = 4,
    GetState = 5,
    StartViewChange = 7,
    Recovery = 10,
    RecoveryResponse = 11,
}

// The kinds that carry a log; a RecoveryResponse in its form 1.
#[derive(Clone, Copy)]
pub enum LoggedKind {
    NewState = 6,
    DoViewChange = 8,
    StartView = 9,
    RecoveryResponse = 11,
}

// A frame, and room behind it.
// Kept: a Vec would let each function here fail for memory, and none of them fails.
#[derive(Clone, Copy)]
pub struct Vector {
    pub bytes: [u8; 192],
    pub len: usize,
}

impl Vector {
    // The frame, where it is no longer than its room.
    pub fn as_slice(&self) -> Option<&[u8]>
        ensures { MatchOption result (length self.now.bytes < self.now.len) (λ s. s.now ≡ take self.now.len self.now.bytes) }
    {
        self.bytes.get(..self.len)
    }
}

fn entry(client: u64, request: u64) -> Entry
    ensures { result ≡ tried_entry client request }
{
    Entry {
        client,
        request,
        operation: 1,
        member: 3,
        cents: 4500,
    }
}

fn put_entry(s: &mut [u8], at: usize, e: Entry)
    ensures { s.new ≡ stored_at at (encode_entry e) s.old }
{
    let mut run = [0; 32];
    entries::write_entry(&mut run, e);
    memory::store(s, at, &run);
}

// Four entries that rise, two of client 7, two of client 9, and room.
// Kept: as of `Vector`.
fn entries_run() -> [u8; 192]
    ensures { result ≡ entries_run }
{
    let mut s = [0; 192];
    put_entry(&mut s, 0, entry(7, 5));
    put_entry(&mut s, 32, entry(7, 6));
    put_entry(&mut s, 64, entry(9, 5));
    put_entry(&mut s, 96, entry(9, 6));
    s
}

fn short_message(kind: ShortKind) -> Message
    ensures { result ≡ short_message kind }
{
    let view = View(7);
    let op = Op(1);
    match kind {
        ShortKind::Request => Message::Request { entry: entry(7, 5) },
        ShortKind::Prepare => Message::Prepare {
            view,
            op,
            commit: Op(0),
            entry: entry(7, 5),
        },
        ShortKind::PrepareOk => Message::PrepareOk { view, op, from: 2 },
        ShortKind::Commit => Message::Commit { view, commit: op },
        ShortKind::GetState => Message::GetState { from: 2, view, op },
        ShortKind::StartViewChange => Message::StartViewChange { view, from: 2 },
        ShortKind::Recovery => Message::Recovery {
            from: 2,
            nonce: NONCE,
            view,
        },
        ShortKind::RecoveryResponse => Message::RecoveryResponse {
            view,
            nonce: NONCE,
            from: 2,
            state: None,
        },
    }
}

// A log of k entries, all committed.
fn logged_message(kind: LoggedKind, k: u32) -> Message
    ensures { result ≡ logged_message kind k }
{
    let view = View(7);
    let op = Op(k);
    match kind {
        LoggedKind::NewState => Message::NewState {
            view,
            start: Op(0),
            end: op,
            commit: op,
        },
        LoggedKind::DoViewChange => Message::DoViewChange {
            view,
            from: 2,
            last_normal: View(6),
            op,
            commit: op,
        },
        LoggedKind::StartView => Message::StartView {
            view,
            op,
            commit: op,
        },
        LoggedKind::RecoveryResponse => Message::RecoveryResponse {
            view,
            nonce: NONCE,
            from: 2,
            state: Some(Progress { op, commit: op }),
        },
    }
}

// The frame to replica 1; nothing where 192 bytes do not hold it.
fn written(area: &mut [u8], m: Message, log: &[u8]) -> usize
    requires { (192 ≤ length area.old) × (192 ≤ length log.now) }
    ensures { Wrote (tried_frame log.now m) area.old area.new result }
{
    if 192 < writers::frame_len(m) {
        return 0;
    }
    writers::write_frame(area, 1, m, log)
}

fn of(m: Message) -> Vector
    ensures { result ≡ vector_of (tried_frame entries_run m) }
{
    let mut bytes = [0; 192];
    let run = entries_run();
    let len = written(&mut bytes, m, &run);
    Vector { bytes, len }
}

// A frame of a kind that carries no log.
pub fn short(kind: ShortKind) -> Vector
    ensures { result ≡ vector_of (tried_frame entries_run (short_message kind)) }
{
    of(short_message(kind))
}

// A frame of a kind that carries a log, with the first k entries of the run.
pub fn logged(kind: LoggedKind, k: u32) -> Vector
    ensures { result ≡ vector_of (tried_frame entries_run (logged_message kind k)) }
{
    of(logged_message(kind, k))
}

// A Reply, which is no frame of a kind.
pub fn reply() -> Vector
    ensures { result ≡ vector_of tried_reply }
{
    let mut bytes = [0; 192];
    let len = writers::write_reply(&mut bytes, View(7), 7, 5, 1, 4500);
    Vector { bytes, len }
}

fn put_byte(s: &mut [u8], at: usize, b: u8)
    ensures { s.new ≡ stored_at at (b ∷ []) s.old }
{
    memory::store(s, at, &[b]);
}

// A byte put at a place of the frame or of its room; elsewhere there is none.
pub fn with_byte(v: Vector, at: usize, b: u8) -> Vector
    ensures { result ≡ with_bytes v at (b ∷ []) }
{
    let mut bytes = v.bytes;
    put_byte(&mut bytes, at, b);
    Vector { bytes, ..v }
}

fn put_long(s: &mut [u8], at: usize, x: u32)
    ensures { s.new ≡ stored_at at (big 4 x) s.old }
{
    let mut run = [0; 4];
    numbers::write_u32(&mut run, x);
    memory::store(s, at, &run);
}

// Four bytes likewise.
pub fn with_long(v: Vector, at: usize, x: u32) -> Vector
    ensures { result ≡ with_bytes v at (big 4 x) }
{
    let mut bytes = v.bytes;
    put_long(&mut bytes, at, x);
    Vector { bytes, ..v }
}

// The first n bytes of the frame and its room.
pub fn cut(v: Vector, n: usize) -> Vector
    ensures { result ≡ cut_to n v }
{
    Vector { len: n, ..v }
}

fn rest_of(n: usize) -> u32
    ensures { result ≡ fitted_length n }
{
    match n {
        4..=192 => (n - 4) as u32,
        _ => 0,
    }
}

// The first n bytes, with the length field put right.
pub fn fitted(v: Vector, n: usize) -> Vector
    ensures { result ≡ with_bytes (cut_to n v) 0 (big 4 (fitted_length n)) }
{
    with_long(cut(v, n), 0, rest_of(n))
}
