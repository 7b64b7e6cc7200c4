// Frames: what a frame says (`parse`), and the refusals 2 to 6 on the frame alone (`check`).
#![tactic(auto)]

ghost use Rattle.std.specs.Prelude.{◌≡◌, ◌+◌, ◌*◌, ◌≤◌, length};
ghost use Rattle.numbers.specs.Numbers.{within};
ghost use Rattle.frames.specs.Kinds.{kind_number, KindIf, kind_of};
ghost use Rattle.frames.specs.Messages.{carried_of, carried_bytes};
ghost use Rattle.frames.specs.Refusals.{number_of, refusal_of};
ghost use Rattle.frames.specs.Numbered.{Parses, Checks};
ghost use Rattle.frames.specs.Looks.{status_number, looks_at};

use config::Setup;
use entries::Entry;
use numbers::{Op, View};

mod shape; // when a frame is well formed
mod say; // what a well-formed frame of each kind says
mod row; // the numbers of a message that are judged
mod table; // which kinds a status looks at
mod offset; // which byte of a malformed frame is wrong

// What a replica is doing.
#[derive(Clone, Copy, PartialEq, Eq, Debug)]
pub enum Status {
    Normal,
    StateTransfer,
    ViewChange,
    Recovering,
}

impl From<Status> for u8 {
    ghost from_gives = { λ s n. n ≡ status_number s };

    fn from(s: Status) -> u8 {
        match s {
            Status::Normal => 0,
            Status::StateTransfer => 1,
            Status::ViewChange => 2,
            Status::Recovering => 3,
        }
    }
}

// The kinds of frames that replicas take, in the order of document 01's numbers. A Reply is 12, and for clients only.
#[derive(Clone, Copy, PartialEq, Eq, Debug)]
pub enum Kind {
    Request,
    Prepare,
    PrepareOk,
    Commit,
    GetState,
    NewState,
    StartViewChange,
    DoViewChange,
    StartView,
    Recovery,
    RecoveryResponse,
}

impl From<Kind> for u8 {
    ghost from_gives = { λ kind k. k ≡ kind_number kind };

    fn from(kind: Kind) -> u8 {
        match kind {
            Kind::Request => 1,
            Kind::Prepare => 2,
            Kind::PrepareOk => 3,
            Kind::Commit => 4,
            Kind::GetState => 5,
            Kind::NewState => 6,
            Kind::StartViewChange => 7,
            Kind::DoViewChange => 8,
            Kind::StartView => 9,
            Kind::Recovery => 10,
            Kind::RecoveryResponse => 11,
        }
    }
}

impl Kind {
    // The kind that has this number: none where it is 0 or above 11.
    pub fn of_number(k: u8) -> Option<Kind>
        ensures { KindIf (within 1 11 k) k result }
    {
        match k {
            1 => Some(Kind::Request),
            2 => Some(Kind::Prepare),
            3 => Some(Kind::PrepareOk),
            4 => Some(Kind::Commit),
            5 => Some(Kind::GetState),
            6 => Some(Kind::NewState),
            7 => Some(Kind::StartViewChange),
            8 => Some(Kind::DoViewChange),
            9 => Some(Kind::StartView),
            10 => Some(Kind::Recovery),
            11 => Some(Kind::RecoveryResponse),
            _ => None,
        }
    }
}

// How far a log has come: it has `op` entries, `commit` of them committed.
#[derive(Clone, Copy)]
pub struct Progress {
    pub op: Op,
    pub commit: Op,
}

// The eleven kinds, numbers only: a carried log stays in the frame. `state`: how far the log of the sender has come, where he leads.
#[derive(Clone, Copy)]
pub enum Message {
    Request {
        entry: Entry,
    },
    Prepare {
        view: View,
        op: Op,
        commit: Op,
        entry: Entry,
    },
    PrepareOk {
        view: View,
        op: Op,
        from: u8,
    },
    Commit {
        view: View,
        commit: Op,
    },
    GetState {
        from: u8,
        view: View,
        op: Op,
    },
    NewState {
        view: View,
        start: Op,
        end: Op,
        commit: Op,
    },
    StartViewChange {
        view: View,
        from: u8,
    },
    DoViewChange {
        view: View,
        from: u8,
        last_normal: View,
        op: Op,
        commit: Op,
    },
    StartView {
        view: View,
        op: Op,
        commit: Op,
    },
    Recovery {
        from: u8,
        nonce: u64,
        view: View,
    },
    RecoveryResponse {
        view: View,
        nonce: u64,
        from: u8,
        state: Option<Progress>,
    },
}

// What a message carries that is judged on the frame alone.
#[derive(Clone, Copy)]
pub struct Carried {
    pub kind: Kind,
    pub sender: u8,
    pub op: Op,
    pub commit: Op,
    pub start: usize,
    pub whole: u32,
}

// A frame read: to whom it goes, and what it says. The message stands first: behind a byte, the machine code finds its kind at run time that is known before.
#[derive(Clone, Copy)]
pub struct Addressed {
    pub message: Message,
    pub to: u8,
}

// Why a call of a replica is refused: document 01's causes, in the order of their numbers.
#[derive(Clone, Copy, PartialEq, Eq, Debug)]
pub enum Refusal {
    OutOfRange, // a setup, a number of the state or a lent buffer's length
    Malformed { offset: usize }, // a frame; its first wrong byte, or its length where only bytes are missing
    NotForUs, // another addressee, or a sender that isn't below n
    PastRoom, // more entries than the log has room for
    PastLog, // more is committed than the log has
    NotRising, // a client's request numbers don't rise along the log
    Uncommits, // committed entries would be lost
    LastView, // no view follows
    NoRoomForMessages,
    NoRoomForReplies,
}

impl From<Refusal> for u8 {
    ghost from_gives = { λ r n. n ≡ number_of r };

    fn from(r: Refusal) -> u8 {
        match r {
            Refusal::OutOfRange => 1,
            Refusal::Malformed { .. } => 2,
            Refusal::NotForUs => 3,
            Refusal::PastRoom => 4,
            Refusal::PastLog => 5,
            Refusal::NotRising => 6,
            Refusal::Uncommits => 7,
            Refusal::LastView => 8,
            Refusal::NoRoomForMessages => 9,
            Refusal::NoRoomForReplies => 10,
        }
    }
}

// The kind that a frame names, whether or not it is well formed.
pub fn kind_of(frame: &[u8]) -> u8
    requires { 6 ≤ length frame.now }
    ensures { result ≡ kind_of frame.now }
{
    numbers::read_u8(frame, 5)
}

// The addressee and the message of a frame, or that it is malformed.
pub fn parse(frame: &[u8]) -> Result<Addressed, Refusal>
    ensures { Parses frame.now result }
{
    let Some(kind) = shape::well_formed(frame) else {
        return Err(Refusal::Malformed {
            offset: offset::offset(frame),
        });
    };
    Ok(Addressed {
        to: numbers::read_u8(frame, 6),
        message: say::said(frame, kind),
    })
}

// Refusals 3, 4, 5, 6 of a well-formed frame, in this order.
fn judge(u: Setup, to: u8, x: Carried, frame: &[u8]) -> Result<(), Refusal>
    requires { x.start + 32 * x.whole ≤ length frame.now }
    ensures { result ≡ refusal_of u to x frame.now }
{
    if to != u.id || u.n <= x.sender {
        return Err(Refusal::NotForUs);
    }
    if u.room < x.op.0 {
        return Err(Refusal::PastRoom);
    }
    if x.op.0 < x.commit.0 {
        return Err(Refusal::PastLog);
    }
    let at = x.start;
    if !entries::is_rising(&frame[at..], x.whole as usize) {
        return Err(Refusal::NotRising);
    }
    Ok(())
}

// The message of a frame that a replica of this setup may look at, or the refusal that the frame alone earns.
pub fn check(u: Setup, frame: &[u8]) -> Result<Message, Refusal>
    ensures { Checks u frame.now result }
{
    let f = parse(frame)?;
    judge(u, f.to, row::carried(f.message), frame)?;
    Ok(f.message)
}

// The entries of a message's frame, as bytes; nothing where the frame ends before its fields do.
pub fn carried_bytes(m: Message, frame: &[u8]) -> &[u8]
    ensures { result.now ≡ carried_bytes m frame.now }
{
    let x = row::carried(m);
    let at = x.start;
    if frame.len() < at {
        let end = frame.len();
        return &frame[end..];
    }
    &frame[at..]
}

// Whether a status looks at a message: by the table of statuses and kinds.
pub fn looks(s: Status, m: Message) -> bool
    ensures { result ≡ looks_at s (carried_of m).kind }
{
    let x = row::carried(m);
    table::looks_at(s, x.kind)
}
