// The client: its record's steps by value (`create`, `requested`, `replied`, `idled`), and a Reply read by the desk (`read_reply`).
#![tactic(auto)]

ghost use Rattle.std.specs.Prelude.{◌≡◌, false, ◌*◌, ◌≤◌, length, MatchOption};
ghost use Rattle.numbers.specs.Numbers.{Wrote};
ghost use Rattle.client.specs.Client.{fresh_client, create_of, may_request, requested_of, requested_area, raised_view, awaits, left_pending, replied_of, frames_to, frames_again, may_idle, idled_of, idled_area};
ghost use Rattle.client.specs.Replies.{reply_framed, reply_ok, read_reply, Reads};

use entries::Entry;
use numbers::View;

mod offset; // which byte of a malformed Reply is wrong
mod outcome; // what a Reply says that the fee rules gave
mod refusal; // why a call is refused

pub use outcome::{NoOutcome, ReplyOutcome};
pub use refusal::ClientRefusal;

// n replicas, the client's id, the latest view heard of, the next request number, and the request that waits for its reply, whole, so that it can
// be sent again.
#[derive(Clone, Copy)]
pub struct Client {
    pub n: u8,
    pub id: u64,
    pub view: View,
    pub next: u64,
    pub pending: Option<Entry>,
}

// A refused creation has a record too.
#[derive(Clone, Copy)]
pub struct AfterCreate {
    pub client: Client,
    pub answer: Result<(), ClientRefusal>,
}

// A request that was sent: its number, and the bytes written.
#[derive(Clone, Copy, Debug, PartialEq, Eq)]
pub struct RequestSent {
    pub number: u64,
    pub written: usize,
}

#[derive(Clone, Copy)]
pub struct AfterRequest {
    pub client: Client,
    pub answer: Result<RequestSent, ClientRefusal>,
}

// The answer: whether the pending request is done.
#[derive(Clone, Copy)]
pub struct AfterReply {
    pub client: Client,
    pub answer: Result<bool, ClientRefusal>,
}

// ---- creation

fn fresh(n: u8, id: u64) -> Client
    ensures { result ≡ fresh_client n id }
{
    Client {
        n,
        id,
        view: View(0),
        next: 0,
        pending: None,
    }
}

// A client of n replicas. Refused, its record is all zero.
pub fn create(n: u32, id: u64) -> AfterCreate
    ensures { result ≡ create_of n id }
{
    if !config::replicas_ok(n) {
        return AfterCreate {
            client: fresh(0, 0),
            answer: Err(ClientRefusal::OutOfRange),
        };
    }
    AfterCreate {
        client: fresh(n as u8, id),
        answer: Ok(()),
    }
}

// ---- a request

// The last request number: it is never given.
const LAST: u64 = u64::MAX;

// The first cause that refuses a request; `room` is the area's length.
fn may_request(c: Client, operation: u8, cents: u64, room: usize) -> Result<(), ClientRefusal>
    ensures { result ≡ may_request c operation cents room }
{
    if !config::replicas_ok(c.n as u32) {
        return Err(ClientRefusal::OutOfRange);
    }
    if !entries::operation_ok(operation, cents) {
        return Err(ClientRefusal::BadEntry);
    }
    if c.next == LAST {
        return Err(ClientRefusal::NoNumber);
    }
    if room < 39 {
        return Err(ClientRefusal::NoRoom);
    }
    Ok(())
}

// The Rust's `on_request`: one frame to the primary of the view known.
// Kept: operation, member and cents one by one, as C hands them over (`whitherhaul_client_request`). A struct of them would be made only to be taken apart here.
pub fn requested(c: Client, operation: u8, member: u32, cents: u64, area: &mut [u8]) -> AfterRequest
    ensures { (result ≡ requested_of c operation member cents (length area.old)) × (area.new ≡ requested_area c operation member cents area.old) }
{
    if let Err(cause) = may_request(c, operation, cents, area.len()) {
        return AfterRequest {
            client: c,
            answer: Err(cause),
        };
    }
    let entry = Entry {
        client: c.id,
        request: c.next,
        operation,
        member,
        cents,
    };
    let written = writers::write_request(area, config::primary_id(c.n, c.view), entry);
    AfterRequest {
        client: Client {
            next: c.next + 1,
            pending: Some(entry),
            ..c
        },
        answer: Ok(RequestSent {
            number: c.next,
            written,
        }),
    }
}

// ---- a reply

// Whether a request is pending and has this number.
#[tactic(auto, unfolding(crate::specs::Client::awaits))]
fn answers(p: Option<Entry>, number: u64) -> bool
    ensures { result ≡ awaits p number }
{
    p.is_some_and(|entry| entry.request == number)
}

// What is pending after a reply with this number.
fn left_pending(p: Option<Entry>, number: u64) -> Option<Entry>
    ensures { result ≡ left_pending p number }
{
    if answers(p, number) { None } else { p }
}

// The Rust's `on_reply`: the view is raised whether the number matches or not.
pub fn replied(c: Client, number: u64, view: View) -> AfterReply
    ensures { result ≡ replied_of c number view }
{
    if !config::replicas_ok(c.n as u32) {
        return AfterReply {
            client: c,
            answer: Err(ClientRefusal::OutOfRange),
        };
    }
    AfterReply {
        client: Client {
            view: View(c.view.0.max(view.0)),
            pending: left_pending(c.pending, number),
            ..c
        },
        answer: Ok(answers(c.pending, number)),
    }
}

// ---- an idle call

// How many bytes the frames to n replicas have, or 0 where nothing is pending.
fn resend_len(n: u8, p: Option<Entry>) -> usize
    ensures { result ≡ length (frames_again n p) }
{
    match p {
        None => 0,
        Some(_) => n as usize * 39,
    }
}

// The first cause that refuses an idle call; `room` is the area's length.
fn may_idle(c: Client, room: usize) -> Result<(), ClientRefusal>
    ensures { result ≡ may_idle c room }
{
    if !config::replicas_ok(c.n as u32) {
        return Err(ClientRefusal::OutOfRange);
    }
    if room < resend_len(c.n, c.pending) {
        return Err(ClientRefusal::NoRoom);
    }
    Ok(())
}

// The entry's frame to each of n replicas: the rest of the area is lent to the next frame.
fn send_all(area: &mut [u8], n: u8, e: Entry) -> usize
    requires { n * 39 ≤ length area.old }
    ensures { Wrote (frames_to n e) area.old area.new result }
{
    let mut at = 0;
    for to in 0..n {
        at += writers::write_request(&mut area[at..], to, e);
    }
    at
}

// The Rust's `on_idle`: the pending request, if any, to every replica, and how many bytes were written. The record stays as it is.
pub fn idled(c: Client, area: &mut [u8]) -> Result<usize, ClientRefusal>
    ensures { (result ≡ idled_of c (length area.old)) × (area.new ≡ idled_area c area.old) }
{
    may_idle(c, area.len())?;
    match c.pending {
        None => Ok(0),
        Some(entry) => Ok(send_all(area, c.n, entry)),
    }
}

// ---- a Reply, read

// What a Reply says.
#[derive(Clone, Copy)]
pub struct ReplyFields {
    pub view: View,
    pub client: u64,
    pub request: u64,
    pub outcome: ReplyOutcome,
    pub total: u64,
}

// The first wrong byte of a frame that is no Reply.
#[derive(Clone, Copy, Debug, PartialEq, Eq)]
pub struct Malformed {
    pub offset: usize,
}

// Whether the frame is a Reply's, but for its outcome.
fn framed(frame: &[u8]) -> bool
    ensures { result ≡ reply_framed frame.now }
{
    if frame.len() != 36 {
        return false;
    }
    if numbers::read_u32(frame, 0) != 32 {
        return false;
    }
    if numbers::read_u8(frame, 4) != 1 {
        return false;
    }
    if frames::kind_of(frame) != 12 {
        return false;
    }
    numbers::read_u8(frame, 6) == 0
}

// What a Reply says, or nothing where the frame is none.
#[tactic(auto, using(crate::proofs::ReplyLaws::framed_long))]
fn said(frame: &[u8]) -> Option<ReplyFields>
    ensures { MatchOption result (reply_ok frame.now ≡ false) (λ r. Ok r ≡ read_reply frame.now) }
{
    if !framed(frame) {
        return None;
    }
    let outcome = ReplyOutcome::try_from(numbers::read_u8(frame, 27)).ok()?;
    Some(ReplyFields {
        view: numbers::read_view(frame, 7),
        client: numbers::read_u64(frame, 11),
        request: numbers::read_u64(frame, 19),
        outcome,
        total: numbers::read_u64(frame, 28),
    })
}

// What a Reply says, or that the frame is malformed, which is refusal 2, and its first wrong byte.
pub fn read_reply(frame: &[u8]) -> Result<ReplyFields, Malformed>
    ensures { Reads frame.now result }
{
    said(frame).ok_or_else(|| Malformed {
        offset: offset::offset(frame),
    })
}
