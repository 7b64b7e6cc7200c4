// A desk's day: requests, a lost reply and its re-send, a duplicate reply, a view change learned from a reply, refused requests, frames
// that are no Reply, and a client at its last request number. Each frame is printed as hex and each answer in words. The replicas are played by hand.
// Then the recorded calls of clients that come in as input, compared.
#![tactic(auto)]

mod lent; // the client's functions on a lent record
mod recorded; // recorded calls, played through them

use client::{Client, ClientRefusal, ReplyOutcome};
use numbers::View;
use std::io;

// The number that document 01 gives an answer: 0 where the call is done.
fn number<T: Drop>(answer: Result<T, ClientRefusal>) -> u8 {
    match answer {
        Ok(_) => 0,
        Err(cause) => u8::from(cause),
    }
}

// The first n bytes of the area as hex, a line to each 39 bytes.
fn say_frames<W: io::Write>(writer: &mut W, area: &[u8], n: usize) -> io::Result<()> {
    for (i, b) in area.iter().take(n).enumerate() {
        write!(writer, "{b:02x}")?;
        if i % 39 == 38 {
            writeln!(writer)?;
        }
    }
    Ok(())
}

fn say_record<W: io::Write>(writer: &mut W, c: Client) -> io::Result<()> {
    write!(writer, "  view {}, next {}, ", c.view.0, c.next)?;
    match c.pending {
        None => writeln!(writer, "nothing pending"),
        Some(entry) => writeln!(writer, "pending {}", entry.request),
    }
}

// `on_request` over the area that is lent.
fn ask_in<W: io::Write>(
    writer: &mut W,
    c: &mut Client,
    operation: u8,
    member: u32,
    cents: u64,
    area: &mut [u8],
) -> io::Result<()> {
    let after = lent::request(*c, operation, member, cents, area);
    *c = after.client;
    write!(writer, "request: refusal {}, ", number(after.answer))?;
    match after.answer {
        Err(_) => writeln!(writer, "number 0, written 0")?,
        Ok(sent) => {
            writeln!(writer, "number {}, written {}", sent.number, sent.written)?;
            say_frames(writer, area, sent.written)?;
        }
    }
    say_record(writer, after.client)
}

fn ask<W: io::Write>(
    writer: &mut W,
    c: &mut Client,
    operation: u8,
    member: u32,
    cents: u64,
) -> io::Result<()> {
    let mut area = [0u8; 273];
    ask_in(writer, c, operation, member, cents, &mut area)
}

// `on_idle`.
fn wait<W: io::Write>(writer: &mut W, c: &mut Client) -> io::Result<()> {
    let mut area = [0u8; 273];
    let after = lent::idle(*c, &mut area);
    *c = after.client;
    let written = after.answer.unwrap_or(0);
    writeln!(
        writer,
        "idle: refusal {}, written {written}",
        number(after.answer)
    )?;
    say_frames(writer, &area, written)
}

fn name(outcome: ReplyOutcome) -> &'static str {
    match outcome {
        ReplyOutcome::Fee => "fee",
        ReplyOutcome::Refund => "refund",
        ReplyOutcome::Ask => "ask",
        ReplyOutcome::NoMember => "no such member",
        ReplyOutcome::PastLimit => "past the limit",
        ReplyOutcome::PastTotal => "past the total",
    }
}

// `on_reply`, of a frame that came.
fn hear_frame<W: io::Write>(writer: &mut W, c: &mut Client, frame: &[u8]) -> io::Result<()> {
    say_frames(writer, frame, frame.len())?;
    writeln!(writer)?;
    match client::read_reply(frame) {
        Err(malformed) => writeln!(writer, "reply: malformed at byte {}", malformed.offset),
        Ok(reply) => {
            let after = lent::reply(*c, reply.request, reply.view);
            *c = after.client;
            let done = if after.answer == Ok(true) {
                "yes"
            } else {
                "no"
            };
            write!(
                writer,
                "reply: refusal {}, done {done}, ",
                number(after.answer)
            )?;
            writeln!(writer, "{}, total {}", name(reply.outcome), reply.total)?;
            say_record(writer, after.client)
        }
    }
}

// A Reply as a replica in view v writes it.
fn hear<W: io::Write>(
    writer: &mut W,
    c: &mut Client,
    v: u32,
    request: u64,
    outcome: u8,
    total: u64,
) -> io::Result<()> {
    let mut frame = [0u8; 36];
    writers::write_reply(&mut frame, View(v), c.id, request, outcome, total);
    hear_frame(writer, c, &frame)
}

fn start<W: io::Write>(writer: &mut W, n: u32, id: u64) -> io::Result<Client> {
    let after = client::create(n, id);
    writeln!(writer, "create: refusal {}", number(after.answer))?;
    say_record(writer, after.client)?;
    Ok(after.client)
}

// The morning: a fee, its reply lost, sent again, answered twice.
fn morning<W: io::Write>(writer: &mut W, c: &mut Client) -> io::Result<()> {
    ask(writer, c, 1, 3, 4500)?;
    wait(writer, c)?;
    hear(writer, c, 0, 0, 1, 4500)?;
    hear(writer, c, 0, 0, 1, 4500)?;
    wait(writer, c)
}

// Noon: requests that are refused leave the record as it was.
fn noon<W: io::Write>(writer: &mut W, c: &mut Client) -> io::Result<()> {
    ask(writer, c, 1, 3, 0)?;
    ask(writer, c, 4, 3, 1)?;
    let mut short = [0u8; 38];
    ask_in(writer, c, 1, 3, 1, &mut short)
}

// The afternoon: a refund. An old reply tells of view 4, whose primary is replica 1 of 3; the request still waits, and is sent again.
fn afternoon<W: io::Write>(writer: &mut W, c: &mut Client) -> io::Result<()> {
    ask(writer, c, 2, 3, 500)?;
    hear(writer, c, 4, 0, 1, 4500)?;
    wait(writer, c)?;
    hear(writer, c, 4, 1, 2, 4000)?;
    ask(writer, c, 3, 3, 0)?;
    hear(writer, c, 4, 2, 7, 4000)?;
    hear_frame(writer, c, b"\x00\x00\x00\x20\x01\x0c\x00")?;
    hear(writer, c, 4, 2, 3, 4000)
}

// A client at its last request: 11 is for requests only, so the last one can still be sent again and answered.
fn last_request<W: io::Write>(writer: &mut W) -> io::Result<()> {
    let mut c = Client {
        n: 3,
        id: 7,
        view: View(5),
        next: u64::MAX - 1,
        pending: None,
    };
    ask(writer, &mut c, 3, 0, 0)?;
    ask(writer, &mut c, 3, 0, 0)?;
    wait(writer, &mut c)?;
    hear(writer, &mut c, 5, u64::MAX - 1, 4, 0)
}

// The recorded calls that come in, of 32,768 bytes at most.
fn play_recorded<R: io::Read, W: io::Write>(reader: &mut R, writer: &mut W) -> io::Result<()> {
    let mut input = [0u8; 32768];
    let n = text::read_full(reader, &mut input)?;
    recorded::replay(writer, &input[..n])
}

// The whole day.
fn day<W: io::Write>(writer: &mut W) -> io::Result<()> {
    let mut none = start(writer, 2, 7)?;
    ask(writer, &mut none, 1, 3, 4500)?;
    wait(writer, &mut none)?;
    let mut c = start(writer, 3, 7)?;
    morning(writer, &mut c)?;
    noon(writer, &mut c)?;
    afternoon(writer, &mut c)?;
    ask(writer, &mut c, 1, 5, 100)?;
    ask(writer, &mut c, 1, 5, 200)?;
    wait(writer, &mut c)?;
    last_request(writer)
}

fn main(rt: HostRuntime) -> io::Result<()> {
    let mut writer = io::writer(&rt);
    day(&mut writer)?;
    play_recorded(&mut rt.reader(), &mut writer)
}
