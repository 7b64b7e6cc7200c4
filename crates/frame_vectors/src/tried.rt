// Frames handed in to `check` and `parse`, and their numbers printed.
// Kept: numbers of kinds and refusals, since they are what is printed and compared with the vectors; 98 and 99 stand there too.
use crate::vector;
use crate::vector::Vector;
use config::Setup;
use frames::Message;
use std::{fmt, io};

fn setup() -> Setup {
    Setup {
        n: 3,
        id: 1,
        timeout: 3,
        room: 3,
        members: 8,
    }
}

fn kind_of(m: Message) -> u8 {
    match m {
        Message::Request { .. } => 1,
        Message::Prepare { .. } => 2,
        Message::PrepareOk { .. } => 3,
        Message::Commit { .. } => 4,
        Message::GetState { .. } => 5,
        Message::NewState { .. } => 6,
        Message::StartViewChange { .. } => 7,
        Message::DoViewChange { .. } => 8,
        Message::StartView { .. } => 9,
        Message::Recovery { .. } => 10,
        Message::RecoveryResponse { .. } => 11,
    }
}

// The kind of the message that `parse` reads, 0: malformed.
fn kind_in(frame: &[u8]) -> u8 {
    match frames::parse(frame) {
        Ok(frame) => kind_of(frame.message),
        Err(_) => 0,
    }
}

fn checked(frame: &[u8]) -> u8 {
    match frames::check(setup(), frame) {
        Ok(_) => 0,
        Err(refusal) => u8::from(refusal),
    }
}

// The refusal number, 0: none; 98 where `check` and `parse` do not agree on 2.
fn number_in(frame: &[u8]) -> u8 {
    let k = checked(frame);
    if (k == 2) != (kind_in(frame) == 0) {
        return 98;
    }
    k
}

// 99: there is no such frame.
fn number(v: Vector) -> u8 {
    match v.as_slice() {
        Some(frame) => number_in(frame),
        None => 99,
    }
}

fn kind(v: Vector) -> u8 {
    match v.as_slice() {
        Some(frame) => kind_in(frame),
        None => 99,
    }
}

// Text, then the frame's number.
pub fn said<W: io::Write>(writer: &mut W, s: &str, v: Vector) -> io::Result<()> {
    write!(writer, "{s}{}", number(v))
}

// Text, then the kind of the message that is read.
pub fn said_kind<W: io::Write>(writer: &mut W, s: &str, v: Vector) -> io::Result<()> {
    write!(writer, "{s}{}", kind(v))
}

// A number that a frame holds at a place.
pub trait Held: Clone + Copy + fmt::Display {
    fn put(self, v: Vector, at: usize) -> Vector;
}

impl Held for u8 {
    fn put(self, v: Vector, at: usize) -> Vector {
        vector::with_byte(v, at, self)
    }
}

impl Held for u32 {
    fn put(self, v: Vector, at: usize) -> Vector {
        vector::with_long(v, at, self)
    }
}

// The frame with each value in turn at one place.
pub fn each<W: io::Write, T: Held>(
    writer: &mut W,
    name: &str,
    v: Vector,
    at: usize,
    values: &[T],
) -> io::Result<()> {
    write!(writer, "{name}")?;
    for x in values {
        write!(writer, " {x}:{}", number(x.put(v, at)))?;
    }
    Ok(())
}

// The kind bytes that are not refused by 2.
pub fn kind_bytes<W: io::Write>(writer: &mut W, v: Vector) -> io::Result<()> {
    for b in 0..=255 {
        let k = number(vector::with_byte(v, 5, b));
        if k != 2 {
            write!(writer, " {b}:{k}")?;
        }
    }
    Ok(())
}

// How many of the frame's prefixes are refused by 2.
pub fn cuts<F: Fn(Vector, usize) -> Vector>(v: Vector, cut: F) -> usize
    requires { F.IsAlwaysCallable cut }
{
    (0..v.len).filter(|n| number(cut(v, *n)) == 2).count()
}
