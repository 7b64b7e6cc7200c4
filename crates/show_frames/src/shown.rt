// A frame shown: its bytes, what `parse` reads in them, and whether that, written again, is the same.
ghost use Rattle.std.specs.Prelude.{◌≡◌};
ghost use Rattle.show_frames.specs.Shown.{fee_shown};

use crate::damage;
use crate::words::{EntryWords, MessageWords};
use entries::Entry;
use frames::{Message, Refusal};
use std::io;

fn line<W: io::Write>(writer: &mut W, s: &[u8]) -> io::Result<()> {
    write!(writer, " ")?;
    text::hex(writer, s)?;
    writeln!(writer)
}

// Two frames of 15 bytes.
pub fn pair<W: io::Write>(writer: &mut W, s: &[u8; 30]) -> io::Result<()> {
    for frame in s.chunks_exact(15) {
        line(writer, frame)?;
    }
    Ok(())
}

pub fn reply<W: io::Write>(writer: &mut W, s: &[u8]) -> io::Result<()> {
    line(writer, s)?;
    writeln!(writer, "  handed in: refusal {}", damage::number(s))
}

pub fn fee() -> Entry
    ensures { result ≡ fee_shown }
{
    Entry {
        client: 7,
        request: 0,
        operation: 1,
        member: 3,
        cents: 4500,
    }
}

fn refund() -> Entry {
    Entry {
        client: 9,
        request: 4,
        operation: 2,
        member: 3,
        cents: 1200,
    }
}

// Two entries, and room.
fn run() -> [u8; 96] {
    let mut s = [0; 96];
    entries::write_entry(&mut s, fee());
    entries::write_entry(&mut s[32..], refund());
    s
}

pub fn carried<W: io::Write>(writer: &mut W) -> io::Result<()> {
    writeln!(writer, "  1: {}", EntryWords(fee()))?;
    writeln!(writer, "  2: {}", EntryWords(refund()))
}

// The frame, where the area holds it. A log as long as the whole frame has the entries that it carries.
fn written<'a>(area: &'a mut [u8], to: u8, m: Message, log: &[u8]) -> Option<&'a [u8]> {
    let n = writers::frame_len(m);
    if n > area.len().min(log.len()).min(4096) {
        return None;
    }
    writers::write_frame(area, to, m, log);
    area.get(..n)
}

fn same_again(s: &[u8], to: u8, m: Message) -> bool {
    let mut area = [0; 96];
    match written(&mut area, to, m, &run()) {
        Some(again) => again == s,
        None => false,
    }
}

fn read<W: io::Write>(writer: &mut W, s: &[u8], to: u8, m: Message) -> io::Result<()> {
    let what = if same_again(s, to, m) {
        "the same"
    } else {
        "another frame"
    };
    write!(
        writer,
        "  to {to}: {}\n  read back: {what}",
        MessageWords(m)
    )
}

fn frame<W: io::Write>(writer: &mut W, s: &[u8]) -> io::Result<()> {
    line(writer, s)?;
    match frames::parse(s) {
        Ok(frame) => read(writer, s, frame.to, frame.message)?,
        Err(Refusal::Malformed { offset }) => write!(writer, "  malformed at byte {offset}")?,
        Err(refusal) => write!(writer, "  refused by {}", u8::from(refusal))?,
    }
    damage::copies(writer, s)
}

// The message's frame to replica 1.
pub fn message<W: io::Write>(writer: &mut W, m: Message) -> io::Result<()> {
    let mut area = [0; 96];
    let Some(s) = written(&mut area, 1, m, &run()) else {
        return Ok(());
    };
    if let Some(kind) = s.get(5) {
        writeln!(writer, "{}", text::KindByte(*kind))?;
    }
    frame(writer, s)
}
