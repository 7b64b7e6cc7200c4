// Carried entries: the entry rules, logs of L and of L+1 entries, and logs that do not rise.
ghost use Rattle.std.specs.Prelude.{◌≤◌};

use crate::vector::{LoggedKind, Vector};
use crate::{tried, vector};
use std::io;

fn cents<W: io::Write>(writer: &mut W, name: &str, v: Vector, at: usize) -> io::Result<()> {
    tried::each(writer, name, v, at, &[0u32, 1, 1000000, 1000001])
}

// The entry rules on the entry at a place.
pub fn rules<W: io::Write>(writer: &mut W, v: Vector, at: usize) -> io::Result<()>
    requires { at ≤ 61 }
{
    for (name, operation) in [
        ("  cents of operation 0:", 0),
        ("; 1:", 1),
        ("; 2:", 2),
        ("; 3:", 3),
        ("; 4:", 4),
        ("; 255:", 255),
    ] {
        cents(
            writer,
            name,
            vector::with_byte(v, at + 16, operation),
            at + 28,
        )?;
    }
    writeln!(writer)?;
    zeros(writer, v, at)
}

fn zeros<W: io::Write>(writer: &mut W, v: Vector, at: usize) -> io::Result<()>
    requires { at ≤ 61 }
{
    tried::said(
        writer,
        "  zero bytes set to 1: ",
        vector::with_byte(v, at + 17, 1),
    )?;
    tried::said(writer, " ", vector::with_byte(v, at + 18, 1))?;
    tried::said(writer, " ", vector::with_byte(v, at + 19, 1))?;
    tried::said(
        writer,
        "; cents 4500 + 2^32: ",
        vector::with_byte(v, at + 27, 1),
    )?;
    tried::said(writer, ", + 2^56: ", vector::with_byte(v, at + 24, 1))?;
    writeln!(writer)
}

// The bytes before the entries.
fn room(kind: LoggedKind) -> usize
    ensures { result ≤ 29 }
{
    match kind {
        LoggedKind::NewState => 23,
        LoggedKind::DoViewChange => 24,
        LoggedKind::StartView => 19,
        LoggedKind::RecoveryResponse => 29,
    }
}

pub fn last_entry<W: io::Write>(
    writer: &mut W,
    kind: LoggedKind,
    k: u32,
    v: Vector,
) -> io::Result<()> {
    match k {
        1 => rules(writer, v, room(kind)),
        2 => rules(writer, v, room(kind) + 32),
        _ => Ok(()),
    }
}

fn limit<W: io::Write>(writer: &mut W, kind: LoggedKind) -> io::Result<()> {
    let v = vector::logged(kind, 4);
    let at = room(kind);
    write!(writer, "{}", text::kind_name(kind as u8))?;
    tried::said(writer, " of L entries: ", vector::logged(kind, 3))?;
    tried::said(writer, "; of L+1 entries: ", v)?;
    tried::said_kind(writer, ", read as kind ", v)?;
    tried::said(
        writer,
        ", its last one of operation 0: ",
        vector::with_byte(v, at + 112, 0),
    )?;
    tried::said(
        writer,
        ", its first one: ",
        vector::with_byte(v, at + 16, 0),
    )?;
    writeln!(writer)
}

pub fn limits<W: io::Write>(writer: &mut W) -> io::Result<()> {
    for kind in [
        LoggedKind::NewState,
        LoggedKind::DoViewChange,
        LoggedKind::StartView,
        LoggedKind::RecoveryResponse,
    ] {
        limit(writer, kind)?;
    }
    Ok(())
}

fn requests<W: io::Write>(writer: &mut W, name: &str, v: Vector, at: usize) -> io::Result<()> {
    tried::each(writer, name, v, at, &[4u8, 5, 6, 255])
}

// Requests 5 and 6 of client 7, then 5 of client 9; the second one's, or the third one's, is changed.
fn rising<W: io::Write>(writer: &mut W, kind: LoggedKind) -> io::Result<()> {
    let v = vector::logged(kind, 3);
    let at = room(kind);
    let second = vector::with_byte(v, at + 39, 8);
    write!(writer, "{}", text::kind_name(kind as u8))?;
    requests(writer, " of 7/5 7/6 9/5: second request", v, at + 47)?;
    requests(writer, "; of client 8", second, at + 47)?;
    requests(writer, "; third request", v, at + 79)?;
    requests(
        writer,
        "; of client 7",
        vector::with_byte(v, at + 71, 7),
        at + 79,
    )?;
    requests(
        writer,
        "; after client 8",
        vector::with_byte(second, at + 71, 7),
        at + 79,
    )?;
    writeln!(writer)
}

pub fn risings<W: io::Write>(writer: &mut W) -> io::Result<()> {
    writeln!(
        writer,
        "Logs of three entries, client/request; NewState's is not judged on the frame alone."
    )?;
    for kind in [
        LoggedKind::NewState,
        LoggedKind::DoViewChange,
        LoggedKind::StartView,
        LoggedKind::RecoveryResponse,
    ] {
        rising(writer, kind)?;
    }
    Ok(())
}
