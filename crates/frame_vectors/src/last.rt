// NewState's start and end together, the order of the refusals, and what is no frame of a kind.
use crate::vector::{LoggedKind, ShortKind, Vector};
use crate::{tried, vector};
use std::io;

fn span<W: io::Write>(
    writer: &mut W,
    name: &str,
    k: u32,
    start: u32,
    values: &[u32],
) -> io::Result<()> {
    tried::each(
        writer,
        name,
        vector::with_long(vector::logged(LoggedKind::NewState, k), 11, start),
        15,
        values,
    )
}

fn reach<W: io::Write>(writer: &mut W, name: &str, start: u32, end: u32) -> io::Result<()> {
    let v = vector::with_long(vector::logged(LoggedKind::NewState, 2), 11, start);
    tried::each(
        writer,
        name,
        vector::with_long(v, 15, end),
        19,
        &[0u32, 3, 4, 5, 4294967295],
    )
}

pub fn spans<W: io::Write>(writer: &mut W) -> io::Result<()> {
    span(
        writer,
        "NewState without entries, start 2: end",
        0,
        2,
        &[0, 1, 2, 3],
    )?;
    span(writer, "; start 3: end", 0, 3, &[2, 3, 4])?;
    span(writer, "; start 4: end", 0, 4, &[3, 4, 5])?;
    span(
        writer,
        "; start 4294967295: end",
        0,
        4294967295,
        &[0, 4294967294, 4294967295],
    )?;
    span(
        writer,
        "\nNewState of 2 entries, start 1: end",
        2,
        1,
        &[0, 1, 2, 3, 4],
    )?;
    span(writer, "; start 2: end", 2, 2, &[3, 4, 5])?;
    span(
        writer,
        "; start 4294967295: end",
        2,
        4294967295,
        &[1, 4294967295],
    )?;
    reach(writer, "\nNewState of 2 entries, 1 to 3: c", 1, 3)?;
    reach(writer, "; 2 to 4: c", 2, 4)?;
    writeln!(writer)
}

// A StartView whose second entry does not rise, with c past o.
fn faulty(k: u32) -> Vector {
    let v = vector::with_byte(vector::logged(LoggedKind::StartView, k), 66, 5);
    vector::with_long(v, 15, 9)
}

pub fn order<W: io::Write>(writer: &mut W) -> io::Result<()> {
    let past = faulty(4);
    let full = faulty(3);
    let away = vector::with_byte(past, 6, 0);
    tried::said(
        writer,
        "StartView with every fault: ",
        vector::with_byte(away, 35, 0),
    )?;
    tried::said(writer, "; without 2's: ", away)?;
    tried::said(writer, "; without 3's: ", past)?;
    tried::said(writer, "; without 4's: ", full)?;
    tried::said(writer, "; without 5's: ", vector::with_long(full, 15, 3))?;
    tried::said(
        writer,
        "; without 6's: ",
        vector::with_long(vector::logged(LoggedKind::StartView, 3), 15, 3),
    )?;
    writeln!(writer)
}

pub fn strays<W: io::Write>(writer: &mut W) -> io::Result<()> {
    tried::said(
        writer,
        "The empty frame: ",
        vector::cut(vector::short(ShortKind::Request), 0),
    )?;
    tried::said(writer, "; a Reply, kind 12: ", vector::reply())?;
    tried::said(
        writer,
        "; a Reply to addressee 1: ",
        vector::with_byte(vector::reply(), 6, 1),
    )?;
    tried::said(
        writer,
        "; length 0, and no more: ",
        vector::fitted(vector::short(ShortKind::Request), 4),
    )?;
    tried::said(
        writer,
        "; a Commit and 15 bytes behind it: ",
        vector::cut(vector::short(ShortKind::Commit), 30),
    )?;
    writeln!(writer)
}
