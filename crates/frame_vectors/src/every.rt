// What holds of a frame of every kind: its length, version, kind and addressee.
use crate::vector::{LoggedKind, ShortKind, Vector};
use crate::{field, log, tried, vector};
use std::io;

fn itself<W: io::Write>(writer: &mut W, v: Vector) -> io::Result<()> {
    write!(writer, ": {} bytes", v.len)?;
    tried::said(writer, ", number ", v)?;
    tried::said_kind(writer, ", message of kind ", v)
}

fn cuts<W: io::Write>(writer: &mut W, v: Vector) -> io::Result<()> {
    write!(
        writer,
        "; cut at 0 to {}: {} of {} refused by 2, length field put right: {}",
        v.len.saturating_sub(1),
        tried::cuts(v, vector::cut),
        v.len,
        tried::cuts(v, vector::fitted)
    )?;
    let more = v.len.saturating_add(1).min(192);
    tried::said(writer, "; a byte more: ", vector::cut(v, more))?;
    tried::said(
        writer,
        ", length field put right: ",
        vector::fitted(v, more),
    )
}

fn lengths<W: io::Write>(writer: &mut W, v: Vector) -> io::Result<()> {
    let low = v.bytes[3];
    tried::said(
        writer,
        "; length field one less ",
        vector::with_byte(v, 3, low.wrapping_sub(1)),
    )?;
    tried::said(
        writer,
        ", one more ",
        vector::with_byte(v, 3, low.wrapping_add(1)),
    )?;
    tried::said(writer, ", 16777216 more ", vector::with_byte(v, 0, 1))
}

fn head<W: io::Write>(writer: &mut W, v: Vector) -> io::Result<()> {
    itself(writer, v)?;
    cuts(writer, v)?;
    write!(writer, "\n  kind bytes not refused by 2:")?;
    tried::kind_bytes(writer, v)?;
    tried::each(writer, "\n  version", v, 4, &[0u8, 1, 2, 255])?;
    lengths(writer, v)?;
    tried::each(writer, "; addressee", v, 6, &[0u8, 1, 2, 3, 255])?;
    writeln!(writer)
}

pub fn short<W: io::Write>(writer: &mut W, kind: ShortKind) -> io::Result<()> {
    let v = vector::short(kind);
    write!(writer, "{}", text::KindByte(kind as u8))?;
    head(writer, v)?;
    field::short(writer, kind, v)
}

pub fn logged<W: io::Write>(writer: &mut W, kind: LoggedKind) -> io::Result<()> {
    for k in 0..3 {
        let v = vector::logged(kind, k);
        write!(writer, "{}, log of {k}", text::KindByte(kind as u8))?;
        head(writer, v)?;
        field::logged(writer, kind, v)?;
        log::last_entry(writer, kind, k, v)?;
    }
    Ok(())
}
