// The fields of each kind at and past their limits.
use crate::vector::{LoggedKind, ShortKind, Vector};
use crate::{log, tried};
use std::io;

fn view<W: io::Write>(writer: &mut W, name: &str, v: Vector, at: usize) -> io::Result<()> {
    tried::each(writer, name, v, at, &[0u32, 4294967295])
}

fn sender<W: io::Write>(writer: &mut W, v: Vector, at: usize) -> io::Result<()> {
    tried::each(writer, "; sender", v, at, &[0u8, 1, 2, 3, 255])
}

fn op<W: io::Write>(writer: &mut W, v: Vector, at: usize) -> io::Result<()> {
    tried::each(writer, "; o", v, at, &[0u32, 1, 3, 4, 4294967295])
}

// 134217728 entries of 32 bytes are 2^32 bytes.
fn count<W: io::Write>(writer: &mut W, name: &str, v: Vector, at: usize) -> io::Result<()> {
    tried::each(
        writer,
        name,
        v,
        at,
        &[0u32, 1, 2, 3, 134217728, 134217729, 134217730, 4294967295],
    )
}

fn commit<W: io::Write>(writer: &mut W, v: Vector, at: usize) -> io::Result<()> {
    tried::each(writer, "; c", v, at, &[0u32, 1, 2, 3, 4, 4294967295])
}

fn prepare<W: io::Write>(writer: &mut W, v: Vector) -> io::Result<()> {
    view(writer, "  view", v, 7)?;
    op(writer, v, 11)?;
    commit(writer, v, 15)?;
    writeln!(writer)?;
    log::rules(writer, v, 19)
}

fn prepare_ok<W: io::Write>(writer: &mut W, v: Vector) -> io::Result<()> {
    view(writer, "  view", v, 7)?;
    op(writer, v, 11)?;
    sender(writer, v, 15)?;
    writeln!(writer)
}

fn commit_frame<W: io::Write>(writer: &mut W, v: Vector) -> io::Result<()> {
    view(writer, "  view", v, 7)?;
    commit(writer, v, 11)?;
    writeln!(writer)
}

fn get_state<W: io::Write>(writer: &mut W, v: Vector) -> io::Result<()> {
    view(writer, "  view", v, 8)?;
    op(writer, v, 12)?;
    sender(writer, v, 7)?;
    writeln!(writer)
}

fn start_view_change<W: io::Write>(writer: &mut W, v: Vector) -> io::Result<()> {
    view(writer, "  view", v, 7)?;
    sender(writer, v, 11)?;
    writeln!(writer)
}

fn recovery<W: io::Write>(writer: &mut W, v: Vector) -> io::Result<()> {
    view(writer, "  view", v, 16)?;
    sender(writer, v, 7)?;
    writeln!(writer)
}

fn response<W: io::Write>(writer: &mut W, v: Vector) -> io::Result<()> {
    view(writer, "  view", v, 7)?;
    sender(writer, v, 19)?;
    tried::each(writer, "; mark", v, 20, &[0u8, 1, 2, 255])?;
    writeln!(writer)
}

pub fn short<W: io::Write>(writer: &mut W, kind: ShortKind, v: Vector) -> io::Result<()> {
    match kind {
        ShortKind::Request => log::rules(writer, v, 7),
        ShortKind::Prepare => prepare(writer, v),
        ShortKind::PrepareOk => prepare_ok(writer, v),
        ShortKind::Commit => commit_frame(writer, v),
        ShortKind::GetState => get_state(writer, v),
        ShortKind::StartViewChange => start_view_change(writer, v),
        ShortKind::Recovery => recovery(writer, v),
        ShortKind::RecoveryResponse => response(writer, v),
    }
}

fn new_state<W: io::Write>(writer: &mut W, v: Vector) -> io::Result<()> {
    view(writer, "  view", v, 7)?;
    count(writer, "; start", v, 11)?;
    count(writer, "; end", v, 15)?;
    commit(writer, v, 19)?;
    writeln!(writer)
}

fn do_view_change<W: io::Write>(writer: &mut W, v: Vector) -> io::Result<()> {
    view(writer, "  view", v, 7)?;
    sender(writer, v, 11)?;
    view(writer, "; last normal view", v, 12)?;
    count(writer, "; o", v, 16)?;
    commit(writer, v, 20)?;
    writeln!(writer)
}

fn start_view<W: io::Write>(writer: &mut W, v: Vector) -> io::Result<()> {
    view(writer, "  view", v, 7)?;
    count(writer, "; o", v, 11)?;
    commit(writer, v, 15)?;
    writeln!(writer)
}

fn response_full<W: io::Write>(writer: &mut W, v: Vector) -> io::Result<()> {
    view(writer, "  view", v, 7)?;
    sender(writer, v, 19)?;
    tried::each(writer, "; mark", v, 20, &[0u8, 1, 2, 255])?;
    count(writer, "; o", v, 21)?;
    commit(writer, v, 25)?;
    writeln!(writer)
}

pub fn logged<W: io::Write>(writer: &mut W, kind: LoggedKind, v: Vector) -> io::Result<()> {
    match kind {
        LoggedKind::NewState => new_state(writer, v),
        LoggedKind::DoViewChange => do_view_change(writer, v),
        LoggedKind::StartView => start_view(writer, v),
        LoggedKind::RecoveryResponse => response_full(writer, v),
    }
}
