// Shows one frame of each kind and a Reply: the bytes, the fields in words, read back, and damaged copies.
#![tactic(auto)]

mod words; // a message in words
mod shown; // a frame shown
mod damage; // a frame with a fault, handed in

use frames::{Message, Progress};
use numbers::{Op, View};
use std::io;
use std::io::Write;

// Document 01's first example: what a fresh replica 0 of 3 sends on a tick.
fn ticked<W: io::Write>(writer: &mut W) -> io::Result<()> {
    let mut area = [0; 30];
    let m = Message::Commit {
        view: View(0),
        commit: Op(0),
    };
    writers::broadcast(&mut area, 3, 0, m, b"");
    writeln!(
        writer,
        "Two Commits, as a fresh replica 0 of 3 sends them on a tick:"
    )?;
    shown::pair(writer, &area)
}

fn replied<W: io::Write>(writer: &mut W) -> io::Result<()> {
    let mut area = [0; 36];
    writers::write_reply(&mut area, View(0), 7, 0, 1, 4500);
    writeln!(
        writer,
        "Reply: view 0, client 7, request 0, outcome 1, total 4500"
    )?;
    shown::reply(writer, &area)
}

fn normal<W: io::Write>(writer: &mut W) -> io::Result<()> {
    for m in [
        Message::Request {
            entry: shown::fee(),
        },
        Message::Prepare {
            view: View(3),
            op: Op(1),
            commit: Op(0),
            entry: shown::fee(),
        },
        Message::PrepareOk {
            view: View(3),
            op: Op(1),
            from: 2,
        },
        Message::Commit {
            view: View(3),
            commit: Op(1),
        },
        Message::GetState {
            from: 2,
            view: View(3),
            op: Op(1),
        },
        Message::NewState {
            view: View(3),
            start: Op(0),
            end: Op(2),
            commit: Op(1),
        },
    ] {
        shown::message(writer, m)?;
    }
    Ok(())
}

fn view_change<W: io::Write>(writer: &mut W) -> io::Result<()> {
    for m in [
        Message::StartViewChange {
            view: View(4),
            from: 2,
        },
        Message::DoViewChange {
            view: View(4),
            from: 2,
            last_normal: View(3),
            op: Op(2),
            commit: Op(1),
        },
        Message::StartView {
            view: View(4),
            op: Op(2),
            commit: Op(1),
        },
    ] {
        shown::message(writer, m)?;
    }
    Ok(())
}

fn recovering<W: io::Write>(writer: &mut W) -> io::Result<()> {
    for m in [
        Message::Recovery {
            from: 2,
            nonce: 99,
            view: View(4),
        },
        Message::RecoveryResponse {
            view: View(4),
            nonce: 99,
            from: 2,
            state: None,
        },
        Message::RecoveryResponse {
            view: View(4),
            nonce: 99,
            from: 2,
            state: Some(Progress {
                op: Op(1),
                commit: Op(1),
            }),
        },
    ] {
        shown::message(writer, m)?;
    }
    Ok(())
}

fn main(rt: HostRuntime) -> io::Result<()> {
    let mut writer = io::writer(&rt);
    ticked(&mut writer)?;
    replied(&mut writer)?;
    writeln!(writer, "To replica 1 of 3, L = 8; the log that is carried:")?;
    shown::carried(&mut writer)?;
    normal(&mut writer)?;
    view_change(&mut writer)?;
    recovering(&mut writer)
}
