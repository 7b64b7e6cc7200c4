// Document 01's frame table, its refusals 2 to 6 on the frame alone and its entry rules, run on vectors.
#![tactic(auto)]

mod vector; // frames of every kind, and frames with a part changed
mod tried; // changed frames handed in, and their numbers printed
mod every; // what holds of a frame of every kind
mod field; // the fields of each kind at and past their limits
mod log; // carried entries
mod last; // what no single frame shows

use std::io;
use std::io::Write;
use vector::{LoggedKind, ShortKind};

fn main(rt: HostRuntime) -> io::Result<()> {
    let mut writer = io::writer(&rt);
    writeln!(
        writer,
        "Replica 1 of 3, L = 3. value:number stands for a frame with that value in the named place, and for its refusal number; 0: none."
    )?;
    for kind in [
        ShortKind::Request,
        ShortKind::Prepare,
        ShortKind::PrepareOk,
        ShortKind::Commit,
        ShortKind::GetState,
        ShortKind::StartViewChange,
        ShortKind::Recovery,
        ShortKind::RecoveryResponse,
    ] {
        every::short(&mut writer, kind)?;
    }
    for kind in [
        LoggedKind::NewState,
        LoggedKind::DoViewChange,
        LoggedKind::StartView,
        LoggedKind::RecoveryResponse,
    ] {
        every::logged(&mut writer, kind)?;
    }
    log::limits(&mut writer)?;
    log::risings(&mut writer)?;
    last::spans(&mut writer)?;
    last::order(&mut writer)?;
    last::strays(&mut writer)
}
