// The numbers of a message that are judged on the frame alone.
ghost use Rattle.std.specs.Prelude.{◌≡◌};
ghost use Rattle.frames.specs.Messages.{kind_row, state_row, carried_of};

use crate::{Carried, Kind, Message, Progress, shape};
use numbers::Op;

fn row(kind: Kind, sender: u8, op: Op, commit: Op, whole: u32) -> Carried
    ensures { result ≡ kind_row kind sender op commit whole }
{
    Carried {
        kind,
        sender,
        op,
        commit,
        start: shape::fields_end(kind),
        whole,
    }
}

fn response(sender: u8, state: Option<Progress>) -> Carried
    ensures { result ≡ state_row sender state }
{
    match state {
        None => row(Kind::RecoveryResponse, sender, Op(0), Op(0), 0),
        Some(Progress { op, commit }) => Carried {
            kind: Kind::RecoveryResponse,
            sender,
            op,
            commit,
            start: shape::STATE_END,
            whole: op.0,
        },
    }
}

pub fn carried(m: Message) -> Carried
    ensures { result ≡ carried_of m }
{
    match m {
        Message::Request { .. } => row(Kind::Request, 0, Op(0), Op(0), 0),
        Message::Prepare { op, .. } => row(Kind::Prepare, 0, op, Op(0), 0),
        Message::PrepareOk { op, from, .. } => row(Kind::PrepareOk, from, op, Op(0), 0),
        Message::Commit { .. } => row(Kind::Commit, 0, Op(0), Op(0), 0),
        Message::GetState { from, op, .. } => row(Kind::GetState, from, op, Op(0), 0),
        Message::NewState { end, commit, .. } => row(Kind::NewState, 0, end, commit, 0),
        Message::StartViewChange { from, .. } => row(Kind::StartViewChange, from, Op(0), Op(0), 0),
        Message::DoViewChange {
            from,
            op,
            commit,
            ..
        } => row(Kind::DoViewChange, from, op, commit, op.0),
        Message::StartView { op, commit, .. } => row(Kind::StartView, 0, op, commit, op.0),
        Message::Recovery { from, .. } => row(Kind::Recovery, from, Op(0), Op(0), 0),
        Message::RecoveryResponse { from, state, .. } => response(from, state),
    }
}
