// An entry, and a message, in words.
ghost use Rattle.std.specs.Prelude.{◌≡◌, Some};
ghost use Rattle.entries.specs.Entries.{operation_of};
ghost use Rattle.show_frames.specs.Words.{operation_name, entry_words, state_words, message_words};

use entries::{Entry, Operation};
use frames::{Message, Progress};
use std::fmt;

fn operation_name(operation: Operation) -> &'static str
    ensures { result.now ≡ operation_name operation }
{
    match operation {
        Operation::Fee => "Fee",
        Operation::Refund => "Refund",
        Operation::Ask => "Ask",
    }
}

#[derive(Clone, Copy)]
pub struct EntryWords(pub Entry);

impl fmt::Display for EntryWords {
    ghost output = { λ e. Some (entry_words e.0) };

    fn fmt<W: fmt::Write>(&self, f: &mut fmt::Formatter<W>) -> fmt::Result {
        let e = self.0;
        let operation = operation_name(entries::operation_of(e.operation));
        write!(
            f,
            "client {}, request {}, {operation}, member {}, cents {}",
            e.client, e.request, e.member, e.cents
        )
    }
}

#[derive(Clone, Copy)]
struct StateWords(Option<Progress>);

impl fmt::Display for StateWords {
    ghost output = { λ s. Some (state_words s.0) };

    fn fmt<W: fmt::Write>(&self, f: &mut fmt::Formatter<W>) -> fmt::Result {
        match self.0 {
            None => write!(f, "no log"),
            Some(Progress { op, commit }) => write!(f, "op {}, commit {}", op.0, commit.0),
        }
    }
}

#[derive(Clone, Copy)]
pub struct MessageWords(pub Message);

impl fmt::Display for MessageWords {
    ghost output = { λ m. Some (message_words m.0) };

    fn fmt<W: fmt::Write>(&self, f: &mut fmt::Formatter<W>) -> fmt::Result {
        match self.0 {
            Message::Request { entry } => write!(f, "{}", EntryWords(entry)),
            Message::Prepare {
                view,
                op,
                commit,
                entry,
            } => write!(
                f,
                "view {}, op {}, commit {}, {}",
                view.0,
                op.0,
                commit.0,
                EntryWords(entry)
            ),
            Message::PrepareOk { view, op, from } => write!(
                f,
                "view {}, op {}, from {from}",
                view.0, op.0
            ),
            Message::Commit { view, commit } => write!(f, "view {}, commit {}", view.0, commit.0),
            Message::GetState { from, view, op } => write!(
                f,
                "view {}, op {}, from {from}",
                view.0, op.0
            ),
            Message::NewState {
                view,
                start,
                end,
                commit,
            } => write!(
                f,
                "view {}, start {}, end {}, commit {}",
                view.0, start.0, end.0, commit.0
            ),
            Message::StartViewChange { view, from } => write!(f, "view {}, from {from}", view.0),
            Message::DoViewChange {
                view,
                from,
                last_normal,
                op,
                commit,
            } => write!(
                f,
                "view {}, from {from}, last normal view {}, op {}, commit {}",
                view.0, last_normal.0, op.0, commit.0
            ),
            Message::StartView { view, op, commit } => write!(
                f,
                "view {}, op {}, commit {}",
                view.0, op.0, commit.0
            ),
            Message::Recovery { from, nonce, view } => write!(
                f,
                "view {}, from {from}, nonce {nonce}",
                view.0
            ),
            Message::RecoveryResponse {
                view,
                nonce,
                from,
                state,
            } => write!(
                f,
                "view {}, from {from}, nonce {nonce}, {}",
                view.0,
                StateWords(state)
            ),
        }
    }
}
