// A frame's refusals, whose entry its message carries, and what the client table has to follow.
ghost use Rattle.std.specs.Prelude.{◌≡◌};
ghost use Rattle.outside.specs.Calls.{carried_by, told_of, change_by};
ghost use Rattle.outside.specs.CheckedNumbers.{ChecksCall};

use crate::{Lengths, sound};
use client_table::{Change, Latest};
use frames::{Message, Refusal};
use state::{Replica, Returned};

// Refusal 1, then 2 to 6 on the frame alone.
pub fn checked(s: Replica, l: Lengths, frame: &[u8]) -> Result<Message, Refusal>
    ensures { ChecksCall s l frame.now result }
{
    if !sound::is_sound(s, l) {
        return Err(Refusal::OutOfRange);
    }
    let u = s.setup;
    frames::check(u, frame)
}

// The client whose entry a message carries.
pub fn carried_by(m: Message) -> Option<u64>
    ensures { result ≡ carried_by m }
{
    match m {
        Message::Request { entry } | Message::Prepare { entry, .. } => Some(entry.client),
        _ => None,
    }
}

// What the handler is told of a client's latest request: only of him whose entry the message carries.
pub fn told(m: Message, l: Latest) -> Latest
    ensures { result ≡ told_of m l }
{
    match carried_by(m) {
        Some(_) => l,
        None => Latest::Nothing,
    }
}

// What a call that wasn't refused did to the log, s being the state before it.
pub fn change_by(s: Replica, a: Returned) -> Change
    ensures { result ≡ change_by s a }
{
    let op = s.op;
    let commit = s.commit;
    let to = a.state.op;
    let done = a.state.commit;
    Change {
        installed: a.installed(),
        op,
        commit,
        to,
        done,
    }
}
