// What a well-formed frame of each kind says.
ghost use Rattle.std.specs.Prelude.{◌≡◌, ◌+◌, ◌*◌, ◌≤◌, length, drop};
ghost use Rattle.numbers.specs.Numbers.{num, view_at, op_at};
ghost use Rattle.entries.specs.Entries.{entry_of};
ghost use Rattle.frames.specs.Kinds.{kind_number, fields_end, room_of, count_of};
ghost use Rattle.frames.specs.Messages.{response_state, message_of};

use crate::{Kind, Message, Progress};

fn request(frame: &[u8]) -> Message
    requires { fields_end 1 + 32 ≤ length frame.now }
    ensures { result ≡ Message.Request (entry_of (drop (fields_end 1) frame.now)) }
{
    Message::Request {
        entry: entries::entry_at(frame, 7),
    }
}

fn prepare(frame: &[u8]) -> Message
    requires { fields_end 2 + 32 ≤ length frame.now }
    ensures { result ≡ Message.Prepare (view_at 7 frame.now) (op_at 11 frame.now) (op_at 15 frame.now) (entry_of (drop (fields_end 2) frame.now)) }
{
    Message::Prepare {
        view: numbers::read_view(frame, 7),
        op: numbers::read_op(frame, 11),
        commit: numbers::read_op(frame, 15),
        entry: entries::entry_at(frame, 19),
    }
}

fn prepare_ok(frame: &[u8]) -> Message
    requires { fields_end 3 ≤ length frame.now }
    ensures { result ≡ Message.PrepareOk (view_at 7 frame.now) (op_at 11 frame.now) (num 1 15 frame.now) }
{
    Message::PrepareOk {
        view: numbers::read_view(frame, 7),
        op: numbers::read_op(frame, 11),
        from: numbers::read_u8(frame, 15),
    }
}

fn commit(frame: &[u8]) -> Message
    requires { fields_end 4 ≤ length frame.now }
    ensures { result ≡ Message.Commit (view_at 7 frame.now) (op_at 11 frame.now) }
{
    Message::Commit {
        view: numbers::read_view(frame, 7),
        commit: numbers::read_op(frame, 11),
    }
}

fn get_state(frame: &[u8]) -> Message
    requires { fields_end 5 ≤ length frame.now }
    ensures { result ≡ Message.GetState (num 1 7 frame.now) (view_at 8 frame.now) (op_at 12 frame.now) }
{
    Message::GetState {
        from: numbers::read_u8(frame, 7),
        view: numbers::read_view(frame, 8),
        op: numbers::read_op(frame, 12),
    }
}

fn new_state(frame: &[u8]) -> Message
    requires { fields_end 6 ≤ length frame.now }
    ensures { result ≡ Message.NewState (view_at 7 frame.now) (op_at 11 frame.now) (op_at 15 frame.now) (op_at 19 frame.now) }
{
    Message::NewState {
        view: numbers::read_view(frame, 7),
        start: numbers::read_op(frame, 11),
        end: numbers::read_op(frame, 15),
        commit: numbers::read_op(frame, 19),
    }
}

fn start_view_change(frame: &[u8]) -> Message
    requires { fields_end 7 ≤ length frame.now }
    ensures { result ≡ Message.StartViewChange (view_at 7 frame.now) (num 1 11 frame.now) }
{
    Message::StartViewChange {
        view: numbers::read_view(frame, 7),
        from: numbers::read_u8(frame, 11),
    }
}

fn do_view_change(frame: &[u8]) -> Message
    requires { fields_end 8 ≤ length frame.now }
    ensures { result ≡ Message.DoViewChange (view_at 7 frame.now) (num 1 11 frame.now) (view_at 12 frame.now) (op_at 16 frame.now) (op_at 20 frame.now) }
{
    Message::DoViewChange {
        view: numbers::read_view(frame, 7),
        from: numbers::read_u8(frame, 11),
        last_normal: numbers::read_view(frame, 12),
        op: numbers::read_op(frame, 16),
        commit: numbers::read_op(frame, 20),
    }
}

fn start_view(frame: &[u8]) -> Message
    requires { fields_end 9 ≤ length frame.now }
    ensures { result ≡ Message.StartView (view_at 7 frame.now) (op_at 11 frame.now) (op_at 15 frame.now) }
{
    Message::StartView {
        view: numbers::read_view(frame, 7),
        op: numbers::read_op(frame, 11),
        commit: numbers::read_op(frame, 15),
    }
}

fn recovery(frame: &[u8]) -> Message
    requires { fields_end 10 ≤ length frame.now }
    ensures { result ≡ Message.Recovery (num 1 7 frame.now) (num 8 8 frame.now) (view_at 16 frame.now) }
{
    Message::Recovery {
        from: numbers::read_u8(frame, 7),
        nonce: numbers::read_u64(frame, 8),
        view: numbers::read_view(frame, 16),
    }
}

fn state(frame: &[u8]) -> Option<Progress>
    requires { room_of 11 frame.now ≤ length frame.now }
    ensures { result ≡ response_state frame.now }
{
    if numbers::read_u8(frame, 20) == 1 {
        return Some(Progress {
            op: numbers::read_op(frame, 21),
            commit: numbers::read_op(frame, 25),
        });
    }
    None
}

fn recovery_response(frame: &[u8]) -> Message
    requires { room_of 11 frame.now ≤ length frame.now }
    ensures { result ≡ Message.RecoveryResponse (view_at 7 frame.now) (num 8 11 frame.now) (num 1 19 frame.now) (response_state frame.now) }
{
    Message::RecoveryResponse {
        view: numbers::read_view(frame, 7),
        nonce: numbers::read_u64(frame, 11),
        from: numbers::read_u8(frame, 19),
        state: state(frame),
    }
}

// The message of a well-formed frame of this kind.
pub fn said(frame: &[u8], kind: Kind) -> Message
    requires { room_of (kind_number kind) frame.now + 32 * count_of (kind_number kind) frame.now ≤ length frame.now }
    ensures { result ≡ message_of (kind_number kind) frame.now }
{
    match kind {
        Kind::Request => request(frame),
        Kind::Prepare => prepare(frame),
        Kind::PrepareOk => prepare_ok(frame),
        Kind::Commit => commit(frame),
        Kind::GetState => get_state(frame),
        Kind::NewState => new_state(frame),
        Kind::StartViewChange => start_view_change(frame),
        Kind::DoViewChange => do_view_change(frame),
        Kind::StartView => start_view(frame),
        Kind::Recovery => recovery(frame),
        Kind::RecoveryResponse => recovery_response(frame),
    }
}
