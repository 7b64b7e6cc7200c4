// The usual calls: a Request, a PrepareOk, a Prepare or Commit of its view, or a Recovery of no later view, given to a Normal replica; and the tick of a Normal primary.
// They leave all of the state but status, op and commit number, takings and the clock, so that who keeps it in bytes needs to write no more.
#![tactic(auto)]

ghost use Rattle.std.specs.Prelude.{◌≡◌};
ghost use Rattle.usual.specs.Usual.{is_answered, is_usual, is_leading};

use state::Replica;

// Whether a Recovery is of no later view than the state's: it is answered, and the state stays.
fn is_answered(s: Replica, frame: &[u8]) -> bool
    ensures { result ≡ is_answered s.view.0 frame.now }
{
    if frame.len() < 20 {
        return false;
    }
    numbers::read_u32(frame, 16) <= s.view.0
}

// Whether a frame is a usual one for this state, by its kind and view alone: it may still be refused.
pub fn is_usual(s: Replica, frame: &[u8]) -> bool
    ensures { result ≡ is_usual s frame.now }
{
    let status = s.status;
    if !state::is_normal(status) {
        return false;
    }
    if frame.len() < 11 {
        return false;
    }
    match frames::kind_of(frame) {
        1 => true,
        2 => numbers::read_u32(frame, 7) == s.view.0,
        3 => true,
        4 => numbers::read_u32(frame, 7) == s.view.0,
        10 => is_answered(s, frame),
        _ => false,
    }
}

// Whether a tick is that of a Normal primary.
pub fn is_leading(s: Replica) -> bool
    ensures { result ≡ is_leading s }
{
    if s.setup.n == 0 {
        return false;
    }
    let status = s.status;
    if !state::is_normal(status) {
        return false;
    }
    state::is_primary(s)
}
