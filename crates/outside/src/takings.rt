// The takings, answered from the sum that is kept in the state.
ghost use Rattle.std.specs.Prelude.{◌≡◌};
ghost use Rattle.outside.specs.Takings.{takings_call};

use crate::sound;
use frames::Refusal;
use state::Replica;

// takings: the sum in cents. The state alone is asked, in any status, and nothing changes. Refusal 1.
pub fn takings(s: Replica) -> Result<u64, Refusal>
    ensures { result ≡ takings_call s }
{
    if !sound::is_state_sound(s) {
        return Err(Refusal::OutOfRange);
    }
    Ok(s.takings)
}
