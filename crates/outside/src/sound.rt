// Refusal 1: numbers of the state and lengths only, in constant time.
ghost use Rattle.std.specs.Prelude.{◌≡◌, true};
ghost use Rattle.config.specs.Setup.{setup_ok};
ghost use Rattle.outside.specs.Sound.{lengths_ok, creatable, numbers_sound, sound, state_sound};

use crate::Lengths;
use config::Setup;
use state::Replica;

// Each run has the length that follows from n, L and M.
fn lengths_ok(u: Setup, l: Lengths) -> bool
    requires { setup_ok u ≡ true }
    ensures { result ≡ lengths_ok u l }
{
    let room = u.room as usize;
    if l.log != 32 * room {
        return false;
    }
    if l.results != 9 * room {
        return false;
    }
    if l.totals != 8 * (u.members as usize) {
        return false;
    }
    if l.acks != room {
        return false;
    }
    if l.stored != reports::judge::place(u.room, u.n) {
        return false;
    }
    l.table == 25 * room
}

// Setup and lengths.
pub fn is_creatable(u: Setup, l: Lengths) -> bool
    ensures { result ≡ creatable u l }
{
    if !config::setup_ok(u) {
        return false;
    }
    lengths_ok(u, l)
}

// The numbers of the state.
fn numbers_sound(s: Replica) -> bool
    requires { setup_ok s.setup ≡ true }
    ensures { result ≡ numbers_sound s }
{
    if s.op.0 < s.commit.0 {
        return false;
    }
    if s.setup.room < s.op.0 {
        return false;
    }
    if fees::MOST < s.takings {
        return false;
    }
    let setup = s.setup;
    let rows = s.reports;
    reports::rows::gathered_ok(s.starts, rows, setup)
}

// Given exactly where this is false.
pub fn is_sound(s: Replica, l: Lengths) -> bool
    ensures { result ≡ sound s l }
{
    let setup = s.setup;
    if !is_creatable(setup, l) {
        return false;
    }
    numbers_sound(s)
}

// The same where nothing but the state is handed over.
pub fn is_state_sound(s: Replica) -> bool
    ensures { result ≡ state_sound s }
{
    let setup = s.setup;
    if !config::setup_ok(setup) {
        return false;
    }
    numbers_sound(s)
}
