// A flag, one byte, and the status of a number.
ghost use Rattle.std.specs.Prelude.{◌≡◌, ◌+◌, ◌≤◌, length};
ghost use Rattle.numbers.specs.Numbers.{over, big, num};
ghost use Rattle.state_bytes.specs.Layout.{flag_ok, flag_of, flag_number, status_of};

use frames::Status;

// 0 is no, 1 yes; any other number is a byte without meaning.
pub fn flag_ok(run: &[u8], at: usize) -> bool
    requires { at + 1 ≤ length run.now }
    ensures { result ≡ flag_ok (num 1 at run.now) }
{
    numbers::read_u8(run, at) <= 1
}

pub fn flag_at(run: &[u8], at: usize) -> bool
    requires { at + 1 ≤ length run.now }
    ensures { result ≡ flag_of (num 1 at run.now) }
{
    numbers::read_u8(run, at) != 0
}

pub fn write_flag(area: &mut [u8], b: bool)
    requires { 1 ≤ length area.old }
    ensures { area.new ≡ over (big 1 (flag_number b)) area.old }
{
    numbers::write_u8(area, b as u8);
}

// Any number but 0 to 2 is read as Recovering; only 3 passes.
// Kept: no TryFrom, since a byte that stands for no status is read too, as the rules of the run have it.
pub fn status_of(k: u8) -> Status
    ensures { result ≡ status_of k }
{
    match k {
        0 => Status::Normal,
        1 => Status::StateTransfer,
        2 => Status::ViewChange,
        _ => Status::Recovering,
    }
}
