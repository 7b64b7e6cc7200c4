// A frame with a fault, handed in to replica 1 of 3.
// Kept: numbers of refusals, since they are what is printed.
ghost use Rattle.std.specs.Prelude.{◌≡◌};
ghost use Rattle.frames.specs.Refusals.{check_frame};
ghost use Rattle.show_frames.specs.Shown.{setup_shown, number_shown};

use config::Setup;
use std::io;

fn setup() -> Setup
    ensures { result ≡ setup_shown }
{
    Setup {
        n: 3,
        id: 1,
        timeout: 3,
        room: 8,
        members: 8,
    }
}

// The refusal number, 0: none.
pub fn number(frame: &[u8]) -> u8
    ensures { result ≡ number_shown (check_frame setup_shown frame.now) }
{
    match frames::check(setup(), frame) {
        Ok(_) => 0,
        Err(refusal) => u8::from(refusal),
    }
}

// The number of a copy with one byte changed, where there is room for the copy.
fn changed(s: &[u8], at: usize, b: u8) -> Option<u8> {
    let mut room = [0; 96];
    let copy = room.get_mut(..s.len())?;
    copy.copy_from_slice(s);
    *copy.get_mut(at)? = b;
    Some(number(copy))
}

// The number of the frame without its last byte.
fn short(s: &[u8]) -> Option<u8> {
    let (_, front) = s.split_last()?;
    Some(number(front))
}

// A number, 99: there is no such frame.
fn shown(number: Option<u8>) -> u8 {
    number.unwrap_or(99)
}

pub fn copies<W: io::Write>(writer: &mut W, s: &[u8]) -> io::Result<()> {
    writeln!(
        writer,
        "; without its last byte: refusal {}; of version 2: {}; of kind 12: {}; to replica 2: {}",
        shown(short(s)),
        shown(changed(s, 4, 2)),
        shown(changed(s, 5, 12)),
        shown(changed(s, 6, 2))
    )
}
