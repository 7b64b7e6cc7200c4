// The programs but for their replica: the input's trace replayed, and what is said of it.
ghost use Rattle.std.specs.Prelude.{◌≡◌, length};

use crate::trace;
use crate::trace::Engine;
use std::io;

// Room for the whole input.
fn room() -> [u8; 1048576]
    ensures { 1048576 ≡ length result }
{
    [0; 1048576]
}

// What is beyond the room isn't played.
fn say_rest<R: io::Read, W: io::Write>(reader: &mut R, writer: &mut W) -> io::Result<()> {
    let mut rest = [0; 1];
    if text::read_full(reader, &mut rest)? == 0 {
        return Ok(());
    }
    writeln!(
        writer,
        "the input is longer than 1048576 bytes, and the rest of it is passed over"
    )
}

pub fn run<E: Engine, R: io::Read, W: io::Write>(reader: &mut R, writer: &mut W) -> io::Result<()> {
    let mut input = room();
    let n = text::read_full(reader, &mut input)?;
    writeln!(
        writer,
        "Recorded calls of replicas with L and M of 8 at most; areas for messages are cut to 8192 bytes, for replies to 512."
    )?;
    trace::replay::<E, W>(writer, &input[..n])?;
    say_rest(reader, writer)
}
