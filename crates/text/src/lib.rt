// Text to a writer: bytes as they are, numbers in decimal, bytes in hexadecimal, names of kinds. And input, a block at a time.
#![tactic(auto)]

ghost use Rattle.std.specs.Prelude.{◌≡◌, ◌<◌, ◌≤◌, ◌++◌, length, OnOk, IfOk, Some, take};
ghost use Rattle.std.specs.Fmt.{decimal};
ghost use Rattle.std.specs.Io.KnownBytes.{Appends, Consumes, IsAtEnd};
ghost use Rattle.text.specs.Text.{hex_pair, spaced_pairs, name_of_kind, kind_text};

use std::{fmt, io};

pub fn say<W: io::Write>(writer: &mut W, s: &[u8]) -> io::Result<()>
    ensures { OnOk result (Appends (W.contents writer.old) (W.contents writer.new) s.now) }
{
    writer.write_all(s)
}

pub fn decimal<W: io::Write>(writer: &mut W, x: u64) -> io::Result<()>
    ensures { OnOk result (Appends (W.contents writer.old) (W.contents writer.new) (decimal x)) }
{
    write!(writer, "{x}")
}

// Text, then a number.
pub fn labelled<W: io::Write>(writer: &mut W, s: &[u8], x: u64) -> io::Result<()>
    ensures { OnOk result (Appends (W.contents writer.old) (W.contents writer.new) (s.now ++ decimal x)) }
{
    say(writer, s)?;
    decimal(writer, x)
}

// Two digits, the letters large, as document 01 writes bytes.
#[derive(Clone, Copy)]
struct Pair(u8);

impl fmt::Display for Pair {
    ghost output = { λ p. Some (hex_pair p.0) };

    fn fmt<W: fmt::Write>(&self, f: &mut fmt::Formatter<W>) -> fmt::Result {
        let Pair(b) = *self;
        write!(f, "{b:02X}")
    }
}

pub fn hex_byte<W: io::Write>(writer: &mut W, b: u8) -> io::Result<()>
    ensures { OnOk result (Appends (W.contents writer.old) (W.contents writer.new) (hex_pair b)) }
{
    write!(writer, "{}", Pair(b))
}

// Bytes, shown in hexadecimal, each after a space.
#[derive(Clone, Copy)]
pub struct HexBytes<'a>(pub &'a [u8]);

impl fmt::Display for HexBytes<'_> {
    ghost output = { λ s. Some (spaced_pairs s.0.now) };

    fn fmt<W: fmt::Write>(&self, f: &mut fmt::Formatter<W>) -> fmt::Result {
        for b in self.0 {
            write!(f, " {}", Pair(*b))?;
        }
        Ok(())
    }
}

pub fn hex<W: io::Write>(writer: &mut W, s: &[u8]) -> io::Result<()>
    ensures { OnOk result (Appends (W.contents writer.old) (W.contents writer.new) (spaced_pairs s.now)) }
{
    write!(writer, "{}", HexBytes(s))
}

// Document 01's name of a kind.
// Kept: a byte and not a `frames::Kind`, since `kind_name` has a name for every byte: 12 is a Reply, which is none of the eleven, and the others are no kind.
pub fn kind_name(kind: u8) -> &'static str
    ensures { result.now ≡ name_of_kind kind }
{
    match kind {
        1 => "Request",
        2 => "Prepare",
        3 => "PrepareOk",
        4 => "Commit",
        5 => "GetState",
        6 => "NewState",
        7 => "StartViewChange",
        8 => "DoViewChange",
        9 => "StartView",
        10 => "Recovery",
        11 => "RecoveryResponse",
        12 => "Reply",
        _ => "no kind",
    }
}

// A frame's byte that says its kind, shown by the number and the name.
#[derive(Clone, Copy)]
pub struct KindByte(pub u8);

impl fmt::Display for KindByte {
    ghost output = { λ k. Some (kind_text k.0) };

    fn fmt<W: fmt::Write>(&self, f: &mut fmt::Formatter<W>) -> fmt::Result {
        write!(f, "kind {} {}", self.0, kind_name(self.0))
    }
}

// Reads until the area is full or the input ends, and says how many bytes came.
pub fn read_full<R: io::Read>(reader: &mut R, area: &mut [u8]) -> io::Result<usize>
    ensures within { IfOk result (λ n. n ≤ length area.new) }
    ensures bytes { IfOk result (λ n. Consumes (R.remaining reader.old) (R.remaining reader.new) (take n area.new)) }
    ensures whole { IfOk result (λ n. n < length area.new → IsAtEnd (R.remaining reader.new)) }
{
    let mut n = 0;
    // Kept: how many bytes come a turn is the reader's to say.
    while n < area.len() {
        let more = reader.read(&mut area[n..])?;
        if more == 0 {
            break;
        }
        n += more;
    }
    Ok(n)
}
