// What a line asks for: a call, with what it hands over by value, or a comparison.
ghost use Rattle.std.specs.Prelude.{◌≡◌};
ghost use Rattle.playing.specs.Asking.{in_memory, setup_with, creation_in, recovery_in, going_in, within_run, first_byte_of, of_run, asked_at, asked_by};

use crate::{AreaSizes, Asked, Creation, Due, Run, RunCall, RunLine};
use comparing::words;
use config::Setup;
use numbers::View;

// An L or M, unless it is right and the memory has no room for it.
fn in_memory(x: u64) -> Option<u32>
    ensures { result ≡ in_memory x }
{
    if 8 < x && x != 4097 {
        return None;
    }
    Some(x as u32)
}

// The setup with these numbers, if the memory has room for it.
fn setup_with(n: u64, id: u64, timeout: u64, room: u64, members: u64) -> Option<Setup>
    ensures { result ≡ setup_with n id timeout room members }
{
    Some(Setup {
        n: u8::try_from(n).ok()?,
        id: u8::try_from(id).ok()?,
        timeout: u16::try_from(timeout).ok()?,
        room: in_memory(room)?,
        members: in_memory(members)?,
    })
}

// N n id t l m, R n id t l m view nonce mcap
fn create(by: Creation, line: &[u8]) -> Asked
    ensures { result ≡ creation_in by line.now }
{
    let setup = setup_with(
        words::decimal(line, 1),
        words::decimal(line, 2),
        words::decimal(line, 3),
        words::decimal(line, 4),
        words::decimal(line, 5),
    );
    let areas = AreaSizes {
        messages: words::decimal(line, 8).min(8192) as usize,
        replies: 0,
    };
    match setup {
        None => Asked::Larger,
        Some(setup) => Asked::Begin { by, setup, areas },
    }
}

// R n id t l m view nonce mcap
fn recover(line: &[u8]) -> Asked
    ensures { result ≡ recovery_in line.now }
{
    let Ok(view) = u32::try_from(words::decimal(line, 6)) else {
        return Asked::Larger;
    };
    let nonce = words::decimal(line, 7);
    create(
        Creation::Recover {
            view: View(view),
            nonce,
        },
        line,
    )
}

// M mcap rcap frame, T mcap rcap
fn go_on(by: RunCall, line: &[u8]) -> RunLine
    ensures { result ≡ going_in by line.now }
{
    RunLine::Go {
        by,
        areas: AreaSizes {
            messages: words::decimal(line, 1).min(8192) as usize,
            replies: words::decimal(line, 2).min(512) as usize,
        },
    }
}

// A line of a run that is played.
fn within(c: u8, line: &[u8]) -> RunLine
    ensures { result ≡ within_run c line.now }
{
    match c {
        b'M' => go_on(RunCall::Message, line),
        b'T' => go_on(RunCall::Idle, line),
        b'=' => RunLine::Answer,
        b':' => RunLine::State,
        b'+' => RunLine::Further,
        b'$' => RunLine::Takings,
        _ => RunLine::Unknown,
    }
}

// What a line that says this begins with.
fn first_byte_of(due: Due) -> u8
    ensures { result ≡ first_byte_of due }
{
    match due {
        Due::Answer => b'=',
        Due::State => b':',
    }
}

// A line of a run, whose line that is due comes first.
fn of_run(due: Option<Due>, c: u8, line: &[u8]) -> RunLine
    ensures { result ≡ of_run due c line.now }
{
    match due {
        Some(due) if first_byte_of(due) != c => RunLine::Missing { due },
        _ => within(c, line),
    }
}

// A line with this first byte. A new run begins when the one before is closed.
fn at(run: Option<Run>, c: u8, line: &[u8]) -> Asked
    ensures { result ≡ asked_at run c line.now }
{
    match c {
        b'N' => create(Creation::Create, line),
        b'R' => recover(line),
        b'C' => Asked::Client,
        b'#' | 0 => Asked::Nothing,
        _ => match run {
            None => Asked::Nothing,
            Some(run) => Asked::OfRun {
                run,
                line: of_run(run.due, c, line),
            },
        },
    }
}

// A line, with its first byte if it has one.
pub fn by(run: Option<Run>, first: Option<u8>, line: &[u8]) -> Asked
    ensures { result ≡ asked_by run first line.now }
{
    match first {
        None => Asked::Nothing,
        Some(c) => at(run, c, line),
    }
}
