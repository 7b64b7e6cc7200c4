// A whole trace, line by line, and its titles: a run's title is a comment line straight before the run. A line's call is made, or its answer, the state after it, nonce
// and reports or the takings compared.
use crate::lent::{CallMemory, CallRuns};
use crate::say::Difference;
use crate::{AreaSizes, Asked, Creation, LastCall, Play, Run, RunCall, RunLine, asking, say};
use comparing::words;
use config::Setup;
use frames::Refusal;
use numbers::View;
use state::{Replica, Returned};
use std::io;

// A replica that is tried: its calls, over what they are lent.
pub trait Engine {
    // new
    fn create(u: Setup, lent: CallRuns) -> Returned;

    fn recover(u: Setup, view: View, nonce: u64, lent: CallRuns) -> Returned;

    // The recorded calls name no offset.
    fn on_message(s: Replica, frame: &[u8], lent: CallRuns) -> Returned;

    fn on_idle(s: Replica, lent: CallRuns) -> Returned;

    fn takings(s: Replica) -> Result<u64, Refusal>;
}

// The creation, in memory that isn't zero.
// Kept: a match, since what a line asks for is data; a closure for it would have to be boxed.
fn begin<E: Engine>(
    p: Play,
    by: Creation,
    setup: Setup,
    areas: AreaSizes,
    memory: &mut CallMemory,
) -> Play {
    memory.spoil();
    let before = memory.before(areas);
    let lent = memory.lend(setup, areas);
    let answer = match by {
        Creation::Create => E::create(setup, lent),
        Creation::Recover { view, nonce } => E::recover(setup, view, nonce, lent),
    };
    p.begun(LastCall {
        areas,
        before,
        answer,
    })
}

// M mcap rcap frame, of 8192 bytes at most
fn message<E: Engine>(s: Replica, line: &[u8], lent: CallRuns) -> Returned {
    let mut frame = [0; 8192];
    let n = words::bytes(line, 3, &mut frame).min(8192);
    E::on_message(s, &frame[..n], lent)
}

// A call of the run's replica.
// Kept: a match, as in `begin`.
fn go_on<E: Engine>(
    p: Play,
    run: Run,
    by: RunCall,
    areas: AreaSizes,
    line: &[u8],
    memory: &mut CallMemory,
) -> Play {
    let s = run.last.answer.state;
    let before = memory.before(areas);
    let lent = memory.lend(s.setup, areas);
    let answer = match by {
        RunCall::Message => message::<E>(s, line, lent),
        RunCall::Idle => E::on_idle(s, lent),
    };
    p.going_on(
        run,
        LastCall {
            areas,
            before,
            answer,
        },
    )
}

// A line of a run that is played.
fn of_run<'a, E: Engine>(
    p: Play,
    run: Run,
    asked: RunLine,
    line: &[u8],
    memory: &'a mut CallMemory,
) -> Result<Play, Difference<'a>> {
    let s = run.last.answer.state;
    match asked {
        RunLine::Missing { due } => Err(Difference::Missing { due }),
        RunLine::Unknown => Err(Difference::Unknown),
        RunLine::Go { by, areas } => Ok(go_on::<E>(p, run, by, areas, line, memory)),
        RunLine::Answer => {
            say::answer(run.last, line, memory)?;
            say::left_alone(run.last, memory)?;
            Ok(p.right(run))
        }
        RunLine::State => {
            say::state(s, line, memory)?;
            Ok(p.state_right(run))
        }
        RunLine::Further => {
            say::further(s, line, memory)?;
            Ok(p.further_right())
        }
        RunLine::Takings => {
            say::takings(E::takings(s), line)?;
            Ok(p.takings_right())
        }
    }
}

// The run ends here.
fn differs<W: io::Write>(writer: &mut W, p: Play, what: Difference) -> io::Result<Play> {
    writeln!(writer, "line {}: {what}", p.line)?;
    Ok(p.ended())
}

// A run that there is no room for.
fn larger<W: io::Write>(writer: &mut W, p: Play) -> io::Result<Play> {
    if p.titled {
        writeln!(writer, "passed over")?;
    }
    Ok(p.too_large())
}

// A line, with its first byte if it has one.
fn played<E: Engine, W: io::Write>(
    writer: &mut W,
    p: Play,
    first: Option<u8>,
    line: &[u8],
    memory: &mut CallMemory,
) -> io::Result<Play> {
    match asking::by(p.run, first, line) {
        Asked::Nothing => Ok(p),
        Asked::Larger => larger(writer, p),
        Asked::Client => Ok(p.client()),
        Asked::Begin { by, setup, areas } => Ok(begin::<E>(p, by, setup, areas, memory)),
        Asked::OfRun { run, line: asked } => match of_run::<E>(p, run, asked, line, memory) {
            Ok(q) => Ok(q),
            Err(what) => differs(writer, p, what),
        },
    }
}

// The run is over: what is missing, or the verdict that its title waits for.
fn closed<W: io::Write>(writer: &mut W, p: Play) -> io::Result<Play> {
    if let Some(due) = p.waiting() {
        return differs(writer, p, Difference::Missing { due });
    }
    if let (true, Some(run)) = (p.titled, p.run) {
        writeln!(writer, "ok, {} calls", run.here)?;
    }
    Ok(p.closed())
}

// A run's title, without its `# `.
fn say_title<W: io::Write>(writer: &mut W, title: &[u8]) -> io::Result<()> {
    if let [_, _, text @ ..] = title {
        writer.write_all(text)?;
        writer.write_all(b": ")?;
    }
    Ok(())
}

// At a line; before a run the one before is closed, and the title printed.
fn opened<W: io::Write>(
    writer: &mut W,
    p: Play,
    first: Option<u8>,
    title: Option<&[u8]>,
) -> io::Result<Play> {
    let p = p.next_line();
    if !matches!(first, Some(b'N' | b'R' | b'C')) {
        return Ok(p);
    }
    let p = closed(writer, p)?;
    match title {
        Some(title) if first != Some(b'C') => {
            say_title(writer, title)?;
            Ok(p.titled())
        }
        _ => Ok(p),
    }
}

// A trace replayed: a verdict for each run that has a title, a line for each run that differs, and the counts. The last line may have no end.
pub fn replay<E: Engine, W: io::Write>(writer: &mut W, trace: &[u8]) -> io::Result<()> {
    let lines = trace.strip_suffix(b"\n").unwrap_or(trace);
    let mut memory = CallMemory::new();
    let mut p = Play::new();
    let mut title = None;
    for line in lines.split(|b| *b == b'\n') {
        let first = line.first().copied();
        let q = opened(writer, p, first, title)?;
        p = played::<E, W>(writer, q, first, line, &mut memory)?;
        title = if first == Some(b'#') {
            Some(line)
        } else {
            None
        };
    }
    let p = closed(writer, p.next_line())?;
    writeln!(writer, "{}", p.tally)
}
