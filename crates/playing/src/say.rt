// What differs, and the counts, in words.
ghost use Rattle.std.specs.Prelude.{◌≡◌, ◌≤◌, ◌↔◌, true, Some, None, IsOk, IsTrue};
ghost use Rattle.comparing.specs.Answers.{answer_differs, touched_behind, clean_refusal, further_differs, takings_are};
ghost use Rattle.comparing.specs.Fields.{state_line, first_differing};
ghost use Rattle.playing.specs.Words.{difference_text, tally_text};

use crate::lent::CallMemory;
use crate::{Due, LastCall, Tally};
use comparing::answer::{AnswerPart, FurtherPart};
use comparing::{answer, fields};
use frames::Refusal;
use state::Replica;
use std::fmt;
use text::HexBytes;

// The first thing in which a line and what was called differ.
#[derive(Clone, Copy)]
pub enum Difference<'a> {
    Missing { due: Due },
    Unknown,
    Number { number: u8 },
    Messages { bytes: &'a [u8] },
    Replies { bytes: &'a [u8] },
    BehindMessages,
    BehindReplies,
    Unclean,
    Field { name: &'static str, value: u64 },
    Digest { name: &'static str, value: u64 },
    TakingsRefused { number: u8 },
}

// FORMAT.md's names of the fields. The last five are digests.
const FIELDS: [&str; 19] = [
    "status",
    "view",
    "last_normal",
    "op",
    "commit",
    "heard",
    "waiting",
    "stable",
    "attempts",
    "svc",
    "dvc_sent",
    "catching_up",
    "dvcs",
    "responses",
    "log",
    "rows",
    "totals",
    "acks",
    "applied",
];

// The first n bytes, where there are so many.
fn front(area: &[u8], n: usize) -> &[u8] {
    area.get(..n).unwrap_or(&[])
}

// = code messages replies
pub fn answer<'a>(last: LastCall, line: &[u8], memory: &'a CallMemory) -> Result<(), Difference<'a>>
    ensures { IsOk result ↔ (answer_differs last.answer line.now memory.now.out memory.now.reps ≡ None) }
{
    let a = last.answer;
    match answer::differs(a, line, &memory.out, &memory.reps) {
        None => Ok(()),
        Some(AnswerPart::Number) => Err(Difference::Number { number: a.number() }),
        Some(AnswerPart::Messages) => Err(Difference::Messages {
            bytes: front(&memory.out, a.messages()),
        }),
        Some(AnswerPart::Replies) => Err(Difference::Replies {
            bytes: front(&memory.reps, a.replies()),
        }),
    }
}

// What the call had to leave alone: the bytes behind messages and replies, and all where it is refused.
pub fn left_alone(last: LastCall, memory: &CallMemory) -> Result<(), Difference<'static>>
    ensures { IsOk result ↔ ((touched_behind last.answer memory.now.out last.areas.messages memory.now.reps last.areas.replies ≡ None) × (clean_refusal last.answer memory.now.runs last.before ≡ true)) }
{
    let a = last.answer;
    match answer::touched(
        a,
        &memory.out,
        last.areas.messages,
        &memory.reps,
        last.areas.replies,
    ) {
        None => {}
        Some(AnswerPart::Replies) => return Err(Difference::BehindReplies),
        Some(_) => return Err(Difference::BehindMessages),
    }
    if !answer::clean(a, &memory.runs, last.before) {
        return Err(Difference::Unclean);
    }
    Ok(())
}

// The state line.
pub fn state(s: Replica, line: &[u8], memory: &CallMemory) -> Result<(), Difference<'static>>
    ensures { IsOk result ↔ (19 ≤ first_differing line.now 0 (state_line s memory.now.runs)) }
{
    let values = fields::values(s, &memory.runs);
    let k = fields::differing(line, &values);
    match (FIELDS.get(k), values.get(k)) {
        (Some(name), Some(value)) if k < 14 => Err(Difference::Field {
            name,
            value: *value,
        }),
        (Some(name), Some(value)) => Err(Difference::Digest {
            name,
            value: *value,
        }),
        _ => Ok(()),
    }
}

// + nonce reports
pub fn further(s: Replica, line: &[u8], memory: &CallMemory) -> Result<(), Difference<'static>>
    ensures { IsOk result ↔ (further_differs s line.now memory.now.runs ≡ None) }
{
    match answer::further(s, line, &memory.runs) {
        None => Ok(()),
        Some(FurtherPart::Nonce) => Err(Difference::Field {
            name: "nonce",
            value: s.nonce,
        }),
        Some(FurtherPart::Reports) => Err(Difference::Digest {
            name: "reports",
            value: fields::reports(s, &memory.runs),
        }),
    }
}

// $ sum, against what the call of the takings answered.
pub fn takings(told: Result<u64, Refusal>, line: &[u8]) -> Result<(), Difference<'static>>
    ensures { IsOk result ↔ IsTrue (takings_are told line.now) }
{
    match told {
        Ok(value) => {
            if answer::takings(told, line) {
                return Ok(());
            }
            Err(Difference::Field {
                name: "takings",
                value,
            })
        }
        Err(refusal) => Err(Difference::TakingsRefused {
            number: u8::from(refusal),
        }),
    }
}

impl fmt::Display for Difference<'_> {
    ghost output = { λ d. Some (difference_text d) };

    fn fmt<W: fmt::Write>(&self, f: &mut fmt::Formatter<W>) -> fmt::Result {
        match *self {
            Difference::Missing { due: Due::Answer } => f.write_str("no answer before it"),
            Difference::Missing { due: Due::State } => f.write_str("no state before it"),
            Difference::Unknown => f.write_str("no line of a trace"),
            Difference::Number { number } => write!(f, "the number is {number}"),
            Difference::Messages { bytes } => write!(f, "the messages are{}", HexBytes(bytes)),
            Difference::Replies { bytes } => write!(f, "the replies are{}", HexBytes(bytes)),
            Difference::BehindMessages => f.write_str("bytes behind the messages are written"),
            Difference::BehindReplies => f.write_str("bytes behind the replies are written"),
            Difference::Unclean => f.write_str("a refused call changed the memory"),
            Difference::Field { name, value } => write!(f, "{name} is {value}"),
            Difference::Digest { name, value } => write!(f, "{name} is {value:016x}"),
            Difference::TakingsRefused { number } => write!(f, "takings is refused by {number}"),
        }
    }
}

impl fmt::Display for Tally {
    ghost output = { λ t. Some (tally_text t) };

    fn fmt<W: fmt::Write>(&self, f: &mut fmt::Formatter<W>) -> fmt::Result {
        writeln!(
            f,
            "passed over: {} runs of clients, {} runs of larger sizes",
            self.clients, self.larger
        )?;
        writeln!(f, "nonce and reports: {} lines", self.further)?;
        writeln!(f, "takings: {} lines", self.takings)?;
        write!(
            f,
            "{} runs, {} calls, {} differ",
            self.runs, self.calls, self.differ
        )
    }
}
