// The answer line, what a call has to leave alone, and the lines behind the state line: nothing where all is as it must be, else what isn't.
ghost use Rattle.std.specs.Prelude.{◌≡◌};
ghost use Rattle.comparing.specs.Answers.{same_front, answer_differs, touched_behind, clean_refusal, further_differs, takings_are};

use crate::{digest, fields, memory, words};
use frames::Refusal;
use state::{Replica, Returned};

// Whether word k is the first n bytes of an area.
pub fn same_front(line: &[u8], k: usize, n: usize, area: &[u8]) -> bool
    ensures { result ≡ same_front line.now k n area.now }
{
    if area.len() < n {
        return false;
    }
    words::same(line, k, &area[0..n])
}

// A part of a call's answer.
#[derive(Clone, Copy, PartialEq, Eq, Debug)]
pub enum AnswerPart {
    Number,
    Messages,
    Replies,
}

// `= code messages replies`: the first part that differs.
pub fn differs(a: Returned, line: &[u8], out: &[u8], reps: &[u8]) -> Option<AnswerPart>
    ensures { result ≡ answer_differs a line.now out.now reps.now }
{
    if a.number() as u64 != words::decimal(line, 1) {
        return Some(AnswerPart::Number);
    }
    if !same_front(line, 2, a.messages(), out) {
        return Some(AnswerPart::Messages);
    }
    if !same_front(line, 3, a.replies(), reps) {
        return Some(AnswerPart::Replies);
    }
    None
}

// Whether a call wrote behind its messages or its replies, in areas of so many bytes.
pub fn touched(
    a: Returned,
    out: &[u8],
    messages: usize,
    reps: &[u8],
    replies: usize,
) -> Option<AnswerPart>
    ensures { result ≡ touched_behind a out.now messages reps.now replies }
{
    if !memory::untouched(out, a.messages(), messages) {
        return Some(AnswerPart::Messages);
    }
    if !memory::untouched(reps, a.replies(), replies) {
        return Some(AnswerPart::Replies);
    }
    None
}

// Whether a call that is refused left the memory as it was, `before` being its digest before the call.
pub fn clean(a: Returned, mem: &[u8], before: u64) -> bool
    ensures { result ≡ clean_refusal a mem.now before }
{
    if a.outcome.is_ok() {
        return true;
    }
    digest::with_bytes(digest::EMPTY, mem) == before
}

// A part of the line `+ nonce reports`.
#[derive(Clone, Copy, PartialEq, Eq, Debug)]
pub enum FurtherPart {
    Nonce,
    Reports,
}

// The first part that differs.
pub fn further(s: Replica, line: &[u8], mem: &[u8]) -> Option<FurtherPart>
    ensures { result ≡ further_differs s line.now mem.now }
{
    if words::decimal(line, 1) != s.nonce {
        return Some(FurtherPart::Nonce);
    }
    if words::hexadecimal(line, 2) != fields::reports(s, mem) {
        return Some(FurtherPart::Reports);
    }
    None
}

// Whether the line `$ sum` says what the call of the takings answered, a sum.
pub fn takings(told: Result<u64, Refusal>, line: &[u8]) -> bool
    ensures { result ≡ takings_are told line.now }
{
    match told {
        Ok(cents) => words::decimal(line, 1) == cents,
        Err(_) => false,
    }
}
