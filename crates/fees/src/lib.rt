// The fee rules, on one total and over a lent run of totals; what they gave, in lent bytes.
#![tactic(auto)]

ghost use Rattle.std.specs.Prelude.{◌≡◌, ◌+◌, ◌-◌, ◌*◌, ◌≤◌, length, drop};
ghost use Rattle.numbers.specs.Numbers.{over};
ghost use Rattle.entries.specs.Places.{result_place};
ghost use Rattle.fees.specs.Fees.{rule, outcome_on, total_bytes_after};
ghost use Rattle.fees.specs.Results.{result_of, result_in, encode_result};
ghost use Rattle.fees.specs.Takings.{added, takings_after};

use entries::{Entry, Operation};

// No total passes this.
const LIMIT: u64 = 1_000_000_000;

// All totals added up don't pass this: 4,096 members at the limit.
pub const MOST: u64 = 4_096_000_000_000;

// The outcome's number, 1 to 6, and the total after it.
// Kept: a number, no enum: results are read from memory that may hold any byte (`result_at`).
#[derive(Clone, Copy, PartialEq, Eq, Debug)]
pub struct Outcome {
    pub code: u8,
    pub total: u64,
}

fn fee(total: u64, cents: u64) -> Outcome
    ensures { result ≡ rule total Operation.Fee cents }
{
    match total.checked_add(cents) {
        Some(sum) if sum <= LIMIT => Outcome {
            code: 1,
            total: sum,
        },
        _ => Outcome { code: 5, total },
    }
}

fn refund(total: u64, cents: u64) -> Outcome
    ensures { result ≡ rule total Operation.Refund cents }
{
    match total.checked_sub(cents) {
        None => Outcome { code: 6, total },
        Some(rest) => Outcome {
            code: 2,
            total: rest,
        },
    }
}

// The rules on one member's total.
pub fn by_rule(total: u64, op: Operation, cents: u64) -> Outcome
    ensures { result ≡ rule total op cents }
{
    match op {
        Operation::Fee => fee(total, cents),
        Operation::Refund => refund(total, cents),
        Operation::Ask => Outcome { code: 3, total },
    }
}

// One entry on the first `members` totals of the run, 8 bytes each.
pub fn apply(totals: &mut [u8], members: u32, e: Entry) -> Outcome
    requires { 8 * members ≤ length totals.old }
    ensures { (result ≡ outcome_on members totals.old e) × (totals.new ≡ total_bytes_after members totals.old e) }
{
    if e.member < members {
        let at = 8 * (e.member as usize);
        let op = entries::operation_of(e.operation);
        let o = by_rule(numbers::read_u64(totals, at), op, e.cents);
        numbers::write_u64(&mut totals[at..], o.total);
        return o;
    }
    Outcome { code: 4, total: 0 }
}

// Cents more. A sum that no call produced may be near the most: it stays there.
fn add(takings: u64, cents: u64) -> u64
    ensures { result ≡ added takings cents }
{
    takings.saturating_add(cents).min(MOST)
}

// Cents less. A sum that no call produced may be below them: it stops at 0.
fn take(takings: u64, cents: u64) -> u64
    ensures { result ≡ takings - cents }
{
    takings.saturating_sub(cents)
}

// The takings after an entry of so many cents gave this outcome: only a Fee or a Refund that took effect changes them.
pub fn takings_after(takings: u64, o: Outcome, cents: u64) -> u64
    ensures { result ≡ takings_after takings o cents }
{
    match o.code {
        1 => add(takings, cents),
        2 => take(takings, cents),
        _ => takings,
    }
}

// The result at place `at` of a run.
pub fn result_at(s: &[u8], at: usize) -> Outcome
    requires { at + 9 ≤ length s.now }
    ensures { result ≡ result_of (drop at s.now) }
{
    Outcome {
        code: numbers::read_u8(s, at),
        total: numbers::read_u64(s, at + 1),
    }
}

// The result of op number i + 1.
pub fn result_in(results: &[u8], i: usize) -> Outcome
    requires { result_place (i + 1) ≤ length results.now }
    ensures { result ≡ result_in results.now i }
{
    result_at(results, entries::result_place(i))
}

// A result's 9 bytes over the front of the area.
pub fn write_result(area: &mut [u8], o: Outcome)
    requires { 9 ≤ length area.old }
    ensures { area.new ≡ over (encode_result o) area.old }
{
    numbers::write_u8(area, o.code);
    numbers::write_u64(&mut area[1..], o.total);
}
