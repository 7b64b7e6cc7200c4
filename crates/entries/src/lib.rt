// The 32-byte entry, the entry rules, runs of entries, and the look over pairs of them; where an op has its cell in log, results and acks.
#![tactic(auto)]

ghost use Rattle.std.specs.Prelude.{◌≡◌, ◌+◌, ◌*◌, ◌^◌, ◌≤◌, ◌<◌, length, drop};
ghost use Rattle.numbers.specs.Numbers.{over};
ghost use Rattle.entries.specs.Entries.{operation_number, operation_of, operation_ok, entry_of, entry_ok, encode_entry, entries, entries_ok, run_ok};
ghost use Rattle.entries.specs.Places.{cell_of, entry_place, result_place, ack_place, entry_in};
ghost use Rattle.entries.specs.Rising.{breaks_at, rising};

use chains::Chains;

pub mod chains; // by which the entries of a client are found

// A charge as a client asks for it. The operation is the wire's byte: memory that no call produced may hold any.
#[derive(Clone, Copy, PartialEq, Eq, Debug)]
pub struct Entry {
    pub client: u64,
    pub request: u64,
    pub operation: u8,
    pub member: u32,
    pub cents: u64,
}

#[derive(Clone, Copy, PartialEq, Eq, Debug)]
pub enum Operation {
    Fee,
    Refund,
    Ask,
}

impl From<Operation> for u8 {
    ghost from_gives = { λ op number. number ≡ operation_number op };

    fn from(op: Operation) -> u8
        ensures { result ≡ operation_number op }
    {
        match op {
            Operation::Fee => 1,
            Operation::Refund => 2,
            Operation::Ask => 3,
        }
    }
}

// Any number but 1 and 2 is read as Ask.
// Kept: no `From<u8>`, which would say that each byte is an operation's number; nor `TryFrom`, since a byte that no frame brings is read, not refused.
pub fn operation_of(number: u8) -> Operation
    ensures { result ≡ operation_of number }
{
    match number {
        1 => Operation::Fee,
        2 => Operation::Refund,
        _ => Operation::Ask,
    }
}

// The entry rules on an operation's number and its cents.
pub fn operation_ok(operation: u8, cents: u64) -> bool
    ensures { result ≡ operation_ok operation cents }
{
    match operation {
        1 | 2 => numbers::within(1, 1_000_000, cents),
        3 => cents == 0,
        _ => false,
    }
}

// The entry at place `at`, whether it keeps the rules or not.
pub fn entry_at(s: &[u8], at: usize) -> Entry
    requires { at + 32 ≤ length s.now }
    ensures { result ≡ entry_of (drop at s.now) }
{
    Entry {
        client: numbers::read_u64(s, at),
        request: numbers::read_u64(s, at + 8),
        operation: numbers::read_u8(s, at + 16),
        member: numbers::read_u32(s, at + 20),
        cents: numbers::read_u64(s, at + 24),
    }
}

// The cell of op number i + 1 in log, results and acks, counted from 0. All its places are computed from this one.
fn cell_of(i: usize) -> usize
    ensures { result ≡ cell_of i }
{
    i
}

// Where the entry of op number i + 1 begins in the log.
pub fn entry_place(i: usize) -> usize
    requires { entry_place i < 2 ^ 64 }
    ensures { result ≡ entry_place i }
{
    32 * cell_of(i)
}

// Where the result of op number i + 1 begins in the results.
pub fn result_place(i: usize) -> usize
    requires { result_place i < 2 ^ 64 }
    ensures { result ≡ result_place i }
{
    9 * cell_of(i)
}

// Where the row of acks of op number i + 1 stands.
pub fn ack_place(i: usize) -> usize
    ensures { result ≡ ack_place i }
{
    cell_of(i)
}

// The entry of op number i + 1.
pub fn entry_in(log: &[u8], i: usize) -> Entry
    requires { entry_place (i + 1) ≤ length log.now }
    ensures { result ≡ entry_in log.now i }
{
    entry_at(log, entry_place(i))
}

// Whether the 32 bytes at place `at` keep the entry rules.
pub fn entry_ok(s: &[u8], at: usize) -> bool
    requires { at + 32 ≤ length s.now }
    ensures { result ≡ entry_ok (drop at s.now) }
{
    if numbers::read_be(s, at + 17, 3) != 0 {
        return false;
    }
    operation_ok(numbers::read_u8(s, at + 16), numbers::read_u64(s, at + 24))
}

// The entry's 32 bytes over the front of `area`. The operation is the highest byte of four, of which the others are zero: one write.
pub fn write_entry(area: &mut [u8], e: Entry)
    requires { 32 ≤ length area.old }
    ensures { area.new ≡ over (encode_entry e) area.old }
{
    numbers::write_u64(area, e.client);
    numbers::write_u64(&mut area[8..], e.request);
    numbers::write_u32(&mut area[16..], 16_777_216 * e.operation as u32);
    numbers::write_u32(&mut area[20..], e.member);
    numbers::write_u64(&mut area[24..], e.cents);
}

// Whether the k entries from place `at` on keep the entry rules.
pub fn entries_ok(s: &[u8], at: usize, k: usize) -> bool
    requires { at + 32 * k ≤ length s.now }
    ensures { result ≡ entries_ok k (drop at s.now) }
{
    for i in 0..k {
        if !entry_ok(s, at + 32 * i) {
            return false;
        }
    }
    true
}

// Whether a run is entries that keep the rules, and nothing else.
pub fn run_ok(run: &[u8]) -> bool
    ensures { result ≡ run_ok run.now }
{
    if run.len() % 32 != 0 {
        return false;
    }
    entries_ok(run, 0, run.len() / 32)
}

// Whether the entry at `at`, which stands after e, is of the same client and its request number does not rise. Of another client's entry nothing else is read.
pub fn breaks(e: Entry, s: &[u8], at: usize) -> bool
    requires { at + 32 ≤ length s.now }
    ensures { result ≡ breaks_at e (entry_of (drop at s.now)) }
{
    if numbers::read_u64(s, at) != e.client {
        return false;
    }
    numbers::read_u64(s, at + 8) <= e.request
}

// Whether the first k entries of the run are rising. The look over pairs stops at the first pair that breaks this.
// Up to 16 entries every pair is looked at sooner than the chains are cleared. The chains have places for 4,096 entries, the most that a log has.
pub fn is_rising(s: &[u8], k: usize) -> bool
    requires { 32 * k ≤ length s.now }
    ensures { result ≡ rising (entries k s.now) }
{
    match k {
        17..=4096 => rises_by_chain(s, k),
        _ => rises_by_pairs(s, k),
    }
}

// Each entry is compared with every later one.
fn rises_by_pairs(s: &[u8], k: usize) -> bool
    requires { 32 * k ≤ length s.now }
    ensures { result ≡ rising (entries k s.now) }
{
    let mut ok = true;
    'pairs: for i in 0..k {
        let e = entry_at(s, 32 * i);
        for j in i + 1..k {
            if breaks(e, s, 32 * j) {
                ok = false;
                break 'pairs;
            }
        }
    }
    ok
}

// Each entry is compared with the nearest earlier one of its client, found along its chain: the entries up to there rise, so none before that has to be looked at.
// Clients choose their ids: where too many have one remainder, a chain is slower than the pairs, which are then looked at instead. 4,096 ids that spread take 2 looks each.
fn rises_by_chain(s: &[u8], k: usize) -> bool
    requires { (k ≤ 4096) × (32 * k ≤ length s.now) }
    ensures { result ≡ rising (entries k s.now) }
{
    let mut chains = Chains::new();
    let mut looks = 16 * k;
    let mut ok = true;
    'pairs: for i in 0..k {
        let c = numbers::read_u64(s, 32 * i);
        let r = numbers::read_u64(s, 32 * i + 8);
        let mut at = chains.latest(c);
        while let Some(j) = at {
            if looks == 0 {
                return rises_by_pairs(s, k);
            }
            looks -= 1;
            if numbers::read_u64(s, 32 * j) == c {
                if r <= numbers::read_u64(s, 32 * j + 8) {
                    ok = false;
                    break 'pairs;
                }
                break;
            }
            at = chains.earlier(j);
        }
        chains.push(i, c);
    }
    ok
}
