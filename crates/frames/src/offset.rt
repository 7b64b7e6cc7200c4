// Which byte of a frame is wrong: readers along the rules of its places, each from a place on. A reader answers the place where it stopped.
ghost use Rattle.std.specs.Prelude.{◌≡◌, ◌+◌, ◌*◌, ◌≤◌, ◌<◌, leb, length, drop};
ghost use Rattle.numbers.specs.Words.{◌and◌};
ghost use Rattle.entries.specs.Entries.{entry_ok};
ghost use Rattle.offsets.specs.Rules.{end, reach};
ghost use Rattle.frames.specs.Kinds.{kind_number, KindIf};
ghost use Rattle.frames.specs.FrameRules.{carries_log, entries_from, count_for, fits, some_fits, cents_rule, entry_rule, entries_rule, log_rule, part_rule, state_rule, bound_from, bound_rule, body_rule, offset_of};

use crate::{Kind, shape};

fn carries_log(kind: Kind) -> bool
    ensures { result ≡ carries_log (kind_number kind) }
{
    match kind {
        Kind::NewState => true,
        Kind::DoViewChange => true,
        Kind::StartView => true,
        Kind::RecoveryResponse => true,
        _ => false,
    }
}

// How many bytes stand before the entries in a frame of this kind whose length is n.
fn entries_from(kind: Kind, n: u32) -> usize
    ensures { (result ≡ entries_from (kind_number kind) n) × (result ≤ 29) }
{
    if kind == Kind::RecoveryResponse {
        if n != 17 {
            return shape::STATE_END;
        }
    }
    shape::fields_end(kind)
}

// How many entries it has.
fn count_for(kind: Kind, n: u32) -> usize
    ensures { (result ≡ count_for (kind_number kind) n) × (result < 4294967296) }
{
    if kind == Kind::Request {
        return 1;
    }
    if kind == Kind::Prepare {
        return 1;
    }
    if !carries_log(kind) {
        return 0;
    }
    let room = entries_from(kind, n);
    let whole = n as usize + 4;
    if whole < room {
        return 0;
    }
    (whole - room) / 32
}

// Whether a frame of this length can be of this kind.
fn fits(n: u32, kind: Kind) -> bool
    ensures { result ≡ fits n (kind_number kind) }
{
    n as usize + 4 == entries_from(kind, n) + 32 * count_for(kind, n)
}

// The kind that has this number, where a frame of this length can be of it.
fn fitting(n: u32, k: u8) -> Option<Kind>
    ensures { KindIf (fits n k) k result }
{
    let kind = Kind::of_number(k)?;
    if !fits(n, kind) {
        return None;
    }
    Some(kind)
}

// Whether it can be of any kind.
fn some_fits(n: u32) -> bool
    ensures { result ≡ some_fits 11 n }
{
    for k in 1..12 {
        if fitting(n, k).is_some() {
            return true;
        }
    }
    false
}

fn cents(s: &[u8], at: usize, operation: u8) -> usize
    requires { at ≤ length s.now }
    ensures { result ≡ at + reach (cents_rule operation end) (drop at s.now) }
{
    if operation == 3 {
        return offsets::number(s, at, 8, 0, 0);
    }
    offsets::number(s, at, 8, 1, 1_000_000)
}

// An entry, byte by byte.
fn entry_slowly(s: &[u8], at: usize) -> usize
    requires { at ≤ length s.now }
    ensures { result ≡ at + reach (entry_rule end) (drop at s.now) }
{
    let operation = offsets::free(s, at, 16);
    if operation - at < 16 {
        return operation;
    }
    let zeros = offsets::number(s, operation, 1, 1, 3);
    if zeros == operation {
        return zeros;
    }
    let member = offsets::number(s, zeros, 3, 0, 0);
    if member - zeros < 3 {
        return member;
    }
    let last = offsets::free(s, member, 4);
    if last - member < 4 {
        return last;
    }
    cents(s, last, s[operation])
}

// Whether a whole entry that keeps the entry rules stands here: as fast as they are tested in a well-formed frame.
fn is_good(s: &[u8], at: usize) -> bool
    requires { at ≤ length s.now }
    ensures { result ≡ (leb 32 (length (drop at s.now)) and entry_ok (drop at s.now)) }
{
    if s.len() - at < 32 {
        return false;
    }
    entries::entry_ok(s, at)
}

fn entry(s: &[u8], at: usize) -> usize
    requires { at ≤ length s.now }
    ensures { result ≡ at + reach (entry_rule end) (drop at s.now) }
{
    if is_good(s, at) {
        return at + 32;
    }
    entry_slowly(s, at)
}

fn entries(s: &[u8], at: usize, count: usize) -> usize
    requires { at ≤ length s.now }
    ensures { result ≡ at + reach (entries_rule count) (drop at s.now) }
{
    for i in 0..count {
        let p = at + 32 * i;
        let q = entry(s, p);
        if q - p < 32 {
            return q;
        }
    }
    at + 32 * count
}

// o, the commit number, the entries.
fn log(s: &[u8], at: usize, count: usize) -> usize
    requires { at ≤ length s.now }
    ensures { result ≡ at + reach (log_rule count) (drop at s.now) }
{
    let commit = offsets::number(s, at, 4, count as u64, count as u64);
    if commit - at < 4 {
        return commit;
    }
    let first = offsets::free(s, commit, 4);
    if first - commit < 4 {
        return first;
    }
    entries(s, first, count)
}

// Of a NewState: start, end, the commit number, the entries.
fn part(s: &[u8], at: usize, count: usize) -> usize
    requires { (at ≤ length s.now) × (count < 4294967296) }
    ensures { result ≡ at + reach (part_rule count) (drop at s.now) }
{
    let stop = offsets::number(s, at, 4, 0, 4_294_967_295 - count as u64);
    if stop - at < 4 {
        return stop;
    }
    let end = numbers::read_be(s, at, 4) + count as u64;
    let commit = offsets::number(s, stop, 4, end, end);
    if commit - stop < 4 {
        return commit;
    }
    let first = offsets::free(s, commit, 4);
    if first - commit < 4 {
        return first;
    }
    entries(s, first, count)
}

// Of a RecoveryResponse whose length is n: the mark, and what it says that follows.
fn from_mark(s: &[u8], at: usize, n: u32, count: usize) -> usize
    requires { at ≤ length s.now }
    ensures { result ≡ at + reach (state_rule n count) (drop at s.now) }
{
    if n == 17 {
        return offsets::number(s, at, 1, 0, 0);
    }
    let op = offsets::number(s, at, 1, 1, 1);
    if op == at {
        return op;
    }
    log(s, op, count)
}

// Where the first field of a kind stands that isn't free.
fn bound_from(kind: Kind) -> usize
    ensures { (result ≡ bound_from (kind_number kind)) × (6 ≤ result) }
{
    match kind {
        Kind::NewState => 11,
        Kind::DoViewChange => 16,
        Kind::StartView => 11,
        Kind::RecoveryResponse => 20,
        _ => shape::fields_end(kind),
    }
}

// From there on.
fn bound(s: &[u8], at: usize, kind: Kind, n: u32) -> usize
    requires { at ≤ length s.now }
    ensures { result ≡ at + reach (bound_rule n (kind_number kind)) (drop at s.now) }
{
    let count = count_for(kind, n);
    match kind {
        Kind::NewState => part(s, at, count),
        Kind::DoViewChange => log(s, at, count),
        Kind::StartView => log(s, at, count),
        Kind::RecoveryResponse => from_mark(s, at, n, count),
        _ => entries(s, at, count),
    }
}

// From the addressee on.
fn body(s: &[u8], kind: Kind, n: u32) -> usize
    requires { 6 ≤ length s.now }
    ensures { result ≡ 6 + reach (body_rule n (kind_number kind)) (drop 6 s.now) }
{
    let at = bound_from(kind);
    let p = offsets::free(s, 6, at - 6);
    if p < at {
        return p;
    }
    bound(s, at, kind, n)
}

// How many bytes of a frame keep the rules from the left: of a malformed one the offset of the first wrong byte, or its length where only bytes are missing.
pub fn offset(frame: &[u8]) -> usize
    ensures { result ≡ offset_of frame.now }
{
    let p = offsets::number(frame, 0, 3, 0, 16_777_215);
    if p < 3 {
        return p;
    }
    if frame.len() < 4 {
        return 3;
    }
    let n = numbers::read_u32(frame, 0);
    if !some_fits(n) {
        return 3;
    }
    let at = offsets::number(frame, 4, 1, 1, 1);
    if at == 4 {
        return 4;
    }
    if frame.len() < 6 {
        return 5;
    }
    let Some(kind) = fitting(n, crate::kind_of(frame)) else {
        return 5;
    };
    body(frame, kind, n)
}
