// The log, the results and the totals in lent runs: append and install, commits by the fee rules, replies.
#![tactic(auto)]

ghost use Rattle.std.specs.Prelude.{true, ◌≡◌, ◌+◌, ◌*◌, ◌≤◌, ◌<◌, length, take};
ghost use Rattle.numbers.specs.Numbers.{over};
ghost use Rattle.entries.specs.Entries.{encode_entry, entries};
ghost use Rattle.entries.specs.Places.{entry_place, result_place};
ghost use Rattle.entries.specs.Rising.{rising};
ghost use Rattle.book.specs.Log.{with_entries, rises_after, none_breaks, keeps_first};
ghost use Rattle.fees.specs.Fees.{outcome_on};
ghost use Rattle.fees.specs.Takings.{takings_after};
ghost use Rattle.book.specs.Runs.{applied, money_committed, takings_committed, replies};
ghost use Rattle.book.specs.Memory.{money};

use entries::Entry;
use entries::chains::Chains;
use numbers::View;

// One entry after the first n.
pub fn append(log: &mut [u8], n: usize, e: Entry)
    requires { (n < 4096) × (entry_place (n + 1) ≤ length log.old) }
    ensures { log.new ≡ with_entries n (encode_entry e) log.old }
{
    let p = entries::entry_place(n);
    entries::write_entry(&mut log[p..], e);
}

// The first k entries of `part` after the first n. With n = 0 a log is installed.
pub fn append_part(log: &mut [u8], n: usize, part: &[u8], k: usize)
    requires { (n + k ≤ 4096) × ((entry_place (n + k) ≤ length log.old) × (32 * k ≤ length part.now)) }
    ensures { log.new ≡ with_entries n (take (32 * k) part.now) log.old }
{
    let p = entries::entry_place(n);
    numbers::copy(&mut log[p..], part, 32 * k);
}

// Whether none of the first k entries of `part`, which rise, breaks with one of the first n of the log. The look stops at the first pair that does.
// Up to 2 entries every pair is looked at sooner than the chains are cleared. The chains have places for 4,096 entries, the most that a log has.
fn none_breaks(log: &[u8], n: usize, part: &[u8], k: usize) -> bool
    requires { (n ≤ 4096) × ((entry_place n ≤ length log.now) × ((32 * k ≤ length part.now) × (rising (entries k part.now) ≡ true))) }
    ensures { result ≡ none_breaks (entries n log.now) (entries k part.now) }
{
    match k {
        3..=4096 => none_by_chain(log, n, part, k),
        _ => none_by_pairs(log, n, part, k),
    }
}

// Each entry of the log is compared with every one of `part`.
fn none_by_pairs(log: &[u8], n: usize, part: &[u8], k: usize) -> bool
    requires { (n ≤ 4096) × ((entry_place n ≤ length log.now) × (32 * k ≤ length part.now)) }
    ensures { result ≡ none_breaks (entries n log.now) (entries k part.now) }
{
    let mut ok = true;
    'pairs: for i in 0..n {
        let e = entries::entry_in(log, i);
        for j in 0..k {
            if entries::breaks(e, part, 32 * j) {
                ok = false;
                break 'pairs;
            }
        }
    }
    ok
}

// Each entry of the log is compared with the first one of its client in `part`: those after it have higher request numbers.
// It is found along its chain, in which the entries of `part` are numbered from its end, 0 being the last one.
// Where too many ids have one remainder, the pairs are looked at instead.
fn none_by_chain(log: &[u8], n: usize, part: &[u8], k: usize) -> bool
    requires { (n ≤ 4096) × ((entry_place n ≤ length log.now) × ((k ≤ 4096) × ((32 * k ≤ length part.now) × (rising (entries k part.now) ≡ true)))) }
    ensures { result ≡ none_breaks (entries n log.now) (entries k part.now) }
{
    let mut chains = Chains::new();
    for m in 0..k {
        chains.push(m, numbers::read_u64(part, 32 * (k - 1 - m)));
    }
    let mut looks = 16 * n;
    let mut ok = true;
    'pairs: for i in 0..n {
        let e = entries::entry_in(log, i);
        let mut at = chains.latest(e.client);
        while let Some(j) = at {
            if looks == 0 {
                return none_by_pairs(log, n, part, k);
            }
            looks -= 1;
            let p = 32 * (k - 1 - j);
            if numbers::read_u64(part, p) == e.client {
                if numbers::read_u64(part, p + 8) <= e.request {
                    ok = false;
                    break 'pairs;
                }
                break;
            }
            at = chains.earlier(j);
        }
    }
    ok
}

// Whether the first n entries of a log that is rising, followed by the first k of `part`, are rising.
pub fn rises_after(log: &[u8], n: usize, part: &[u8], k: usize) -> bool
    requires { (n ≤ 4096) × ((entry_place n ≤ length log.now) × (32 * k ≤ length part.now)) }
    ensures { result ≡ rises_after (entries n log.now) (entries k part.now) }
{
    if !entries::is_rising(part, k) {
        return false;
    }
    none_breaks(log, n, part, k)
}

// Whether a log of k entries in `part` keeps the first n of ours, all 32 bytes of each.
pub fn keeps(log: &[u8], n: usize, part: &[u8], k: usize) -> bool
    requires { (n ≤ 4096) × ((entry_place n ≤ length log.now) × (32 * k ≤ length part.now)) }
    ensures { result ≡ keeps_first n log.now k part.now }
{
    if k < n {
        return false;
    }
    log[..32 * n] == part[..32 * n]
}

// The entry of op number i + 1 goes through the fee rules; what it gave is the result of that op. The takings after it.
fn commit_one(
    results: &mut [u8],
    totals: &mut [u8],
    members: u32,
    takings: u64,
    e: Entry,
    i: usize,
) -> u64
    requires { (8 * members ≤ length totals.old) × (result_place (i + 1) ≤ length results.old) }
    ensures { (money results.new totals.new ≡ applied members e i (money results.old totals.old)) × (result ≡ takings_after takings (outcome_on members totals.old e) e.cents) }
{
    let o = fees::apply(totals, members, e);
    let p = entries::result_place(i);
    fees::write_result(&mut results[p..], o);
    fees::takings_after(takings, o, e.cents)
}

// `count` ops after the first `from`, in order. The takings after them.
pub fn commit_up_to(
    log: &[u8],
    results: &mut [u8],
    totals: &mut [u8],
    members: u32,
    takings: u64,
    from: usize,
    count: usize,
) -> u64
    requires { (from + count ≤ 4096) × ((8 * members ≤ length totals.old) × ((9 * (from + count) ≤ length results.old) × (entry_place (from + count) ≤ length log.now))) }
    ensures { (money results.new totals.new ≡ money_committed members log.now from count (money results.old totals.old)) × (result ≡ takings_committed members log.now from count (money results.old totals.old) takings) }
{
    let mut sum = takings;
    for i in from..from + count {
        sum = commit_one(results, totals, members, sum, entries::entry_in(log, i), i);
    }
    sum
}

// The replies to `count` ops after the first `from`, each straight after the one before it, out of log and results.
pub fn write_replies(
    log: &[u8],
    results: &[u8],
    v: View,
    from: usize,
    count: usize,
    area: &mut [u8],
)
    requires { (from + count ≤ 4096) × ((36 * count ≤ length area.old) × ((9 * (from + count) ≤ length results.now) × (entry_place (from + count) ≤ length log.now))) }
    ensures { area.new ≡ over (replies v log.now results.now from count) area.old }
{
    for k in 0..count {
        let i = from + k;
        let e = entries::entry_in(log, i);
        let o = fees::result_in(results, i);
        writers::write_reply(&mut area[36 * k..], v, e.client, e.request, o.code, o.total);
    }
}
