// Readers that go from left to right: each begins at a place of a run, and answers the place where it stopped. That is behind its field where all of it is there and as it
// may be; else it is the place of the first byte that may not come, or the run's end.
#![tactic(auto)]

ghost use Rattle.std.specs.Prelude.{◌≡◌, ◌+◌, ◌^◌, ◌≤◌, ◌<◌, length, drop};
ghost use Rattle.offsets.specs.Rules.{end, reach, free, number_reach};

// n bytes, whatever they are.
pub fn free(s: &[u8], at: usize, n: usize) -> usize
    requires { at ≤ length s.now }
    ensures { result ≡ at + reach (free n end) (drop at s.now) }
{
    at + n.min(s.len() - at)
}

fn power(k: usize) -> u64
    requires { k < 8 }
    ensures { result ≡ 256 ^ k }
{
    1 << (8 * k)
}

// A number of n bytes, from low to high.
pub fn number(s: &[u8], at: usize, n: usize, low: u64, high: u64) -> usize
    requires { (at ≤ length s.now) × (n ≤ 8) }
    ensures { result ≡ at + number_reach n 0 low high (drop at s.now) }
{
    let mut x: u64 = 0;
    for i in 0..n {
        if s.len() - at <= i {
            return s.len();
        }
        x = x * 256 + s[at + i] as u64;
        let p = power(n - 1 - i);
        if !numbers::within(low / p, high / p, x) {
            return at + i;
        }
    }
    at + n
}
