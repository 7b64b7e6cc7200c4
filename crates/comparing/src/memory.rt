// The lent runs but for the areas, one behind the other in one array, each with room for n = 7, L = 8 and M = 8; and bytes that a call has to leave alone.
ghost use Rattle.std.specs.Prelude.{◌≡◌, ◌+◌, ◌<◌, ◌≤◌, length, take, drop, MatchOption};
ghost use Rattle.comparing.specs.Areas.{fetched_at, stored_at, spoilt_to, all_spoilt, left_alone};

pub const LOG: usize = 0;

pub const RESULTS: usize = 256;

pub const TOTALS: usize = 328;

pub const ACKS: usize = 392;

pub const TABLE: usize = 400;

pub const STORED: usize = 600;

// What `spoil` writes, which no call writes by chance.
const SPOILT: u8 = 165;

// n bytes from a place on, where there are so many.
pub fn part(memory: &[u8], at: usize, n: usize) -> Option<&[u8]>
    ensures { MatchOption result (length memory.now < at + n) (λ p. (at + n ≤ length memory.now) × (p.now ≡ take n (drop at memory.now))) }
{
    memory.get(at..)?.get(..n)
}

// The run at a place, copied out.
pub fn fetch(memory: &[u8], at: usize, area: &mut [u8])
    ensures { area.new ≡ fetched_at at memory.now area.old }
{
    if let Some(run) = part(memory, at, area.len()) {
        area.copy_from_slice(run);
    }
}

// The run at a place, copied back.
pub fn store(memory: &mut [u8], at: usize, run: &[u8])
    ensures { memory.new ≡ stored_at at run.now memory.old }
{
    let end = at.saturating_add(run.len());
    if end <= memory.len() {
        memory[at..end].copy_from_slice(run);
    }
}

// n bytes set to what no call writes by chance, so that what it leaves alone shows.
pub fn spoil(area: &mut [u8], n: usize)
    ensures { area.new ≡ spoilt_to n area.old }
{
    if n <= area.len() {
        area[..n].fill(SPOILT);
    }
}

fn spoilt(s: &[u8]) -> bool
    ensures { result ≡ all_spoilt s.now }
{
    s.iter().all(|b| *b == SPOILT)
}

// Whether the bytes from one place to another are still as `spoil` left them.
pub fn untouched(area: &[u8], from: usize, to: usize) -> bool
    ensures { result ≡ left_alone from to area.now }
{
    match area.get(from..to) {
        Some(left) => spoilt(left),
        None => false,
    }
}
