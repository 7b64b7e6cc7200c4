// FNV-1a digests of 64 bits.
ghost use Rattle.std.specs.Prelude.{◌≡◌, ◌+◌, ◌*◌, ◌%◌, ◌^◌};
ghost use Rattle.comparing.specs.Digests.{hashed, digest_after, part_at, offset_basis};

use crate::memory;

pub const EMPTY: u64 = 0xcbf29ce484222325;

const PRIME: u64 = 0x100000001b3;

// The digest with one byte more.
fn with_byte(h: u64, b: u8) -> u64
    ensures { result ≡ hashed h b }
{
    (h ^ u64::from(b)).wrapping_mul(PRIME)
}

// The digest with more bytes.
pub fn with_bytes(h: u64, s: &[u8]) -> u64
    ensures { result ≡ digest_after h s.now }
{
    s.iter().fold(h, |d, b| with_byte(d, *b))
}

// The digest with n bytes of a run, from a place on, where there are so many.
pub fn with_part(h: u64, s: &[u8], at: usize, n: usize) -> u64
    ensures { result ≡ digest_after h (part_at at n s.now) }
{
    match memory::part(s, at, n) {
        Some(part) => with_bytes(h, part),
        None => h,
    }
}
