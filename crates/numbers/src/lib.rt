// Big-endian numbers in byte runs; bytes copied and filled; view and op numbers.
#![tactic(auto)]

ghost use Rattle.std.specs.Prelude.{◌≡◌, ◌+◌, ◌≤◌, ◌<◌, ◌^◌, length, take, replicate};
ghost use Rattle.numbers.specs.Numbers.{num, big, within, over, view_at, op_at};

// A view number. It is never compared with an op number: the two count unlike things.
#[derive(Clone, Copy, PartialEq, Eq, PartialOrd, Ord, Debug)]
pub struct View(pub u32);

// An op or commit number.
#[derive(Clone, Copy, PartialEq, Eq, PartialOrd, Ord, Debug)]
pub struct Op(pub u32);

// Whether low ≤ x ≤ high.
pub fn within(low: u64, high: u64, x: u64) -> bool
    ensures { result ≡ within low high x }
{
    (low..=high).contains(&x)
}

// The k-byte number at place `at`.
pub fn read_be(s: &[u8], at: usize, k: usize) -> u64
    requires { (at + k ≤ length s.now) × (k ≤ 8) }
    ensures { (result ≡ num k at s.now) × (result < 256 ^ k) }
{
    let mut x: u64 = 0;
    for b in &s[at..at + k] {
        x = x * 256 + *b as u64;
    }
    x
}

pub fn read_u8(s: &[u8], at: usize) -> u8
    requires { at + 1 ≤ length s.now }
    ensures { result ≡ num 1 at s.now }
{
    s[at]
}

pub fn read_u16(s: &[u8], at: usize) -> u16
    requires { at + 2 ≤ length s.now }
    ensures { result ≡ num 2 at s.now }
{
    u16::from_be_bytes([s[at], s[at + 1]])
}

// A compiler makes one load of it.
pub fn read_u32(s: &[u8], at: usize) -> u32
    requires { at + 4 ≤ length s.now }
    ensures { result ≡ num 4 at s.now }
{
    u32::from_be_bytes([s[at], s[at + 1], s[at + 2], s[at + 3]])
}

// Likewise.
pub fn read_u64(s: &[u8], at: usize) -> u64
    requires { at + 8 ≤ length s.now }
    ensures { result ≡ num 8 at s.now }
{
    u64::from_be_bytes([
        s[at],
        s[at + 1],
        s[at + 2],
        s[at + 3],
        s[at + 4],
        s[at + 5],
        s[at + 6],
        s[at + 7],
    ])
}

pub fn read_view(s: &[u8], at: usize) -> View
    requires { at + 4 ≤ length s.now }
    ensures { result ≡ view_at at s.now }
{
    View(read_u32(s, at))
}

pub fn read_op(s: &[u8], at: usize) -> Op
    requires { at + 4 ≤ length s.now }
    ensures { result ≡ op_at at s.now }
{
    Op(read_u32(s, at))
}

// The k lowest bytes of x over the front of `area`.
pub fn write_be(area: &mut [u8], k: usize, x: u64)
    requires { k ≤ length area.old }
    ensures { area.new ≡ over (big k x) area.old }
{
    // Kept: an index, since an invariant over `iter_mut().rev()` can't say what the bytes passed hold.
    let mut y = x;
    for i in (0..k).rev() {
        area[i] = (y % 256) as u8;
        y /= 256;
    }
}

pub fn write_u8(area: &mut [u8], x: u8)
    requires { 1 ≤ length area.old }
    ensures { area.new ≡ over (big 1 x) area.old }
{
    area[0] = x;
}

pub fn write_u16(area: &mut [u8], x: u16)
    requires { 2 ≤ length area.old }
    ensures { area.new ≡ over (big 2 x) area.old }
{
    copy(area, &x.to_be_bytes(), 2);
}

pub fn write_u32(area: &mut [u8], x: u32)
    requires { 4 ≤ length area.old }
    ensures { area.new ≡ over (big 4 x) area.old }
{
    copy(area, &x.to_be_bytes(), 4);
}

pub fn write_u64(area: &mut [u8], x: u64)
    requires { 8 ≤ length area.old }
    ensures { area.new ≡ over (big 8 x) area.old }
{
    copy(area, &x.to_be_bytes(), 8);
}

// The first n bytes of `src` over the front of `area`.
pub fn copy(area: &mut [u8], src: &[u8], n: usize)
    requires { (n ≤ length area.old) × (n ≤ length src.now) }
    ensures { area.new ≡ over (take n src.now) area.old }
{
    // Kept: `copy_from_slice` calls `memmove`, and a dynamic linker that looks it up then takes 3 KB more of the caller's stack.
    for i in 0..n {
        area[i] = src[i];
    }
}

// n times the byte b over the front of `area`.
pub fn fill(area: &mut [u8], n: usize, b: u8)
    requires { n ≤ length area.old }
    ensures { area.new ≡ over (replicate n b) area.old }
{
    // Kept: `fill` of slices writes the last byte apart, which takes 1.4 times as long for 8 to 64 bytes.
    for x in &mut area[..n] {
        *x = b;
    }
}
