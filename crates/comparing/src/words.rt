// A line's words, parted by one space: numbers, and byte runs in hexadecimal, `-` where empty.
ghost use Rattle.std.specs.Prelude.{◌≡◌, ◌+◌, ◌*◌, ◌/◌, ◌%◌, ◌^◌, ◌<◌, ◌≤◌, true, false, [], ◌∷◌, length};
ghost use Rattle.numbers.specs.Numbers.{over};
ghost use Rattle.comparing.specs.Text.{place_of, times_in, behind_word, word_start, first_word, word_at, digit_of, base_of, with_digit, number_after, number_at, hex_digit, hex_text, run_text, same_bytes, byte_at, bytes_in, lesser_of};

// The first place of a byte, or the length.
pub fn find(s: &[u8], b: u8) -> usize
    ensures { (result ≡ place_of b s.now) × (result ≤ length s.now) }
{
    s.iter().take_while(|x| **x != b).count()
}

// How often a byte is there.
pub fn count(s: &[u8], b: u8) -> usize
    ensures { result ≡ times_in b s.now }
{
    s.iter().filter(|x| **x == b).count()
}

// Behind the space that ends the word at a place.
fn behind(s: &[u8], at: usize) -> usize
    requires { at ≤ length s.now }
    ensures { (result ≡ behind_word s.now at) × (result ≤ length s.now) }
{
    let n = find(&s[at..], b' ');
    if s.len() - at <= n {
        return s.len();
    }
    at + n + 1
}

// Where word k begins, the first being word 0, or the length.
pub fn start(s: &[u8], k: usize) -> usize
    ensures { (result ≡ word_start k s.now) × (result ≤ length s.now) }
{
    let mut at = 0;
    for _ in 0..k {
        at = behind(s, at);
    }
    at
}

// Word k.
fn word(line: &[u8], k: usize) -> &[u8]
    ensures { result.now ≡ word_at k line.now }
{
    let rest = &line[start(line, k)..];
    &rest[..find(rest, b' ')]
}

// 16: no digit.
fn digit(c: u8) -> u8
    ensures { (result ≡ digit_of c) × (result ≤ 16) }
{
    match c {
        b'0'..=b'9' => c - b'0',
        b'a'..=b'f' => c - b'a' + 10,
        _ => 16,
    }
}

// The number with one digit more.
fn with_digit(x: u64, c: u8, hex: bool) -> u64
    ensures { result ≡ with_digit hex x c }
{
    let base = if hex { 16 } else { 10 };
    x.wrapping_mul(base).wrapping_add(u64::from(digit(c)))
}

fn number(w: &[u8], hex: bool) -> u64
    ensures { result ≡ number_after hex 0 w.now }
{
    w.iter().fold(0, |x, c| with_digit(x, *c, hex))
}

// Word k in decimal.
pub fn decimal(line: &[u8], k: usize) -> u64
    ensures { result ≡ number_at false k line.now }
{
    number(word(line, k), false)
}

// Word k in hexadecimal.
pub fn hexadecimal(line: &[u8], k: usize) -> u64
    ensures { result ≡ number_at true k line.now }
{
    number(word(line, k), true)
}

// Byte i of a run in hexadecimal.
fn byte(w: &[u8], i: usize) -> u8
    requires { 2 * i + 1 < length w.now }
    ensures { result ≡ byte_at w.now i }
{
    let high = digit(w[2 * i]);
    let low = digit(w[2 * i + 1]);
    high.wrapping_mul(16).wrapping_add(low)
}

// The bytes of a run over the front of an area, and how many they are.
fn decoded(w: &[u8], area: &mut [u8]) -> usize
    ensures { (result ≡ lesser_of (length w.now / 2) (length area.old)) × (area.new ≡ over (bytes_in result w.now) area.old) }
{
    let n = (w.len() / 2).min(area.len());
    for (i, b) in area[..n].iter_mut().enumerate() {
        *b = byte(w, i);
    }
    n
}

// The bytes of word k over the front of an area, and how many they are.
pub fn bytes(line: &[u8], k: usize, area: &mut [u8]) -> usize
    ensures { (result ≡ lesser_of (length (word_at k line.now) / 2) (length area.old)) × (area.new ≡ over (bytes_in result (word_at k line.now)) area.old) }
{
    decoded(word(line, k), area)
}

fn letter(d: u8) -> u8
    requires { d < 16 }
    ensures { result ≡ hex_digit d }
{
    match d {
        0..=9 => b'0' + d,
        _ => b'a' + d - 10,
    }
}

// Whether bytes of a run stand in hexadecimal in a word, two digits each.
fn same_text(w: &[u8], s: &[u8]) -> bool
    ensures { result ≡ same_bytes w.now (hex_text s.now) }
{
    if w.len() != 2 * s.len() {
        return false;
    }
    for (i, b) in s.iter().enumerate() {
        if w[2 * i] != letter(b / 16) {
            return false;
        }
        if w[2 * i + 1] != letter(b % 16) {
            return false;
        }
    }
    true
}

fn same_run(w: &[u8], s: &[u8]) -> bool
    ensures { result ≡ same_bytes w.now (run_text s.now) }
{
    if s.is_empty() {
        return w == b"-".as_slice();
    }
    same_text(w, s)
}

// Whether word k is these bytes.
pub fn same(line: &[u8], k: usize, s: &[u8]) -> bool
    ensures { result ≡ same_bytes (word_at k line.now) (run_text s.now) }
{
    same_run(word(line, k), s)
}
