// Numbers in decimal without leading zeros: read from a text, and written.
#![tactic(auto)]

ghost use Rattle.std.specs.Prelude.{◌≡◌, ◌≤◌, length};
ghost use Rattle.numbers.specs.Numbers.{Wrote};
ghost use Rattle.decimal.specs.Decimal.{decimal, leading_zero, number_in};

// Whether a 0 stands in front of other bytes.
fn leading_zero(s: &[u8]) -> bool
    ensures { result ≡ leading_zero s.now }
{
    if s.len() < 2 {
        return false;
    }
    s[0] == b'0'
}

// The number that the whole text is, where that is not above `most`.
pub fn read(s: &[u8], most: u64) -> Option<u64>
    ensures { result ≡ number_in most s.now }
{
    if s.is_empty() {
        return None;
    }
    if leading_zero(s) {
        return None;
    }
    let mut x: u64 = 0;
    for b in s {
        let d = b.checked_sub(b'0')?;
        if 9 < d {
            return None;
        }
        x = x.checked_mul(10)?.checked_add(u64::from(d))?;
    }
    (x <= most).then_some(x)
}

// How many figures a number has.
pub fn width(x: u64) -> usize
    ensures { (result ≡ length (decimal x)) × (result ≤ 20) }
{
    match x.checked_ilog10() {
        Some(k) => k as usize + 1,
        None => 1,
    }
}

// The number's figures over the front of the area, of which it has so many.
pub fn write(area: &mut [u8], x: u64) -> usize
    requires { length (decimal x) ≤ length area.old }
    ensures { Wrote (decimal x) area.old area.new result }
{
    let k = width(x);
    let mut y = x;
    for i in (1..k).rev() {
        area[i] = (48 + y % 10) as u8;
        y /= 10;
    }
    area[0] = (48 + y) as u8;
    k
}
