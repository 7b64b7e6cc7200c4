// A field at the front of what is left of a file: where it stands, how it ends, and what it says.
ghost use Rattle.std.specs.Prelude.{◌≡◌, [], get_or, ◌≤◌, ◌<◌, length};
ghost use Rattle.csv_table.specs.Table.{header_words};
ghost use Rattle.csv_table.specs.Fields.{stops, stretch, ending, ending_size, plain_field, quoted_field, field_at_front, row_op_in, kind_in, cents_in, header_in, sense, judged_field, field_told};

use crate::{Field, FieldEnd, FieldFault, FieldRead};

// Whether a byte ends the content of a field.
fn stops(b: u8) -> bool
    ensures { result ≡ stops b }
{
    match b {
        b'"' | b',' | b'\r' | b'\n' => true,
        _ => false,
    }
}

// How many bytes stand before the first such byte, or before the end.
fn stretch(s: &[u8]) -> usize
    ensures { result ≡ stretch s.now }
{
    for (i, b) in s.iter().enumerate() {
        if stops(*b) {
            return i;
        }
    }
    s.len()
}

// How a field ends behind which this stands.
fn ending(s: &[u8]) -> Option<FieldEnd>
    ensures { result ≡ ending s.now }
{
    match s {
        [] => Some(FieldEnd::File),
        [b',', ..] => Some(FieldEnd::Comma),
        [b'\r', b'\n', ..] => Some(FieldEnd::Line),
        _ => None,
    }
}

impl FieldEnd {
    // How many bytes it takes.
    fn size(self) -> usize
        ensures { (result ≡ ending_size self) × (result ≤ 2) }
    {
        match self {
            FieldEnd::Comma => 1,
            FieldEnd::Line => 2,
            FieldEnd::File => 0,
        }
    }
}

fn plain_field(s: &[u8]) -> Option<Field>
    ensures { result ≡ plain_field s.now }
{
    let size = stretch(s);
    let ends = ending(&s[size..])?;
    Some(Field {
        start: 0,
        size,
        used: size + ends.size(),
        ends,
    })
}

fn quoted_field(s: &[u8]) -> Option<Field>
    requires { 1 ≤ length s.now }
    ensures { result ≡ quoted_field s.now }
{
    let size = stretch(&s[1..]);
    if s.len() <= 1 + size {
        return None;
    }
    if s[1 + size] != b'"' {
        return None;
    }
    let ends = ending(&s[2 + size..])?;
    Some(Field {
        start: 1,
        size,
        used: 2 + size + ends.size(),
        ends,
    })
}

// The field at the front.
pub fn field(s: &[u8]) -> Option<Field>
    ensures { result ≡ field_at_front s.now }
{
    if s.is_empty() {
        return plain_field(s);
    }
    if s[0] == b'"' {
        return quoted_field(s);
    }
    plain_field(s)
}

// The op of row i.
fn op_in(t: &[u8], i: u64) -> Option<u64>
    ensures { result ≡ row_op_in i t.now }
{
    let n = decimal::read(t, i)?;
    (n == i).then_some(n)
}

// An operation's number, by its word.
fn kind_in(t: &[u8]) -> Option<u64>
    ensures { result ≡ kind_in t.now }
{
    if t == b"fee".as_slice() {
        return Some(1);
    }
    if t == b"refund".as_slice() {
        return Some(2);
    }
    if t == b"ask".as_slice() {
        return Some(3);
    }
    None
}

// Cents that the entry rules allow this operation.
fn cents_in(t: &[u8], operation: u8) -> Option<u64>
    ensures { result ≡ cents_in operation t.now }
{
    let n = decimal::read(t, 1_000_000)?;
    entries::operation_ok(operation, n).then_some(n)
}

// Word k of the header.
fn header_word(k: usize) -> &'static [u8]
    requires { k < 6 }
    ensures { result.now ≡ get_or header_words k [] }
{
    match k {
        0 => b"op",
        1 => b"client",
        2 => b"request",
        3 => b"kind",
        4 => b"member",
        _ => b"cents",
    }
}

// The header's field k, which says nothing but itself.
fn header_in(t: &[u8], k: usize) -> Option<u64>
    requires { k < 6 }
    ensures { result ≡ header_in k t.now }
{
    (t == header_word(k)).then_some(0)
}

// What a content says as field k of row i, whose operation is known from field 3 on.
fn sense(t: &[u8], i: u64, k: usize, operation: u8) -> Option<u64>
    requires { k < 6 }
    ensures { result ≡ sense i k operation t.now }
{
    if i == 0 {
        return header_in(t, k);
    }
    match k {
        0 => op_in(t, i),
        3 => kind_in(t),
        4 => decimal::read(t, u32::MAX as u64),
        5 => cents_in(t, operation),
        _ => decimal::read(t, u64::MAX),
    }
}

// A field that says this, judged by how it ends.
fn judged(last: bool, f: Field, value: u64) -> Result<FieldRead, FieldFault>
    ensures { result ≡ judged_field last f value }
{
    if last {
        if f.ends == FieldEnd::Comma {
            return Err(FieldFault::TooLong);
        }
    } else if f.ends != FieldEnd::Comma {
        return Err(FieldFault::TooShort);
    }
    Ok(FieldRead {
        value,
        used: f.used,
    })
}

// Field k of row i, at the front.
pub fn told(s: &[u8], i: u64, k: usize, operation: u8) -> Result<FieldRead, FieldFault>
    requires { k < 6 }
    ensures { result ≡ field_told i k operation s.now }
{
    let f = field(s).ok_or(FieldFault::Quotes)?;
    let content = &s[f.start..f.start + f.size];
    let value = sense(content, i, k, operation).ok_or(FieldFault::Value)?;
    judged(k == 5, f, value)
}
