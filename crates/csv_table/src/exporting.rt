// Rows into an area, each straight after the one before it, with no quotes.
ghost use Rattle.std.specs.Prelude.{◌≡◌, [], ◌∷◌, ◌++◌, ◌+◌, ◌*◌, ◌/◌, ◌≤◌, ◌<◌, leb, length};
ghost use Rattle.numbers.specs.Numbers.{over, Wrote};
ghost use Rattle.entries.specs.Entries.{entries, run_count};
ghost use Rattle.decimal.specs.Decimal.{decimal};
ghost use Rattle.csv_table.specs.Rows.{comma};
ghost use Rattle.csv_table.specs.Table.{kind_word, entry_fields, plain_row, front_of, back_of, exported};

use entries::Entry;

const HEADER: [u8; 37] = *b"op,client,request,kind,member,cents\r\n";

// A number in decimal and a comma over the front of the area.
fn put_number(area: &mut [u8], x: u64) -> usize
    requires { length (decimal x) + 1 ≤ length area.old }
    ensures { Wrote (decimal x ++ comma ∷ []) area.old area.new result }
{
    let k = decimal::write(area, x);
    area[k] = 44;
    k + 1
}

// How many bytes the word of an operation has.
fn kind_size(operation: u8) -> usize
    ensures { (result ≡ length (kind_word operation)) × (result ≤ 6) }
{
    match operation {
        2 => 6,
        _ => 3,
    }
}

// The word of an operation and a comma.
fn put_kind(area: &mut [u8], operation: u8) -> usize
    requires { length (kind_word operation) + 1 ≤ length area.old }
    ensures { Wrote (kind_word operation ++ comma ∷ []) area.old area.new result }
{
    if operation == 1 {
        numbers::copy(area, b"fee,", 4);
        return 4;
    }
    if operation == 2 {
        numbers::copy(area, b"refund,", 7);
        return 7;
    }
    numbers::copy(area, b"ask,", 4);
    4
}

// A row's first three fields: op, client and request.
fn put_front(area: &mut [u8], op: u64, e: Entry) -> usize
    requires { length (front_of op e) ≤ length area.old }
    ensures { Wrote (front_of op e) area.old area.new result }
{
    let a = put_number(area, op);
    let b = a + put_number(&mut area[a..], e.client);
    b + put_number(&mut area[b..], e.request)
}

// Its last three, kind, member and cents, and CRLF.
fn put_back(area: &mut [u8], e: Entry) -> usize
    requires { length (back_of e) ≤ length area.old }
    ensures { Wrote (back_of e) area.old area.new result }
{
    let a = put_kind(area, e.operation);
    let b = a + put_number(&mut area[a..], e.member as u64);
    let c = b + decimal::write(&mut area[b..], e.cents);
    numbers::copy(&mut area[c..], b"\r\n", 2);
    c + 2
}

// A row.
fn put_row(area: &mut [u8], op: u64, e: Entry) -> usize
    requires { length (plain_row (entry_fields op e)) ≤ length area.old }
    ensures { Wrote (plain_row (entry_fields op e)) area.old area.new result }
{
    let a = put_front(area, op, e);
    a + put_back(&mut area[a..], e)
}

// How many bytes a row has.
fn row_size(op: u64, e: Entry) -> usize
    ensures { (result ≡ length (plain_row (entry_fields op e))) × (result ≤ 113) }
{
    let front = decimal::width(op) + decimal::width(e.client) + decimal::width(e.request);
    let back = kind_size(e.operation) + decimal::width(e.member as u64) + decimal::width(e.cents);
    front + back + 7
}

// Whether so many bytes hold the table of a run. No row has more than 113: where that much is there for each, none is measured.
pub fn fits(run: &[u8], room: usize) -> bool
    ensures { result ≡ leb (length (exported (entries (run_count run.now) run.now))) room }
{
    if room < 37 {
        return false;
    }
    let n = run.len() / 32;
    let mut left = room - 37;
    if n <= left / 113 {
        return true;
    }
    for i in 0..n {
        let size = row_size((i + 1) as u64, entries::entry_at(run, 32 * i));
        if left < size {
            return false;
        }
        left -= size;
    }
    true
}

// The table of a run of entries.
pub fn write_table(run: &[u8], area: &mut [u8]) -> usize
    requires { length (exported (entries (run_count run.now) run.now)) ≤ length area.old }
    ensures { Wrote (exported (entries (run_count run.now) run.now)) area.old area.new result }
{
    numbers::copy(area, &HEADER, 37);
    let n = run.len() / 32;
    let mut at: usize = 37;
    for i in 0..n {
        at += put_row(
            &mut area[at..],
            (i + 1) as u64,
            entries::entry_at(run, 32 * i),
        );
    }
    at
}
