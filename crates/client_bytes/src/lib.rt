// The client's record in a lent byte run of 54 bytes, for callers that aren't Rattle: read, written, and tested for bytes without meaning.
#![tactic(auto)]

ghost use Rattle.std.specs.Prelude.{◌≡◌, ◌≤◌, length, drop};
ghost use Rattle.numbers.specs.Numbers.{over};
ghost use Rattle.client_bytes.specs.Layout.{pending_of, encode_pending, record_of, record_ok, HoldsClient};

use client::Client;
use entries::Entry;

// What is pending, 33 bytes from byte 21 on: 0, or 1 and the entry.
fn pending_in(run: &[u8]) -> Option<Entry>
    requires { 54 ≤ length run.now }
    ensures { result ≡ pending_of (drop 21 run.now) }
{
    if numbers::read_u8(run, 21) == 0 {
        return None;
    }
    Some(entries::entry_at(run, 22))
}

// The record that the run holds.
pub fn read_client(run: &[u8]) -> Client
    requires { 54 ≤ length run.now }
    ensures { result ≡ record_of run.now }
{
    Client {
        n: numbers::read_u8(run, 0),
        id: numbers::read_u64(run, 1),
        view: numbers::read_view(run, 9),
        next: numbers::read_u64(run, 13),
        pending: pending_in(run),
    }
}

// That it is read back is told to whoever writes it.
fn write_pending(area: &mut [u8], p: Option<Entry>)
    requires { 33 ≤ length area.old }
    ensures { (area.new ≡ over (encode_pending p) area.old) × (pending_of (encode_pending p) ≡ p) }
{
    match p {
        None => numbers::fill(area, 33, 0),
        Some(entry) => {
            numbers::write_u8(area, 1);
            entries::write_entry(&mut area[1..], entry);
        }
    }
}

// The run holds the record.
pub fn write_client(run: &mut [u8], c: Client)
    requires { length run.old ≡ 54 }
    ensures { HoldsClient c run.new }
{
    numbers::write_u8(run, c.n);
    numbers::write_u64(&mut run[1..], c.id);
    numbers::write_u32(&mut run[9..], c.view.0);
    numbers::write_u64(&mut run[13..], c.next);
    write_pending(&mut run[21..], c.pending);
}

// Whether the run is one that holds a record: its length, and no byte without meaning.
pub fn client_ok(run: &[u8]) -> bool
    ensures { result ≡ record_ok run.now }
{
    if run.len() != 54 {
        return false;
    }
    numbers::read_u8(run, 21) <= 1
}
