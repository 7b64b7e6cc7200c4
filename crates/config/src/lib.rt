// The setup and its sizes, who leads a view, and sets of replicas as bits.
#![tactic(auto)]

ghost use Rattle.std.specs.Prelude.{◌≡◌, true, ◌<◌, eqb};
ghost use Rattle.config.specs.Setup.{replicas_ok, timeout_ok, room_ok, setup_ok, primary_of};
ghost use Rattle.config.specs.Replicas.{bit, with_member, with_another, count_below, quorum_of};

use numbers::View;

// What is chosen at creation: n replicas, the own id, `primary_timeout` T, log room L and members M.
#[derive(Clone, Copy, PartialEq, Eq, Debug)]
pub struct Setup {
    pub n: u8,
    pub id: u8,
    pub timeout: u16,
    pub room: u32,
    pub members: u32,
}

// 3 to 7.
pub fn replicas_ok(n: u32) -> bool
    ensures { result ≡ replicas_ok n }
{
    numbers::within(3, 7, n as u64)
}

// 1 to 65,535.
fn timeout_ok(t: u32) -> bool
    ensures { result ≡ timeout_ok t }
{
    numbers::within(1, 65535, t as u64)
}

// 1 to 4,096.
fn room_ok(k: u32) -> bool
    ensures { result ≡ room_ok k }
{
    numbers::within(1, 4096, k as u64)
}

// Refusal 1 on five numbers as a caller names them, whatever they are: given exactly where this is false.
pub fn sizes_ok(n: u32, id: u32, timeout: u32, room: u32, members: u32) -> bool
    ensures { result ≡ setup_ok (record { n = n; id = id; timeout = timeout; room = room; members = members }) }
{
    if !replicas_ok(n) {
        return false;
    }
    if n <= id {
        return false;
    }
    if !timeout_ok(timeout) {
        return false;
    }
    if !room_ok(room) {
        return false;
    }
    room_ok(members)
}

// The setup of five numbers that passed.
pub fn setup_of(n: u32, id: u32, timeout: u32, room: u32, members: u32) -> Setup
    requires { setup_ok (record { n = n; id = id; timeout = timeout; room = room; members = members }) ≡ true }
    ensures { result ≡ record { n = n; id = id; timeout = timeout; room = room; members = members } }
{
    Setup {
        n: n as u8,
        id: id as u8,
        timeout: timeout as u16,
        room,
        members,
    }
}

// Refusal 1 on the setup: given exactly where this is false.
pub fn setup_ok(s: Setup) -> bool
    ensures { result ≡ setup_ok s }
{
    sizes_ok(s.n as u32, s.id as u32, s.timeout as u32, s.room, s.members)
}

// The replica that leads view v.
pub fn primary_id(n: u8, v: View) -> u8
    requires { 0 < n }
    ensures { (result ≡ primary_of n v) × (result < n) }
{
    (v.0 % (n as u32)) as u8
}

// More than half of n.
pub fn quorum(n: u8) -> u8
    ensures { result ≡ quorum_of n }
{
    n / 2 + 1
}

// The set with id in it.
pub fn insert(set: u8, id: u8) -> u8
    requires { id < 8 }
    ensures { result ≡ with_member set id }
{
    set | (1u8 << id)
}

// The set with id in it, unless that is our own.
pub fn insert_another(set: u8, own: u8, id: u8) -> u8
    requires { id < 8 }
    ensures { result ≡ with_another set own id }
{
    if id == own {
        return set;
    }
    insert(set, id)
}

// Whether id is in the set.
pub fn has(set: u8, id: u8) -> bool
    requires { id < 8 }
    ensures { result ≡ eqb (bit set id) 1 }
{
    (set >> id) % 2 == 1
}

// How many ids below n are in the set; no other bit counts.
pub fn count(n: u8, set: u8) -> u32
    requires { n < 8 }
    ensures { result ≡ count_below n set }
{
    u8::count_ones(set % (1u8 << n))
}
