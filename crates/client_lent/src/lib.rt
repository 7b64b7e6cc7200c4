// The client's record, lent and changed in its place: thin functions over `&mut Client` that call the covered ones of `client` by value.
#![tactic(auto)]

ghost use Rattle.std.specs.Prelude.{◌≡◌, length};
ghost use Rattle.client.specs.Client.{Requests, replied_of, idled_of, idled_area};

use client::{Client, ClientRefusal, RequestSent};
use numbers::View;

// The Rust's `on_request`: the answer, the record behind the reference, and the area, are those of `client::requested`.
pub fn request(
    c: &mut Client,
    operation: u8,
    member: u32,
    cents: u64,
    area: &mut [u8],
) -> Result<RequestSent, ClientRefusal>
    ensures { Requests c.old operation member cents area.old result c.new area.new }
{
    let after = client::requested(*c, operation, member, cents, area);
    *c = after.client;
    after.answer
}

// The Rust's `on_reply`.
pub fn reply(c: &mut Client, number: u64, view: View) -> Result<bool, ClientRefusal>
    ensures { (result ≡ (replied_of c.old number view).answer) × (c.new ≡ (replied_of c.old number view).client) }
{
    let after = client::replied(*c, number, view);
    *c = after.client;
    after.answer
}

// The Rust's `on_idle`: the record is only read.
pub fn idle(c: &mut Client, area: &mut [u8]) -> Result<usize, ClientRefusal>
    ensures { (result ≡ idled_of c.old (length area.old)) × ((c.new ≡ c.old) × (area.new ≡ idled_area c.old area.old)) }
{
    client::idled(*c, area)
}
