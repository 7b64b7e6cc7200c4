// The client's functions on a record that is lent to them: each lends a local for the call, and hands back what stands in it then.
// Kept: a copy that is changed in each, since the functions of client_lent change what they are lent.
ghost use Rattle.std.specs.Prelude.{◌≡◌, length};
ghost use Rattle.client.specs.Client.{requested_of, requested_area, replied_of, idled_of, idled_area};

use client::{AfterReply, AfterRequest, Client, ClientRefusal};
use numbers::View;

// The answer: the bytes written.
#[derive(Clone, Copy)]
pub struct AfterIdle {
    pub client: Client,
    pub answer: Result<usize, ClientRefusal>,
}

pub fn request(c: Client, operation: u8, member: u32, cents: u64, area: &mut [u8]) -> AfterRequest
    ensures { (result ≡ requested_of c operation member cents (length area.old)) × (area.new ≡ requested_area c operation member cents area.old) }
{
    let mut client = c;
    let answer = client_lent::request(&mut client, operation, member, cents, area);
    AfterRequest { client, answer }
}

pub fn reply(c: Client, number: u64, view: View) -> AfterReply
    ensures { result ≡ replied_of c number view }
{
    let mut client = c;
    let answer = client_lent::reply(&mut client, number, view);
    AfterReply { client, answer }
}

// The record comes back as it was.
pub fn idle(c: Client, area: &mut [u8]) -> AfterIdle
    ensures { (result.answer ≡ idled_of c (length area.old)) × ((result.client ≡ c) × (area.new ≡ idled_area c area.old)) }
{
    let mut client = c;
    let answer = client_lent::idle(&mut client, area);
    AfterIdle { client, answer }
}
