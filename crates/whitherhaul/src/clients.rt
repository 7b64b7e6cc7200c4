// A client, whose record lies in a lent run of 54 bytes. A refused call leaves that run, like the area, as it was.
// Kept: numbers for refusals, answers in lent places, and runs one by one, since C has no Result and no slice in a struct: include/whitherhaul.h.
ghost use Rattle.std.specs.Prelude.{◌≡◌};
ghost use Rattle.client.specs.Replies.{reply_ok};
ghost use Rattle.offsets.specs.Offsets.{Points};
ghost use Rattle.whitherhaul.specs.Clients.{ClientCreateRan, RequestRan, ReplyRan, client_idle_run, read_run};

use client::ClientRefusal;
use numbers::View;

// create
pub fn whitherhaul_client_create(n: u32, id: u64, held: &mut [u8]) -> u8
    ensures { ClientCreateRan n id held.old (record { code = result; run = held.new }) }
{
    if held.len() != 54 {
        return u8::from(ClientRefusal::OutOfRange);
    }
    let after = client::create(n, id);
    match after.answer {
        Err(cause) => u8::from(cause),
        Ok(()) => {
            client_bytes::write_client(held, after.client);
            0
        }
    }
}

// on_request
pub fn whitherhaul_client_request(
    held: &mut [u8],
    operation: u8,
    member: u32,
    cents: u64,
    area: &mut [u8],
    answers: &mut [u64; 2],
) -> u8
    ensures { RequestRan held.old operation member cents area.old (record { code = result; answers = answers.new; run = held.new; area = area.new }) }
{
    *answers = [0, 0];
    if !client_bytes::client_ok(held) {
        return u8::from(ClientRefusal::OutOfRange);
    }
    let after = client::requested(
        client_bytes::read_client(held),
        operation,
        member,
        cents,
        area,
    );
    match after.answer {
        Err(cause) => u8::from(cause),
        Ok(sent) => {
            *answers = [sent.number, sent.written as u64];
            client_bytes::write_client(held, after.client);
            0
        }
    }
}

// on_reply
pub fn whitherhaul_client_reply(
    held: &mut [u8],
    number: u64,
    view: u32,
    answers: &mut [u64; 1],
) -> u8
    ensures { ReplyRan held.old number (record { 0 = view }) (record { code = result; answers = answers.new; run = held.new }) }
{
    *answers = [0];
    if !client_bytes::client_ok(held) {
        return u8::from(ClientRefusal::OutOfRange);
    }
    let after = client::replied(client_bytes::read_client(held), number, View(view));
    match after.answer {
        Err(cause) => u8::from(cause),
        Ok(done) => {
            *answers = [done as u64];
            client_bytes::write_client(held, after.client);
            0
        }
    }
}

// on_idle
pub fn whitherhaul_client_idle(held: &[u8], area: &mut [u8], answers: &mut [u64; 1]) -> u8
    ensures { (record { code = result; answers = answers.new; area = area.new }) ≡ client_idle_run held.now area.old }
{
    *answers = [0];
    if !client_bytes::client_ok(held) {
        return u8::from(ClientRefusal::OutOfRange);
    }
    match client::idled(client_bytes::read_client(held), area) {
        Err(cause) => u8::from(cause),
        Ok(written) => {
            *answers = [written as u64];
            0
        }
    }
}

// A Reply, read: view, client, request, outcome and total, or all are 0 where it is malformed; then the offset is that of its first wrong byte, else 0.
// Kept: the number 2 of a malformed frame, written out. It is the one cause here, and an enum of one variant would say no more than `Malformed`.
pub fn whitherhaul_read_reply(frame: &[u8], answers: &mut [u64; 5], offset: &mut u64) -> u8
    ensures { ((record { code = result; answers = answers.new }) ≡ read_run frame.now) × Points reply_ok frame.now result offset.new }
{
    *answers = [0, 0, 0, 0, 0];
    *offset = 0;
    match client::read_reply(frame) {
        Err(malformed) => {
            *offset = malformed.offset as u64;
            2
        }
        Ok(reply) => {
            *answers = [
                reply.view.0 as u64,
                reply.client,
                reply.request,
                u8::from(reply.outcome) as u64,
                reply.total,
            ];
            0
        }
    }
}
