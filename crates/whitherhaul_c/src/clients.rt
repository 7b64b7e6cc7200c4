// A client's calls for C.
// Kept: numbers for refusals, answers in lent places, and runs one by one, since C has no Result and no slice in a struct: include/whitherhaul.h.
ghost use Rattle.std.specs.Prelude.{◌≡◌};
ghost use Rattle.client.specs.Replies.{reply_ok};
ghost use Rattle.offsets.specs.Offsets.{Points};
ghost use Rattle.whitherhaul.specs.Clients.{ClientCreateRan, RequestRan, ReplyRan, client_idle_run, read_run};

// create
#[unsafe(no_mangle)]
pub extern "C" fn whitherhaul_client_create(n: u32, id: u64, held: &mut [u8]) -> u8
    ensures { ClientCreateRan n id held.old (record { code = result; run = held.new }) }
{
    whitherhaul::clients::whitherhaul_client_create(n, id, held)
}

// on_request
#[unsafe(no_mangle)]
pub extern "C" fn whitherhaul_client_request(
    held: &mut [u8],
    operation: u8,
    member: u32,
    cents: u64,
    area: &mut [u8],
    answers: &mut [u64; 2],
) -> u8
    ensures { RequestRan held.old operation member cents area.old (record { code = result; answers = answers.new; run = held.new; area = area.new }) }
{
    whitherhaul::clients::whitherhaul_client_request(held, operation, member, cents, area, answers)
}

// on_reply
#[unsafe(no_mangle)]
pub extern "C" fn whitherhaul_client_reply(
    held: &mut [u8],
    number: u64,
    view: u32,
    answers: &mut [u64; 1],
) -> u8
    ensures { ReplyRan held.old number (record { 0 = view }) (record { code = result; answers = answers.new; run = held.new }) }
{
    whitherhaul::clients::whitherhaul_client_reply(held, number, view, answers)
}

// on_idle
#[unsafe(no_mangle)]
pub extern "C" fn whitherhaul_client_idle(
    held: &[u8],
    area: &mut [u8],
    answers: &mut [u64; 1],
) -> u8
    ensures { (record { code = result; answers = answers.new; area = area.new }) ≡ client_idle_run held.now area.old }
{
    whitherhaul::clients::whitherhaul_client_idle(held, area, answers)
}

// A Reply, read: view, client, request, outcome and total, or all are 0 where it is malformed; then the offset is that of its first wrong byte, else 0.
#[unsafe(no_mangle)]
pub extern "C" fn whitherhaul_read_reply(
    frame: &[u8],
    answers: &mut [u64; 5],
    offset: &mut u64,
) -> u8
    ensures { ((record { code = result; answers = answers.new }) ≡ read_run frame.now) × Points reply_ok frame.now result offset.new }
{
    whitherhaul::clients::whitherhaul_read_reply(frame, answers, offset)
}
