// A replica's calls for C.
// Kept: numbers for refusals, answers in lent places, and runs one by one, since C has no Result and no slice in a struct: include/whitherhaul.h.
ghost use Rattle.std.specs.Prelude.{◌≡◌, [], ◌∷◌};
ghost use Rattle.offsets.specs.Offsets.{Points};
ghost use Rattle.frames.specs.Kinds.{well_formed};
ghost use Rattle.whitherhaul.specs.Replicas.{CreateRan, RecoverRan, MessageRan, IdleRan, TakingsRan, told_as, Ends};
ghost use Rattle.replica.specs.Lent.{lent};

// new; the setup's numbers may be any
#[unsafe(no_mangle)]
pub extern "C" fn whitherhaul_create(
    n: u32,
    id: u32,
    timeout: u32,
    room: u32,
    members: u32,
    state: &mut [u8],
    log: &[u8],
    results: &[u8],
    totals: &mut [u8],
    acks: &mut [u8],
    stored: &[u8],
    table: &mut [u8],
) -> u8
    ensures { Ends (CreateRan (record { n = n; id = id; timeout = timeout; room = room; members = members }) state.old) result (0 ∷ 0 ∷ []) state.new
        (lent log.now results.now totals.old acks.old stored.now table.old [] [])
        (lent log.now results.now totals.new acks.new stored.now table.new [] []) }
{
    whitherhaul::replicas::whitherhaul_create(
        n, id, timeout, room, members, state, log, results, totals, acks, stored, table,
    )
}

// recover
#[unsafe(no_mangle)]
pub extern "C" fn whitherhaul_recover(
    n: u32,
    id: u32,
    timeout: u32,
    room: u32,
    members: u32,
    view: u32,
    nonce: u64,
    state: &mut [u8],
    log: &[u8],
    results: &[u8],
    totals: &mut [u8],
    acks: &mut [u8],
    stored: &[u8],
    table: &mut [u8],
    out: &mut [u8],
    counts: &mut [u64; 2],
) -> u8
    ensures { Ends (RecoverRan (record { n = n; id = id; timeout = timeout; room = room; members = members }) (record { 0 = view }) nonce state.old) result counts.new state.new
        (lent log.now results.now totals.old acks.old stored.now table.old out.old [])
        (lent log.now results.now totals.new acks.new stored.now table.new out.new []) }
{
    whitherhaul::replicas::whitherhaul_recover(
        n, id, timeout, room, members, view, nonce, state, log, results, totals, acks, stored,
        table, out, counts,
    )
}

// on_message, and with refusal 2 the offset of the frame's first wrong byte, else 0
#[unsafe(no_mangle)]
pub extern "C" fn whitherhaul_on_message(
    state: &mut [u8],
    frame: &[u8],
    log: &mut [u8],
    results: &mut [u8],
    totals: &mut [u8],
    acks: &mut [u8],
    stored: &mut [u8],
    table: &mut [u8],
    out: &mut [u8],
    reps: &mut [u8],
    counts: &mut [u64; 2],
    offset: &mut u64,
) -> u8
    ensures { Ends (MessageRan state.old frame.now) result counts.new state.new
        (lent log.old results.old totals.old acks.old stored.old table.old out.old reps.old)
        (lent log.new results.new totals.new acks.new stored.new table.new out.new reps.new) × Points well_formed frame.now result offset.new }
{
    whitherhaul::replicas::whitherhaul_on_message(
        state, frame, log, results, totals, acks, stored, table, out, reps, counts, offset,
    )
}

// on_idle
#[unsafe(no_mangle)]
pub extern "C" fn whitherhaul_on_idle(
    state: &mut [u8],
    log: &mut [u8],
    results: &mut [u8],
    totals: &mut [u8],
    acks: &mut [u8],
    stored: &mut [u8],
    table: &mut [u8],
    out: &mut [u8],
    reps: &mut [u8],
    counts: &mut [u64; 2],
) -> u8
    ensures { Ends (IdleRan state.old) result counts.new state.new (lent log.old results.old totals.old acks.old stored.old table.old out.old reps.old) (lent log.new results.new totals.new acks.new stored.new table.new out.new reps.new) }
{
    whitherhaul::replicas::whitherhaul_on_idle(
        state, log, results, totals, acks, stored, table, out, reps, counts,
    )
}

// takings: the sum over all members, 0 where it is refused
#[unsafe(no_mangle)]
pub extern "C" fn whitherhaul_takings(state: &[u8], cents: &mut u64) -> u8
    ensures { TakingsRan state.now (told_as result cents.new) }
{
    whitherhaul::replicas::whitherhaul_takings(state, cents)
}
