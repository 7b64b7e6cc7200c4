// A replica, whose state lies in a lent run of 154 bytes. A refused call leaves that run, like all else, as it was.
// Kept: numbers for refusals, answers in lent places, and runs one by one, since C has no Result and no slice in a struct: include/whitherhaul.h.
ghost use Rattle.std.specs.Prelude.{◌≡◌, true, [], ◌∷◌, length};
ghost use Rattle.offsets.specs.Offsets.{Points};
ghost use Rattle.frames.specs.Kinds.{well_formed};
ghost use Rattle.state_bytes.specs.Layout.{state_of, Onward, Clocked, state_ok, is_quiet};
ghost use Rattle.whitherhaul.specs.Replicas.{KeptIn, may_be_usual, CreateRan, RecoverRan, MessageRan, IdleRan, TakingsRan, told_as, Ends};
ghost use Rattle.replica.specs.Lent.{lent};

use numbers::View;
use state::Returned;

// The state after a call that wasn't refused; a refused one leaves the run as it was.
fn keep(a: Returned, state: &mut [u8]) -> u8
    requires { length state.old ≡ 154 }
    ensures { KeptIn a state.old state.new result }
{
    match a.outcome {
        Err(refusal) => u8::from(refusal),
        Ok(_) => {
            state_bytes::write_state(state, a.state);
            0
        }
    }
}

// The same of an answer that is further on in the view of the state that the run holds.
fn keep_onward(a: Returned, state: &mut [u8]) -> u8
    requires { (state_ok state.old ≡ true) × Onward (state_of state.old) a.state }
    ensures { KeptIn a state.old state.new result }
{
    match a.outcome {
        Err(refusal) => u8::from(refusal),
        Ok(_) => {
            state_bytes::write_onward(state, a.state);
            0
        }
    }
}

// And of one that has another clock only.
fn keep_clocked(a: Returned, state: &mut [u8]) -> u8
    requires { (state_ok state.old ≡ true) × Clocked (state_of state.old) a.state }
    ensures { KeptIn a state.old state.new result }
{
    match a.outcome {
        Err(refusal) => u8::from(refusal),
        Ok(_) => {
            state_bytes::write_clocked(state, a.state);
            0
        }
    }
}

// new. The setup's numbers may be any: those outside the sizes are refused before they are put into the setup's fields.
pub fn whitherhaul_create(
    n: u32,
    id: u32,
    timeout: u32,
    room: u32,
    members: u32,
    state: &mut [u8],
    log: &[u8],
    results: &[u8],
    totals: &mut [u8],
    acks: &mut [u8],
    stored: &[u8],
    table: &mut [u8],
) -> u8
    ensures { Ends (CreateRan (record { n = n; id = id; timeout = timeout; room = room; members = members }) state.old) result (0 ∷ 0 ∷ []) state.new
        (lent log.now results.now totals.old acks.old stored.now table.old [] [])
        (lent log.now results.now totals.new acks.new stored.now table.new [] []) }
{
    if state.len() != 154 {
        return 1;
    }
    if !config::sizes_ok(n, id, timeout, room, members) {
        return 1;
    }
    let u = config::setup_of(n, id, timeout, room, members);
    keep(
        replica::create::create(u, log, results, totals, acks, stored, table),
        state,
    )
}

// recover
pub fn whitherhaul_recover(
    n: u32,
    id: u32,
    timeout: u32,
    room: u32,
    members: u32,
    view: u32,
    nonce: u64,
    state: &mut [u8],
    log: &[u8],
    results: &[u8],
    totals: &mut [u8],
    acks: &mut [u8],
    stored: &[u8],
    table: &mut [u8],
    out: &mut [u8],
    counts: &mut [u64; 2],
) -> u8
    ensures { Ends (RecoverRan (record { n = n; id = id; timeout = timeout; room = room; members = members }) (record { 0 = view }) nonce state.old) result counts.new state.new
        (lent log.now results.now totals.old acks.old stored.now table.old out.old [])
        (lent log.now results.now totals.new acks.new stored.now table.new out.new []) }
{
    *counts = [0, 0];
    if state.len() != 154 {
        return 1;
    }
    if !config::sizes_ok(n, id, timeout, room, members) {
        return 1;
    }
    let u = config::setup_of(n, id, timeout, room, members);
    let a = replica::create::recover(
        u,
        View(view),
        nonce,
        log,
        results,
        totals,
        acks,
        stored,
        table,
        out,
    );
    *counts = [a.messages() as u64, a.replies() as u64];
    keep(a, state)
}

// A frame, whatever it is: all of the next state is written.
fn message_whole(
    state: &mut [u8],
    frame: &[u8],
    log: &mut [u8],
    results: &mut [u8],
    totals: &mut [u8],
    acks: &mut [u8],
    stored: &mut [u8],
    table: &mut [u8],
    out: &mut [u8],
    reps: &mut [u8],
    counts: &mut [u64; 2],
    offset: &mut u64,
) -> u8
    requires { state_ok state.old ≡ true }
    ensures { Ends (MessageRan state.old frame.now) result counts.new state.new
        (lent log.old results.old totals.old acks.old stored.old table.old out.old reps.old)
        (lent log.new results.new totals.new acks.new stored.new table.new out.new reps.new) × Points well_formed frame.now result offset.new }
{
    let a = replica::call::on_message(
        state_bytes::read_state(state),
        frame,
        log,
        results,
        totals,
        acks,
        stored,
        table,
        out,
        reps,
    );
    *offset = a.offset() as u64;
    *counts = [a.messages() as u64, a.replies() as u64];
    keep(a, state)
}

// A frame that may be a usual one: the reports aren't read, and of the next state only that part is written which a usual call changes.
fn message_usual(
    state: &mut [u8],
    frame: &[u8],
    log: &mut [u8],
    results: &mut [u8],
    totals: &mut [u8],
    acks: &mut [u8],
    stored: &mut [u8],
    table: &mut [u8],
    out: &mut [u8],
    reps: &mut [u8],
    counts: &mut [u64; 2],
    offset: &mut u64,
) -> u8
    requires { (state_ok state.old ≡ true) × (is_quiet state.old ≡ true) }
    ensures { Ends (MessageRan state.old frame.now) result counts.new state.new
        (lent log.old results.old totals.old acks.old stored.old table.old out.old reps.old)
        (lent log.new results.new totals.new acks.new stored.new table.new out.new reps.new) × Points well_formed frame.now result offset.new }
{
    let s = state_bytes::read_quiet(state);
    if !usual::is_usual(s, frame) {
        return message_whole(
            state, frame, log, results, totals, acks, stored, table, out, reps, counts, offset,
        );
    }
    let a = replica::call::on_message(
        s, frame, log, results, totals, acks, stored, table, out, reps,
    );
    *offset = a.offset() as u64;
    *counts = [a.messages() as u64, a.replies() as u64];
    keep_onward(a, state)
}

// Whether a frame may be a usual one: it names a kind, and no report is there.
fn may_be_usual(quiet: bool, frame: &[u8]) -> bool
    ensures { result ≡ may_be_usual quiet frame.now }
{
    if frame.len() < 7 {
        return false;
    }
    quiet
}

// on_message, and with refusal 2 the offset of the frame's first wrong byte, else 0. The same call stands once for each kind of a usual frame, and nothing is written between the look at the kind and the call: so the compiler makes of each the code of that kind alone.
pub fn whitherhaul_on_message(
    state: &mut [u8],
    frame: &[u8],
    log: &mut [u8],
    results: &mut [u8],
    totals: &mut [u8],
    acks: &mut [u8],
    stored: &mut [u8],
    table: &mut [u8],
    out: &mut [u8],
    reps: &mut [u8],
    counts: &mut [u64; 2],
    offset: &mut u64,
) -> u8
    ensures { Ends (MessageRan state.old frame.now) result counts.new state.new
        (lent log.old results.old totals.old acks.old stored.old table.old out.old reps.old)
        (lent log.new results.new totals.new acks.new stored.new table.new out.new reps.new) × Points well_formed frame.now result offset.new }
{
    *counts = [0, 0];
    *offset = 0;
    let Some(look) = state_bytes::look_over(state) else {
        return 1;
    };
    if !may_be_usual(look.is_quiet(), frame) {
        return message_whole(
            state, frame, log, results, totals, acks, stored, table, out, reps, counts, offset,
        );
    }
    match frames::kind_of(frame) {
        1 => message_usual(
            state, frame, log, results, totals, acks, stored, table, out, reps, counts, offset,
        ),
        2 => message_usual(
            state, frame, log, results, totals, acks, stored, table, out, reps, counts, offset,
        ),
        3 => message_usual(
            state, frame, log, results, totals, acks, stored, table, out, reps, counts, offset,
        ),
        4 => message_usual(
            state, frame, log, results, totals, acks, stored, table, out, reps, counts, offset,
        ),
        10 => message_usual(
            state, frame, log, results, totals, acks, stored, table, out, reps, counts, offset,
        ),
        _ => message_whole(
            state, frame, log, results, totals, acks, stored, table, out, reps, counts, offset,
        ),
    }
}

// A tick, whatever it does: all of the next state is written.
fn tick_whole(
    state: &mut [u8],
    log: &mut [u8],
    results: &mut [u8],
    totals: &mut [u8],
    acks: &mut [u8],
    stored: &mut [u8],
    table: &mut [u8],
    out: &mut [u8],
    reps: &mut [u8],
    counts: &mut [u64; 2],
) -> u8
    requires { state_ok state.old ≡ true }
    ensures { Ends (IdleRan state.old) result counts.new state.new (lent log.old results.old totals.old acks.old stored.old table.old out.old reps.old) (lent log.new results.new totals.new acks.new stored.new table.new out.new reps.new) }
{
    let a = replica::call::on_idle(
        state_bytes::read_state(state),
        log,
        results,
        totals,
        acks,
        stored,
        table,
        out,
        reps,
    );
    *counts = [a.messages() as u64, a.replies() as u64];
    keep(a, state)
}

// A tick where no report is there: of a Normal primary's next state only the clock is written.
fn tick_usual(
    state: &mut [u8],
    log: &mut [u8],
    results: &mut [u8],
    totals: &mut [u8],
    acks: &mut [u8],
    stored: &mut [u8],
    table: &mut [u8],
    out: &mut [u8],
    reps: &mut [u8],
    counts: &mut [u64; 2],
) -> u8
    requires { (state_ok state.old ≡ true) × (is_quiet state.old ≡ true) }
    ensures { Ends (IdleRan state.old) result counts.new state.new (lent log.old results.old totals.old acks.old stored.old table.old out.old reps.old) (lent log.new results.new totals.new acks.new stored.new table.new out.new reps.new) }
{
    let s = state_bytes::read_quiet(state);
    if !usual::is_leading(s) {
        return tick_whole(
            state, log, results, totals, acks, stored, table, out, reps, counts,
        );
    }
    let a = replica::call::on_idle(s, log, results, totals, acks, stored, table, out, reps);
    *counts = [a.messages() as u64, a.replies() as u64];
    keep_clocked(a, state)
}

// on_idle
pub fn whitherhaul_on_idle(
    state: &mut [u8],
    log: &mut [u8],
    results: &mut [u8],
    totals: &mut [u8],
    acks: &mut [u8],
    stored: &mut [u8],
    table: &mut [u8],
    out: &mut [u8],
    reps: &mut [u8],
    counts: &mut [u64; 2],
) -> u8
    ensures { Ends (IdleRan state.old) result counts.new state.new (lent log.old results.old totals.old acks.old stored.old table.old out.old reps.old) (lent log.new results.new totals.new acks.new stored.new table.new out.new reps.new) }
{
    *counts = [0, 0];
    let Some(look) = state_bytes::look_over(state) else {
        return 1;
    };
    if look.is_quiet() {
        return tick_usual(
            state, log, results, totals, acks, stored, table, out, reps, counts,
        );
    }
    tick_whole(
        state, log, results, totals, acks, stored, table, out, reps, counts,
    )
}

// takings: the sum over all members, 0 where it is refused. Nothing is written but the answer.
pub fn whitherhaul_takings(state: &[u8], cents: &mut u64) -> u8
    ensures { TakingsRan state.now (told_as result cents.new) }
{
    *cents = 0;
    let Some(_) = state_bytes::look_over(state) else {
        return 1;
    };
    match replica::call::takings(state_bytes::read_state(state)) {
        Ok(sum) => {
            *cents = sum;
            0
        }
        Err(refusal) => u8::from(refusal),
    }
}
