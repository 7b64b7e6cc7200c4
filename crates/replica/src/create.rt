// Creation: `new`, and `recover` for a replica that is back from a crash; the client table is zeroed where it wasn't refused.
ghost use Rattle.std.specs.Prelude.{[]};
ghost use Rattle.replica.specs.Lent.{Keeps, lent};
ghost use Rattle.replica.specs.Promise.{CreatePromise, RecoverPromise};

use config::Setup;
use numbers::View;
use outside::Lengths;
use state::Returned;

// new: in Normal, in view 0, with an empty log. Refusal 1.
pub fn create(
    u: Setup,
    log: &[u8],
    results: &[u8],
    totals: &mut [u8],
    acks: &mut [u8],
    stored: &[u8],
    table: &mut [u8],
) -> Returned
    ensures { Keeps (CreatePromise u) result (lent log.now results.now totals.old acks.old stored.now table.old [] []) (lent log.now results.now totals.new acks.new stored.now table.new [] []) }
{
    let l = Lengths {
        log: log.len(),
        results: results.len(),
        totals: totals.len(),
        acks: acks.len(),
        stored: stored.len(),
        table: table.len(),
    };
    let a = outside::create::create(u, l, totals, acks);
    if a.outcome.is_err() {
        return a;
    }
    numbers::fill(table, 25 * (u.room as usize), 0);
    a
}

// recover: in Recovering, with the view that was persisted and a nonce that was never used; Recovery to all others. 1, then 9.
pub fn recover(
    u: Setup,
    v: View,
    nonce: u64,
    log: &[u8],
    results: &[u8],
    totals: &mut [u8],
    acks: &mut [u8],
    stored: &[u8],
    table: &mut [u8],
    out: &mut [u8],
) -> Returned
    ensures { Keeps (RecoverPromise u v nonce) result (lent log.now results.now totals.old acks.old stored.now table.old out.old []) (lent log.now results.now totals.new acks.new stored.now table.new out.new []) }
{
    let l = Lengths {
        log: log.len(),
        results: results.len(),
        totals: totals.len(),
        acks: acks.len(),
        stored: stored.len(),
        table: table.len(),
    };
    let a = outside::create::recover(u, v, nonce, l, totals, acks, out);
    if a.outcome.is_err() {
        return a;
    }
    numbers::fill(table, 25 * (u.room as usize), 0);
    a
}
