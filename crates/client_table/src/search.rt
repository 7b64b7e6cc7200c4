// The search for a client's row, by halves.
// Kept: `partition_point` says nothing of rows that do not rise, and a caller may lend any.
ghost use Rattle.std.specs.Prelude.{◌≡◌, length};
ghost use Rattle.client_table.specs.Rows.{seek};
ghost use Rattle.client_table.specs.Found.{found_in, latest_of};

use crate::{Form, Found, Goal, Latest, Span};

// The first place, from `from` on, that isn't before the goal.
pub fn seek<F: Form>(table: &[F::Cell], n: usize, from: usize, goal: Goal) -> usize
    requires { F.Fits n (length table.now) }
    ensures { result ≡ seek F.shape from goal (F.rows n table.now) }
{
    let mut s = Span { lo: from, hi: n };
    while s.lo < s.hi {
        let x = F::row_at(table, n, crate::middle(s));
        s = crate::halve(s, crate::before(F::is_used(x), F::client(x), goal));
    }
    s.lo
}

// The place of the client's row, and the row; or the place where it would go, and what stands there.
pub fn find<F: Form>(table: &[F::Cell], n: usize, client: u64) -> Found<F::Row>
    requires { F.Fits n (length table.now) }
    ensures { result ≡ found_in F.shape (F.rows n table.now) client }
{
    let at = seek::<F>(table, n, 0, Goal::Client { id: client });
    if n <= at {
        return Err((at, F::blank()));
    }
    let x = F::row_at(table, n, at);
    let none = Err((at, x));
    if !F::is_used(x) {
        return none;
    }
    if F::client(x) != client {
        return none;
    }
    Ok((at, x))
}

// What was found, as the core is told it.
pub fn told<F: Form>(f: Found<F::Row>) -> Latest
    ensures { result ≡ latest_of F.shape f }
{
    match f {
        Ok((_, x)) => F::held(x),
        Err(_) => Latest::Nothing,
    }
}
