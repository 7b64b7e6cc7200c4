// What a row says, and the rows of entries: all by value.
ghost use Rattle.std.specs.Prelude.{◌≡◌, true};
ghost use Rattle.client_table.specs.Latest.{latest_by};
ghost use Rattle.client_table_structs.specs.Shape.{unused_row, row_holding, is_used, reply_in};

use crate::{KeptReply, Row};
use client_table::Latest;
use entries::Entry;

// An unused row.
pub fn no_row() -> Row
    ensures { result ≡ unused_row }
{
    Row {
        client: 0,
        request: 0,
        reply: KeptReply::Unused,
    }
}

// The row of an entry.
pub fn row_holding(e: Entry, reply: KeptReply) -> Row
    ensures { result ≡ row_holding e reply }
{
    Row {
        client: e.client,
        request: e.request,
        reply,
    }
}

pub fn is_used(k: KeptReply) -> bool
    ensures { result ≡ is_used k }
{
    match k {
        KeptReply::Unused => false,
        KeptReply::Waiting => true,
        KeptReply::Kept { .. } => true,
    }
}

// What a row in use holds: its number, and its reply if it keeps one. An unused row, which is found for nobody, keeps none.
pub fn held_in(request: u64, k: KeptReply) -> Latest
    ensures { result ≡ latest_by true request (reply_in k) }
{
    match k {
        KeptReply::Unused => Latest::Waiting { request },
        KeptReply::Waiting => Latest::Waiting { request },
        KeptReply::Kept { code, total } => client_table::held(request, code, total),
    }
}
