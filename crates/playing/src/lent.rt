// The memory that a replica's calls are made in, with room for n = 7, L = 8 and M = 8: the runs at their places of `comparing::memory`, and the areas behind them.
ghost use Rattle.std.specs.Prelude.{◌≡◌, ◌*◌, length, take, drop, min, replicate};
ghost use Rattle.state.specs.Lengths.{stored_place};
ghost use Rattle.comparing.specs.Areas.{spoilt_to};
ghost use Rattle.comparing.specs.Digests.{digest_of};
ghost use Rattle.comparing.specs.declared.memory.TheConstants.{LOG, RESULTS, TOTALS, ACKS, TABLE, STORED};

use crate::AreaSizes;
use comparing::{digest, memory};
use config::Setup;

#[derive(Drop)]
pub struct CallMemory {
    pub runs: [u8; 2392],
    pub out: [u8; 8192],
    pub reps: [u8; 512],
}

// What one call is lent of it.
#[derive(Drop)]
pub struct CallRuns<'a> {
    pub log: &'a mut [u8],
    pub results: &'a mut [u8],
    pub totals: &'a mut [u8],
    pub acks: &'a mut [u8],
    pub table: &'a mut [u8],
    pub stored: &'a mut [u8],
    pub out: &'a mut [u8],
    pub reps: &'a mut [u8],
}

impl CallMemory {
    pub fn new() -> Self
        ensures { result ≡ record { runs = replicate 2392 0; out = replicate 8192 0; reps = replicate 512 0 } }
    {
        CallMemory {
            runs: [0; 2392],
            out: [0; 8192],
            reps: [0; 512],
        }
    }

    // A run begins in memory that isn't zero.
    pub fn spoil(&mut self)
        ensures { self.new ≡ record (self.old) { runs = spoilt_to 2392 self.old.runs } }
    {
        memory::spoil(&mut self.runs, 2392);
    }

    // The areas are spoilt, so that what a call has to leave alone shows; the digest of the runs before the call.
    pub fn before(&mut self, areas: AreaSizes) -> u64
        ensures digest { result ≡ digest_of self.old.runs }
        ensures spoilt { self.new ≡ record (self.old) { out = spoilt_to areas.messages self.old.out; reps = spoilt_to areas.replies self.old.reps } }
    {
        memory::spoil(&mut self.out, areas.messages);
        memory::spoil(&mut self.reps, areas.replies);
        digest::with_bytes(digest::EMPTY, &self.runs)
    }

    // Each run from its place on, of the setup's length as far as the memory goes: a creation with larger ones is only called where the setup is refused, whatever the lengths.
    pub fn lend(&mut self, u: Setup, areas: AreaSizes) -> CallRuns<'_>
        ensures by_room { (length result.log.now ≡ 32 * min u.room 8) × (length result.results.now ≡ 9 * min u.room 8) × (length result.acks.now ≡ min u.room 8) × (length result.table.now ≡ 25 * min u.room 8) }
        ensures by_members { length result.totals.now ≡ 8 * min u.members 8 }
        ensures logs { length result.stored.now ≡ min (stored_place (min u.room 8) (min u.n 7)) 1792 }
        ensures areas { (length result.out.now ≡ min areas.messages 8192) × (length result.reps.now ≡ min areas.replies 512) }
        ensures log_from { result.log.now ≡ take (32 * min u.room 8) (drop LOG self.old.runs) }
        ensures results_from { result.results.now ≡ take (9 * min u.room 8) (drop RESULTS self.old.runs) }
        ensures totals_from { result.totals.now ≡ take (8 * min u.members 8) (drop TOTALS self.old.runs) }
        ensures acks_from { result.acks.now ≡ take (min u.room 8) (drop ACKS self.old.runs) }
        ensures table_from { result.table.now ≡ take (25 * min u.room 8) (drop TABLE self.old.runs) }
        ensures stored_from { result.stored.now ≡ take (min (stored_place (min u.room 8) (min u.n 7)) 1792) (drop STORED self.old.runs) }
        ensures areas_from { (result.out.now ≡ take (min areas.messages 8192) self.old.out) × (result.reps.now ≡ take (min areas.replies 512) self.old.reps) }
    {
        let room = u.room.min(8);
        let l = room as usize;
        let m = u.members.min(8) as usize;
        let logs = reports::judge::place(room, u.n.min(7)).min(1792);
        let CallMemory { runs, out, reps } = self;
        let (rest, stored) = runs.split_at_mut(memory::STORED);
        let (rest, table) = rest.split_at_mut(memory::TABLE);
        let (rest, acks) = rest.split_at_mut(memory::ACKS);
        let (rest, totals) = rest.split_at_mut(memory::TOTALS);
        let (log, results) = rest.split_at_mut(memory::RESULTS);
        CallRuns {
            log: &mut log[..32 * l],
            results: &mut results[..9 * l],
            totals: &mut totals[..8 * m],
            acks: &mut acks[..l],
            table: &mut table[..25 * l],
            stored: &mut stored[..logs],
            out: &mut out[..areas.messages.min(8192)],
            reps: &mut reps[..areas.replies.min(512)],
        }
    }
}
