// The fee rules on the totals of a group of 64 members, those from `low` on, which take 512 bytes: no call needs memory for all totals but the run that it is lent.
// The last group has those too who are no members.
ghost use Rattle.std.specs.Prelude.{◌≡◌, true, ◌≤◌, ◌<◌, length};
ghost use Rattle.fees.specs.Fees.{outcome_on, total_bytes_after};
ghost use Rattle.journal.specs.Steps.{group_size, in_group, group_entry};

use entries::Entry;
use fees::Outcome;

// Of so many members those from `low` on.
#[derive(Clone, Copy)]
pub struct Group {
    pub members: u32,
    pub low: u32,
    ghost begins: { low < members },
}

impl Group {
    // How many members it has.
    fn size(self) -> u32
        ensures { result ≡ group_size self.members self.low }
    {
        (self.members - self.low).min(64)
    }

    // Whether an entry of this member is taken with it.
    pub fn has(self, member: u32) -> bool
        ensures { result ≡ in_group self.members self.low member }
    {
        if member < self.low {
            return false;
        }
        if member - self.low < 64 {
            return true;
        }
        self.members - self.low <= 64
    }

    // An entry of its own on its totals.
    pub fn apply(self, totals: &mut [u8], e: Entry) -> Outcome
        requires own { in_group self.members self.low e.member ≡ true }
        requires room { 512 ≤ length totals.old }
        ensures outcome { result ≡ outcome_on (group_size self.members self.low) totals.old (group_entry self.low e) }
        ensures totals { totals.new ≡ total_bytes_after (group_size self.members self.low) totals.old (group_entry self.low e) }
    {
        let as_there = Entry {
            member: e.member - self.low,
            ..e
        };
        fees::apply(totals, self.size(), as_there)
    }
}
