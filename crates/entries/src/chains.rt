// Chains by which the entries of a client are found. Entries are numbered from 0 in the order in which they come. Those whose client ids have one remainder by 1,021
// make a chain, from the latest one back. 1,021 is a prime, so that ids that rise by a power of two get different remainders.
ghost use Rattle.std.specs.Prelude.{◌≡◌, ◌<◌};
ghost use Rattle.entries.specs.Chains.{entry_held, no_chains, latest_in_chain, earlier_in_chain, chained};

// `latest` has for each remainder one more than the latest entry's number, 0 where there is none; `earlier` has for each entry what `latest` held before it.
// `earlier` stands first, since a walk along a chain reads nothing else: its machine code is shorter by the distance that another field would put before it.
// Kept: two arrays, with room for the most entries that a log has: no heap. Two bytes a place, with no Option: clearing the places is what a short look takes.
#[derive(Drop)]
pub struct Chains {
    earlier: [u16; 4096],
    latest: [u16; 1021],
}

fn place(x: u16) -> Option<usize>
    ensures { result ≡ entry_held x }
{
    match x {
        0 => None,
        _ => Some(x as usize - 1),
    }
}

impl Chains {
    // No entry is in them.
    pub fn new() -> Chains
        ensures { result ≡ no_chains }
    {
        Chains {
            earlier: [0; 4096],
            latest: [0; 1021],
        }
    }

    // The latest entry of the client's chain.
    pub fn latest(&self, client: u64) -> Option<usize>
        ensures { result ≡ latest_in_chain client self.now }
    {
        place(self.latest[(client % 1021) as usize])
    }

    // The one before entry i in its chain.
    pub fn earlier(&self, i: usize) -> Option<usize>
        requires { i < 4096 }
        ensures { result ≡ earlier_in_chain i self.now }
    {
        place(self.earlier[i])
    }

    // Entry i, of this client, is the latest one of its chain.
    pub fn push(&mut self, i: usize, client: u64)
        requires { i < 4096 }
        ensures { self.new ≡ chained i client self.old }
    {
        let h = (client % 1021) as usize;
        self.earlier[i] = self.latest[h];
        self.latest[h] = (i + 1) as u16;
    }
}
