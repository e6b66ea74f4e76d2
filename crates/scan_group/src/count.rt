// How many entries the group of a walk call has. Every chain is tested here, before any is written. Chains with more
// entries than the limit, all together, are no more sound than one that loops.
ghost use Rattle.std.specs.Prelude.{◌≡◌};
ghost use Rattle.model.specs.Walk.{at_most};
ghost use Rattle.memory.specs.Length.{length_of};
ghost use Rattle.scan_group.specs.Chains.{chain_from, group_chains};

use crate::lent::{Entries, Group, LiveChain};
use memory::chain::chain_length;
use memory::state::bucket_index;
use model::Error;

// Those of one chain, of bucket b. It may have as many as its table holds keys, and is read no further than the limit.
fn count_chain(entries: Entries, chain: LiveChain, b: usize, limit: u32) -> Result<u32, Error>
    ensures { result ≡ length_of (at_most limit (chain_from entries.entry chain b)) }
{
    let budget = chain.used.min(limit);
    chain_length(
        entries.fields,
        entries.capacity,
        budget,
        chain.head,
        chain.size,
        b,
    )
}

impl Group<'_> {
    // However the chains loop, no more entries than the limit are read.
    pub fn count(self, limit: u32) -> Result<u32, Error>
        ensures { result ≡ length_of (at_most limit (group_chains self.entry)) }
    {
        let mut left = limit;
        let first = bucket_index(self.cursor, self.small.size);
        left -= count_chain(self.entries, self.small, first, left)?;
        for b in self.larger() {
            left -= count_chain(self.entries, self.large.chain(b), b, left)?;
        }
        Ok(limit - left)
    }
}
