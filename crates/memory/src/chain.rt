// Reading a bucket's chain without trusting it: every number met is tested before its entry is read, every key must belong
// in the bucket, and the budget ends a loop.
ghost use Rattle.std.specs.Prelude.{◌≡◌, ◌*◌, ◌≤◌, true, length};
ghost use Rattle.model.specs.Limits.{legal_size};
ghost use Rattle.model.specs.Memory.{chain, in_bucket};
ghost use Rattle.memory.specs.Length.{length_of};

use crate::entry::{key_of, link_of};
use crate::state::bucket_index;
use model::Error;

// What is left to read of the chain of a bucket, in a table of that size.
#[derive(Clone, Copy)]
pub struct Chain<'a> {
    pub entries: &'a [u32],
    pub capacity: u32,
    pub size: u32,
    pub bucket: usize,
    // The next entry, 0 at the end.
    pub at: u32,
    // The most entries that there may be from here.
    pub budget: u32,
    pub ghost entries_fit: { capacity * 3 ≤ length entries.now },
    pub ghost size_legal: { legal_size size ≡ true },
}

impl<'a> Chain<'a> {
    ghost use Rattle.std.specs.Prelude.{MatchResult, MatchOption};
    ghost use Rattle.std.proofs.Math.Option.{none};
    ghost use Rattle.model.specs.declared.Error.{Error};
    ghost use Rattle.memory.specs.Chains.{rest, AtEnd, Passed};

    // The next entry, if the chain goes on; damage, if it goes wrong here.
    #[inline(always)]
    pub fn next(&mut self) -> Result<Option<u32>, Error>
        ensures { MatchResult result
            (λ o. MatchOption o (AtEnd self.old) (λ n. Passed self.old n self.new))
            (λ e. (e ≡ Error.Damaged) × (rest self.old ≡ none)) }
    {
        let n = self.at;
        if n == 0 {
            return Ok(None);
        }
        if (self.budget == 0) | (self.capacity < n) {
            return Err(Error::Damaged);
        }
        if bucket_index(key_of(self.entries, n), self.size) != self.bucket {
            return Err(Error::Damaged);
        }
        self.at = link_of(self.entries, n);
        self.budget -= 1;
        Ok(Some(n))
    }
}

// How many entries the chain of bucket b has in a table of that size; one that is not sound is damage.
pub fn chain_length(
    entries: &[u32],
    capacity: u32,
    budget: u32,
    head: u32,
    size: u32,
    b: usize,
) -> Result<u32, Error>
    requires entries_fit { capacity * 3 ≤ length entries.now }
    requires legal { legal_size size ≡ true }
    ensures { result ≡ length_of (chain (in_bucket size b) entries.now capacity budget head) }
{
    let mut chain = Chain {
        entries,
        capacity,
        size,
        bucket: b,
        at: head,
        budget,
    };
    let mut count = 0;
    while let Some(_) = chain.next()? {
        count += 1;
    }
    Ok(count)
}
