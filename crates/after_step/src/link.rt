// An entry's link as it will be once a rehash step has moved a chain. In damaged memory the entry may lie on that very chain.
ghost use Rattle.std.specs.Prelude.{◌≡◌, true, ◌*◌, ◌≤◌, ◌<◌, length};
ghost use Rattle.model.specs.Limits.{legal_size};
ghost use Rattle.dict_rehash.specs.MovedChains.{chains, ChainOf};
ghost use Rattle.after_step.specs.Links.{LinkMoved};

use memory::entry::{key_of, link_of};
use memory::state::bucket_index;

// The link of entry n once the chain of that many entries has moved to a table of that size. The entries go to the heads of
// their buckets in turn, so entry n is linked to what then heads its own.
pub fn link_moved(buckets: &[u32], entries: &[u32], size: u32, head: u32, count: u32, n: u32) -> u32
    requires legal { (legal_size size ≡ true) × (size ≤ length buckets.now) }
    requires chain_of { ChainOf entries.now head count }
    requires is_entry { (0 < n) × (n * 3 ≤ length entries.now) }
    ensures { LinkMoved size head n result (chains buckets.now entries.now) }
{
    let own = bucket_index(key_of(entries, n), size);
    let mut link = buckets[own];
    let mut at = head;
    for _ in 0..count {
        if at == n {
            return link;
        }
        let b = bucket_index(key_of(entries, at), size);
        link = if b == own { at } else { link };
        at = link_of(entries, at);
    }
    link_of(entries, n)
}
