// Which entries are held: those that find themselves when their own key is looked up.
ghost use Rattle.std.specs.Prelude.{◌≡◌, ◌-◌, ◌≤◌, ◌<◌, length};
ghost use Rattle.model.specs.Memory.{Place, chain_at, keys_held};
ghost use Rattle.model.proofs.Soundness.{Sound};
ghost use Rattle.model.specs.Verify.{finds_itself, counted, free_verified};
ghost use Rattle.verify.specs.Checked.{Searchable};

use crate::free::free_end;
use memory::entry::key_of;
use model::State;
use search::found::{entry_in, entry_in_both, found_is};

// Whether an entry is the first one with its key. It is told by its number alone, as find has it: the way to an entry would go
// through memory. The state's counts are no more than the budgets of the searches: the repair has the capacity in their place.
pub fn finds_itself(current: &[u32], other: &[u32], entries: &[u32], s: State, n: u32) -> bool
    requires searchable { Searchable s (length current.now) (length other.now) (length entries.now) }
    requires is_entry { (0 < n) × (n ≤ s.capacity) }
    ensures { result ≡ finds_itself s current.now other.now entries.now n }
{
    let key = key_of(entries, n);
    let found = if s.rehashing {
        entry_in_both(
            current, other, entries, s.capacity, s.old_used, s.new_used, s.old_size, s.new_size,
            key,
        )
    } else {
        entry_in(entries, s.capacity, s.old_used, current, s.old_size, key)
    };
    found_is(found, n)
}

// How many entries are held.
pub fn count_held(current: &[u32], other: &[u32], entries: &[u32], s: State) -> u32
    requires { Sound s (length current.now) (length other.now) (length entries.now) }
    ensures { result ≡ counted (finds_itself s current.now other.now entries.now) s.capacity }
{
    let mut count = 0;
    for n in 1..=s.capacity {
        count += u32::from(finds_itself(current, other, entries, s, n));
    }
    count
}

// Whether the free list has as many entries as are not held, and ends in one of those. A list that runs into a bucket's
// chain ends in the last entry of that chain.
pub fn free_verified(current: &[u32], other: &[u32], entries: &[u32], s: State) -> bool
    requires { Sound s (length current.now) (length other.now) (length entries.now) }
    ensures { result ≡ free_verified (finds_itself s current.now other.now entries.now)
        (s.capacity - keys_held s) (chain_at s current.now other.now entries.now Place.free) }
{
    let free = s.capacity - (s.old_used + s.new_used);
    match free_end(entries, s.capacity, free, s.free_head) {
        Ok(Some(last)) => !finds_itself(current, other, entries, s, last),
        Ok(None) => true,
        Err(_) => false,
    }
}
