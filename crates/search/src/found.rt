// The entry that holds a key: for find, update and add, and for the check and the repair of the whole store.
ghost use Rattle.std.specs.Prelude.{◌≡◌, length, List, ℕ, MatchResult};
ghost use Rattle.std.proofs.Math.Option.{none, some};
ghost use Rattle.model.specs.declared.Error.{Error};
ghost use Rattle.model.specs.declared.Table.{Table};
ghost use Rattle.model.specs.Calls.{both, lookup};
ghost use Rattle.model.proofs.Soundness.{Sound};
ghost use Rattle.memory.specs.Chains.{rest};
ghost use Rattle.search.specs.Tables.{searched_in, Readable};
ghost use Rattle.search.specs.Found.{found_of, found_is, Inside};

use memory::chain::Chain;
use memory::entry::key_of;
use memory::state::bucket_index;
use model::{Error, State};

// Whether it is that entry.
#[tactic(auto, unfolding(crate::specs::Found::found_is))]
pub fn found_is(found: Result<Option<u32>, Error>, n: u32) -> bool
    ensures { result ≡ found_is found n }
{
    matches!(found, Ok(Some(m)) if m == n)
}

// Reads what is left of a chain, which must be sound to its end.
#[inline(always)]
fn read_to_end(chain: Chain) -> Result<(), Error>
    ensures { MatchResult result (λ _. (ns : List ℕ) × (rest chain.entry ≡ some ns))
        (λ e. (e ≡ Error.Damaged) × (rest chain.entry ≡ none)) }
{
    let mut left = chain;
    while let Some(_) = left.next()? {}
    Ok(())
}

// The key's entry in one table: the first with the key, on the chain of its bucket. The whole chain is read, which must be sound
// to its end. Behind the entry with the key a loop of its own reads on: one loop for both would have to ask at each entry whether
// the key was met before.
pub fn entry_in(
    entries: &[u32],
    capacity: u32,
    used: u32,
    buckets: &[u32],
    size: u32,
    key: u32,
) -> Result<Option<u32>, Error>
    requires { Readable size (length buckets.now) capacity (length entries.now) }
    ensures { (t : Table) → result ≡ found_of (searched_in entries.now capacity used buckets.now size key t) }
{
    let bucket = bucket_index(key, size);
    let mut chain = Chain {
        entries,
        capacity,
        size,
        bucket,
        at: buckets[bucket],
        budget: used,
    };
    while let Some(n) = chain.next()? {
        if key_of(entries, n) == key {
            read_to_end(chain)?;
            return Ok(Some(n));
        }
    }
    Ok(None)
}

// The key's entry in both tables, during a rehash.
pub fn entry_in_both(
    old: &[u32],
    new: &[u32],
    entries: &[u32],
    capacity: u32,
    old_used: u32,
    new_used: u32,
    old_size: u32,
    new_size: u32,
    key: u32,
) -> Result<Option<u32>, Error>
    requires old_readable { Readable old_size (length old.now) capacity (length entries.now) }
    requires new_readable { Readable new_size (length new.now) capacity (length entries.now) }
    ensures { result ≡ found_of (both
        (searched_in entries.now capacity old_used old.now old_size key Table.Old)
        (searched_in entries.now capacity new_used new.now new_size key Table.New)) }
{
    let in_old = entry_in(entries, capacity, old_used, old, old_size, key)?;
    let in_new = entry_in(entries, capacity, new_used, new, new_size, key)?;
    Ok(in_old.or(in_new))
}

// The key's entry in the live tables: in the only one, or in both during a rehash.
#[inline(always)]
pub fn find_entry(
    current: &[u32],
    other: &[u32],
    entries: &[u32],
    s: State,
    key: u32,
) -> Result<Option<u32>, Error>
    requires { Sound s (length current.now) (length other.now) (length entries.now) }
    ensures outcome { result ≡ found_of (lookup s current.now other.now entries.now key) }
    ensures inside { Inside result (length entries.now) }
{
    if s.rehashing {
        entry_in_both(
            current, other, entries, s.capacity, s.old_used, s.new_used, s.old_size, s.new_size,
            key,
        )
    } else {
        entry_in(entries, s.capacity, s.old_used, current, s.old_size, key)
    }
}
