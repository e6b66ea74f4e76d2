// The first free entry: whether an add may take it, the entry pushed, and the key counted.
ghost use Rattle.std.specs.Prelude.{◌≡◌, ◌≢◌, ◌<◌, ◌≤◌, false, cond, leb, List, ℕ, length, get_or, set, MatchResult, OnOk, OnErr, Ok, Err};
ghost use Rattle.model.specs.declared.Error.TheVariants as why;
ghost use Rattle.model.specs.Keys.{bucket_of};
ghost use Rattle.model.specs.Memory.{set_entry, keys_held};
ghost use Rattle.model.specs.Calls as calls;
ghost use Rattle.model.proofs.Soundness.{Counted};
ghost use Rattle.search.specs.Tables.{Readable};
ghost use Rattle.during_rehash.specs.Counts.{one_more};
ghost use Rattle.during_rehash.specs.Free.{next_free};

use memory::entry::{link_of, set_entry};
use memory::state::bucket_index;
use model::{Error, State};

// Whether there is an entry for a key: one that is not held, in a store that is not full. The refusals come in the order of the
// answers.
#[tactic(auto, unfolding(crate::specs::Free::next_free, model::specs::Memory::keys_held, model::specs::Calls::takeable))]
pub(crate) fn require_room(s: State, held: bool) -> Result<(), Error>
    ensures { MatchResult result
        (λ _. (held ≡ false) × (keys_held s ≢ s.capacity) × (0 < s.free_head))
        (λ e. (entries : List ℕ) → Err e ≡ next_free s held entries) }
{
    if held {
        return Err(Error::Present);
    }
    if s.old_used as u64 + s.new_used as u64 == s.capacity as u64 {
        return Err(Error::Full);
    }
    if s.free_head == 0 {
        return Err(Error::Damaged);
    }
    Ok(())
}

// The link of the first free entry, which is the free list's next head: none is out of range.
pub(crate) fn require_link(s: State, link: u32) -> Result<u32, Error>
    ensures { result ≡ cond (leb link s.capacity) (Ok link) (Err why.Damaged) }
{
    if link <= s.capacity {
        Ok(link)
    } else {
        Err(Error::Damaged)
    }
}

// Entry n, with the key and the value, at the head of the key's bucket.
pub fn push_entry(buckets: &mut [u32], entries: &mut [u32], size: u32, n: u32, key: u32, value: u32)
    requires is_entry { 0 < n }
    requires readable { Readable size (length buckets.old) n (length entries.old) }
    ensures buckets_after { buckets.new ≡ set buckets.old (bucket_of key size) n }
    ensures entries_after { entries.new
        ≡ set_entry entries.old n (get_or buckets.old (bucket_of key size) 0) key value }
{
    let b = bucket_index(key, size);
    set_entry(entries, n, buckets[b], key, value);
    buckets[b] = n;
}

// The first free entry pushed where no step comes first, into a table of that size that has just been read: the answer is the
// free list's next head. Only that entry and its link are read of the free list, and nothing is written before the last test.
#[tactic(auto, unfolding(crate::specs::Free::next_free, model::specs::Memory::keys_held, model::specs::Calls::takeable))]
pub fn push(
    buckets: &mut [u32],
    entries: &mut [u32],
    s: State,
    size: u32,
    key: u32,
    value: u32,
    held: bool,
) -> Result<u32, Error>
    requires readable { Readable size (length buckets.old) s.capacity (length entries.old) }
    requires free_fits { s.free_head ≤ s.capacity }
    ensures answer { result ≡ next_free s held entries.old }
    ensures pushed { OnOk result ((buckets.new ≡ set buckets.old (bucket_of key size) s.free_head)
        × (entries.new ≡ set_entry entries.old s.free_head
        (get_or buckets.old (bucket_of key size) 0) key value)) }
    ensures refused { OnErr result ((buckets.new ≡ buckets.old) × (entries.new ≡ entries.old)) }
{
    require_room(s, held)?;
    let free = require_link(s, link_of(entries, s.free_head))?;
    push_entry(buckets, entries, size, s.free_head, key, value);
    Ok(free)
}

// One key more in the table that keys are added to, and another free head.
#[tactic(auto, unfolding(model::specs::Limits::largest_capacity, crate::specs::Counts::one_more, model::specs::Calls::recounted, model::specs::Calls::state_of, model::specs::Calls::with_count, model::specs::Calls::old_new, model::specs::Calls::target, model::specs::Memory::size_of, model::specs::Memory::used_of))]
pub fn one_more(s: State, free: u32) -> State
    requires { Counted s }
    ensures { result ≡ one_more s (calls.target s.rehashing) free }
{
    // A copy with two fields set, and no new state: see `written_over` of memory.
    let mut n = s;
    n.free_head = free;
    if s.rehashing {
        n.new_used = s.new_used + 1;
        n
    } else {
        n.old_used = s.old_used + 1;
        n
    }
}
