// A key's entry off its chain and onto the free list, out of one table; and, as a timed call, delete with no rehash under way.
ghost use Rattle.std.specs.Prelude.{◌≡◌, true, false, ◌*◌, ◌≤◌, ◌<◌, ℕ, List, length};
ghost use Rattle.model.specs.Keys.{bucket_of};
ghost use Rattle.model.specs.Memory.{set_entry};
ghost use Rattle.model.specs.Calls as calls;
ghost use Rattle.model.specs.Calls.After.{after};
ghost use Rattle.model.proofs.Soundness.{Sound};
ghost use Rattle.memory.specs.Lent.{sound_lent};
ghost use Rattle.search.specs.Tables.{Readable};

use memory::entry::{link_of, set_entry, set_link};
use memory::state::bucket_index;
use model::{Error, Lookup, State, Table};
use search::lookup::lookup_in;

// Entry n off its chain, where it stands behind another entry or at the head of the key's bucket.
fn unlink(buckets: &mut [u32], entries: &mut [u32], size: u32, key: u32, before: u32, n: u32)
    requires readable { Readable size (length buckets.old) n (length entries.old) }
    requires is_entry { (0 < n) × (before * 3 ≤ length entries.old) }
    ensures buckets_after { buckets.new
        ≡ calls.unlink_bucket buckets.old entries.old (bucket_of key size) before n }
    ensures entries_after { entries.new ≡ calls.unlink_entry entries.old before n }
{
    let next = link_of(entries, n);
    if before == 0 {
        let b = bucket_index(key, size);
        buckets[b] = next;
    } else {
        set_link(entries, before, next);
    }
}

// Entry n off its chain and onto the free list.
pub fn free_entry(
    buckets: &mut [u32],
    entries: &mut [u32],
    size: u32,
    key: u32,
    before: u32,
    n: u32,
    free: u32,
)
    requires readable { Readable size (length buckets.old) n (length entries.old) }
    requires is_entry { (0 < n) × (before * 3 ≤ length entries.old) }
    ensures buckets_after { buckets.new
        ≡ calls.unlink_bucket buckets.old entries.old (bucket_of key size) before n }
    ensures entries_after { entries.new
        ≡ set_entry (calls.unlink_entry entries.old before n) n free 0 0 }
{
    unlink(buckets, entries, size, key, before, n);
    set_entry(entries, n, free, 0, 0);
}

// Out of the only table. With no rehash under way the other buffer does not matter, nor its length.
fn remove_in(buckets: &mut [u32], entries: &mut [u32], s: State, key: u32) -> Result<State, Error>
    requires sound { Sound s (length buckets.old) 0 (length entries.old) }
    requires resting { s.rehashing ≡ false }
    ensures { (other : List ℕ) → after result buckets.new other entries.new
        ≡ calls.deleted s buckets.old other entries.old key
        (calls.lookup s buckets.old other entries.old key) }
{
    let at = lookup_in(
        Table::Old,
        entries,
        s.capacity,
        s.old_used,
        buckets,
        s.old_size,
        key,
    );
    match at {
        Lookup::Damaged => Err(Error::Damaged),
        Lookup::Absent => Err(Error::Absent),
        Lookup::At {
            table: _,
            before,
            entry,
        } => {
            free_entry(
                buckets,
                entries,
                s.old_size,
                key,
                before,
                entry,
                s.free_head,
            );
            // A copy with two fields set, and no new state: see `written_over`.
            let mut t = s;
            t.free_head = entry;
            t.old_used = s.old_used - 1;
            Ok(t)
        }
    }
}

// With no rehash under way, once the state is known to be sound: the flag says which lent buffer has that table.
pub fn delete_resting(
    first: &mut [u32],
    second: &mut [u32],
    entries: &mut [u32],
    s: State,
    key: u32,
) -> Result<State, Error>
    requires sound { sound_lent (length first.old) (length second.old) (length entries.old) s ≡ true }
    requires resting { s.rehashing ≡ false }
    ensures { after result first.new second.new entries.new
        ≡ calls.delete_alone s first.old second.old entries.old key }
{
    if s.second_is_current {
        remove_in(second, entries, s, key)
    } else {
        remove_in(first, entries, s, key)
    }
}
