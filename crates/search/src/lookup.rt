// The way to the entry that holds a key: for delete, which takes the entry off its chain.
ghost use Rattle.std.specs.Prelude.{◌≡◌, length};
ghost use Rattle.model.specs.Calls.{both, lookup};
ghost use Rattle.model.proofs.Soundness.{Sound};
ghost use Rattle.search.specs.Tables.{searched_in, Readable};

use memory::chain::Chain;
use memory::entry::key_of;
use memory::state::bucket_index;
use model::{Lookup, State, Table};

// The key in one table: the first entry with it, on the chain of its bucket, and the entry before. The whole chain is read, which
// must be sound to its end.
pub fn lookup_in(
    table: Table,
    entries: &[u32],
    capacity: u32,
    used: u32,
    buckets: &[u32],
    size: u32,
    key: u32,
) -> Lookup
    requires { Readable size (length buckets.now) capacity (length entries.now) }
    ensures { result ≡ searched_in entries.now capacity used buckets.now size key table }
{
    let bucket = bucket_index(key, size);
    let mut chain = Chain {
        entries,
        capacity,
        size,
        bucket,
        at: buckets[bucket],
        budget: used,
    };
    let mut found = Lookup::Absent;
    let mut before = 0;
    loop {
        let Ok(next) = chain.next() else {
            return Lookup::Damaged;
        };
        let Some(entry) = next else {
            return found;
        };
        if let Lookup::Absent = found {
            if key_of(entries, entry) == key {
                found = Lookup::At {
                    table,
                    before,
                    entry,
                };
            }
        }
        before = entry;
    }
}

// Both chains must be sound, and the old table's entry comes first.
#[tactic(auto, unfolding(model::specs::Calls::both))]
fn both_tables(old: Lookup, new: Lookup) -> Lookup
    ensures { result ≡ both old new }
{
    match (old, new) {
        (Lookup::Absent, _) => new,
        (Lookup::At { .. }, Lookup::Damaged) => Lookup::Damaged,
        _ => old,
    }
}

// The key in the old table and, during a rehash, in the new one.
pub fn look_up(current: &[u32], other: &[u32], entries: &[u32], s: State, key: u32) -> Lookup
    requires { Sound s (length current.now) (length other.now) (length entries.now) }
    ensures { result ≡ lookup s current.now other.now entries.now key }
{
    let old = lookup_in(
        Table::Old,
        entries,
        s.capacity,
        s.old_used,
        current,
        s.old_size,
        key,
    );
    if s.rehashing {
        let new = lookup_in(
            Table::New,
            entries,
            s.capacity,
            s.new_used,
            other,
            s.new_size,
            key,
        );
        both_tables(old, new)
    } else {
        old
    }
}
