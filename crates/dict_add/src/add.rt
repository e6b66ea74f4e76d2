// Add a key that is not held (SPECIFICATION, "Add"), before any growth. It is a timed call: the state is tested on the lent
// lengths, then whether a rehash is under way, then which buffer is current. During a rehash a step comes first ("The step that
// comes first"), unless safe iterators hold it up, and all that can refuse is asked before it; that is off the quick path.
ghost use Rattle.std.specs.Prelude.{◌≡◌, true, false, ℕ, List, length};
ghost use Rattle.model.specs.Calls as calls;
ghost use Rattle.model.specs.Calls.After.{after};
ghost use Rattle.model.proofs.Soundness.{Sound};
ghost use Rattle.memory.specs.Lent.{sound_lent};

use after_step::presence::presence_of;
use during_rehash::during::add_during;
use during_rehash::entry::{one_more, push};
use memory::state::{answered_over, by_fields, require_sound};
use model::{Error, State};
use search::found::entry_in;

// Into the only table. With no rehash under way the other buffer does not matter, nor its length.
fn add_in(
    buckets: &mut [u32],
    entries: &mut [u32],
    s: State,
    key: u32,
    value: u32,
) -> Result<State, Error>
    requires sound { Sound s (length buckets.old) 0 (length entries.old) }
    requires resting { s.rehashing ≡ false }
    ensures { (other : List ℕ) → after result buckets.new other entries.new
        ≡ calls.added s buckets.old other entries.old key value
        (calls.lookup s buckets.old other entries.old key) }
{
    let found = entry_in(entries, s.capacity, s.old_used, buckets, s.old_size, key);
    let held = presence_of(found)?;
    let free = push(buckets, entries, s, s.old_size, key, value, held)?;
    Ok(one_more(s, free))
}

// With no rehash under way the flag says which lent buffer has the only table.
fn add_resting(
    first: &mut [u32],
    second: &mut [u32],
    entries: &mut [u32],
    s: State,
    key: u32,
    value: u32,
) -> Result<State, Error>
    requires sound { sound_lent (length first.old) (length second.old) (length entries.old) s ≡ true }
    requires resting { s.rehashing ≡ false }
    ensures { after result first.new second.new entries.new
        ≡ calls.add_after_step s first.old second.old entries.old key value }
{
    if s.second_is_current {
        add_in(second, entries, s, key, value)
    } else {
        add_in(first, entries, s, key, value)
    }
}

// The flag says which lent buffer is the current one.
fn add_rehashing(
    first: &mut [u32],
    second: &mut [u32],
    entries: &mut [u32],
    s: State,
    key: u32,
    value: u32,
) -> Result<State, Error>
    requires sound { sound_lent (length first.old) (length second.old) (length entries.old) s ≡ true }
    requires rehashing { s.rehashing ≡ true }
    ensures { after result first.new second.new entries.new
        ≡ calls.add_after_step s first.old second.old entries.old key value }
{
    if s.second_is_current {
        add_during(second, first, entries, s, key, value)
    } else {
        add_during(first, second, entries, s, key, value)
    }
}

// The same, with the quick path's state kept out of memory.
#[inline(always)]
fn add_apart(
    first: &mut [u32],
    second: &mut [u32],
    entries: &mut [u32],
    s: State,
    key: u32,
    value: u32,
) -> Result<State, Error>
    requires sound { sound_lent (length first.old) (length second.old) (length entries.old) s ≡ true }
    requires rehashing { s.rehashing ≡ true }
    ensures { after result first.new second.new entries.new
        ≡ calls.add_after_step s first.old second.old entries.old key value }
{
    let added = add_rehashing(first, second, entries, by_fields(s), key, value);
    answered_over(s, added)
}

// With the step that comes first, and without the growth that may follow.
pub fn add_after_step(
    first: &mut [u32],
    second: &mut [u32],
    entries: &mut [u32],
    s: State,
    key: u32,
    value: u32,
) -> Result<State, Error>
    ensures { after result first.new second.new entries.new
        ≡ calls.add_after_step s first.old second.old entries.old key value }
{
    require_sound(first.len(), second.len(), entries.len(), s)?;
    if s.rehashing {
        add_apart(first, second, entries, s, key, value)
    } else {
        add_resting(first, second, entries, s, key, value)
    }
}
