// Delete a held key (SPECIFICATION, "Delete"). The state is tested on the lent lengths, then whether a step is due: during a
// rehash that no safe iterator holds up one comes first. With no rehash under way the key goes from the only table (`remove`).
// During one the flag is read once, and below that every function knows the current and the other buffer.
ghost use Rattle.std.specs.Prelude.{◌≡◌, true, length};
ghost use Rattle.model.specs.Calls as calls;
ghost use Rattle.model.specs.Calls.After.{after};
ghost use Rattle.model.proofs.Soundness.{Sound};
ghost use Rattle.model.proofs.Lookups.{Located};
ghost use Rattle.memory.specs.Lent.{sound_lent};
ghost use Rattle.dict_delete.specs.Step.{step_for};

use crate::remove::{delete_resting, free_entry};
use during_rehash::moving::step_if_held;
use memory::state::{answered_over, by_fields, require_sound};
use model::{Error, Lookup, State, Table};
use search::lookup::look_up;

// The entry that the lookup found, out of the table that it is in.
fn remove_at(
    current: &mut [u32],
    other: &mut [u32],
    entries: &mut [u32],
    s: State,
    key: u32,
    table: Table,
    before: u32,
    n: u32,
) -> Result<State, Error>
    requires sound { Sound s (length current.old) (length other.old) (length entries.old) }
    requires located { Located s table before n }
    ensures { after result current.new other.new entries.new
        ≡ calls.removed s current.old other.old entries.old key table before n }
{
    let mut t = s;
    t.free_head = n;
    match table {
        Table::Old => {
            free_entry(current, entries, s.old_size, key, before, n, s.free_head);
            t.old_used = s.old_used - 1;
            Ok(t)
        }
        Table::New => {
            free_entry(other, entries, s.new_size, key, before, n, s.free_head);
            t.new_used = s.new_used - 1;
            Ok(t)
        }
    }
}

// In a sound state: what the lookup found decides.
fn remove_sound(
    current: &mut [u32],
    other: &mut [u32],
    entries: &mut [u32],
    s: State,
    key: u32,
) -> Result<State, Error>
    requires { Sound s (length current.old) (length other.old) (length entries.old) }
    ensures { after result current.new other.new entries.new
        ≡ calls.deleted s current.old other.old entries.old key
        (calls.lookup s current.old other.old entries.old key) }
{
    let at = look_up(current, other, entries, s, key);
    match at {
        Lookup::Damaged => Err(Error::Damaged),
        Lookup::Absent => Err(Error::Absent),
        Lookup::At {
            table,
            before,
            entry,
        } => remove_at(current, other, entries, s, key, table, before, entry),
    }
}

// With no step, once the state is known to be sound: the flag says which lent buffer is current.
fn delete_alone(
    first: &mut [u32],
    second: &mut [u32],
    entries: &mut [u32],
    s: State,
    key: u32,
) -> Result<State, Error>
    requires { sound_lent (length first.old) (length second.old) (length entries.old) s ≡ true }
    ensures { after result first.new second.new entries.new
        ≡ calls.delete_alone s first.old second.old entries.old key }
{
    if s.second_is_current {
        remove_sound(second, first, entries, s, key)
    } else {
        remove_sound(first, second, entries, s, key)
    }
}

// The step, where the key is held once it is taken: the flag says which lent buffer is the current one.
fn step_lent(
    first: &mut [u32],
    second: &mut [u32],
    entries: &mut [u32],
    s: State,
    key: u32,
) -> Result<(u32, State), Error>
    requires sound { sound_lent (length first.old) (length second.old) (length entries.old) s ≡ true }
    requires step_due { calls.step_due s ≡ true }
    ensures { after result first.new second.new entries.new
        ≡ step_for s first.old second.old entries.old key }
{
    if s.second_is_current {
        step_if_held(second, first, entries, s, key)
    } else {
        step_if_held(first, second, entries, s, key)
    }
}

// A step comes first, and a refusal leaves all as it was. A key that is held once the step is taken is deleted from what the
// step leaves.
fn step_then_delete(
    first: &mut [u32],
    second: &mut [u32],
    entries: &mut [u32],
    s: State,
    key: u32,
) -> Result<State, Error>
    requires sound { sound_lent (length first.old) (length second.old) (length entries.old) s ≡ true }
    requires step_due { calls.step_due s ≡ true }
    ensures { after result first.new second.new entries.new
        ≡ calls.delete s first.old second.old entries.old key }
{
    let (_, then) = step_lent(first, second, entries, s, key)?;
    delete_alone(first, second, entries, then, key)
}

// The same, with the quick path's state kept out of memory.
#[inline(always)]
fn delete_after_step(
    first: &mut [u32],
    second: &mut [u32],
    entries: &mut [u32],
    s: State,
    key: u32,
) -> Result<State, Error>
    requires sound { sound_lent (length first.old) (length second.old) (length entries.old) s ≡ true }
    requires step_due { calls.step_due s ≡ true }
    ensures { after result first.new second.new entries.new
        ≡ calls.delete s first.old second.old entries.old key }
{
    let deleted = step_then_delete(first, second, entries, by_fields(s), key);
    answered_over(s, deleted)
}

// While safe iterators hold up the step. The quick path's state is kept out of memory here too.
#[inline(always)]
fn delete_paused(
    first: &mut [u32],
    second: &mut [u32],
    entries: &mut [u32],
    s: State,
    key: u32,
) -> Result<State, Error>
    requires { sound_lent (length first.old) (length second.old) (length entries.old) s ≡ true }
    ensures { after result first.new second.new entries.new
        ≡ calls.delete_alone s first.old second.old entries.old key }
{
    let deleted = delete_alone(first, second, entries, by_fields(s), key);
    answered_over(s, deleted)
}

pub fn delete(
    first: &mut [u32],
    second: &mut [u32],
    entries: &mut [u32],
    s: State,
    key: u32,
) -> Result<State, Error>
    ensures { after result first.new second.new entries.new
        ≡ calls.delete s first.old second.old entries.old key }
{
    require_sound(first.len(), second.len(), entries.len(), s)?;
    if s.rehashing & (s.safe_iterators == 0) {
        delete_after_step(first, second, entries, s, key)
    } else if s.rehashing {
        delete_paused(first, second, entries, s, key)
    } else {
        delete_resting(first, second, entries, s, key)
    }
}
