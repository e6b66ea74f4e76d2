// Add a key (SPECIFICATION, "Add"), and grow if there is one table and it is crowded then ("Growth"). It is a timed call: an
// add that does not grow pays a few comparisons of the state's numbers for it. The suggested size is computed behind them, and
// the resize, which copies the state, stands in a function of its own, off the quick path.
ghost use Rattle.std.specs.Prelude.{◌≡◌, true, ◌&&◌, not, cond, Ok};
ghost use Rattle.model.specs.Memory.{keys_held};
ghost use Rattle.model.specs.Calls as calls;
ghost use Rattle.model.specs.Calls.After.{after};
ghost use Rattle.model.proofs.AddLeaves.{Growable};

use dict_add::add::add_after_step;
use dict_suggest_look::suggest::suggest_for;
use dict_tables::resize::resize;
use memory::state::{by_fields, written_over};
use model::{Error, FORCE_RATIO, State};

// Too many keys for the table: as many as it has buckets, where it may grow, or so many more that it grows all the same.
fn is_crowded(s: State) -> bool
    requires { Growable s }
    ensures { result ≡ calls.crowded s.resize_allowed s.old_size (keys_held s) }
{
    let keys = s.old_used + s.new_used;
    (s.resize_allowed & (s.old_size <= keys)) | (s.old_size * FORCE_RATIO < keys)
}

// The size that the table should have: the suggested one if it is the only table and crowded, or else the one that it has.
fn wanted_size(s: State) -> u32
    requires { Growable s }
    ensures { result ≡ cond (not s.rehashing && calls.crowded s.resize_allowed s.old_size (keys_held s))
        (calls.suggested true (keys_held s)) s.old_size }
{
    let crowded = !s.rehashing & is_crowded(s);
    if crowded {
        suggest_for(s, true)
    } else {
        s.old_size
    }
}

// The same resize as the call's. It may be refused for want of room in the other buffer, and the add is answered all the same.
// A call of its own, off the quick path: the state goes into memory for it.
#[cold]
#[inline(never)]
fn grow_to(first: &mut [u32], second: &mut [u32], entries: &[u32], s: State, size: u32) -> State
    ensures { after (Ok result) first.new second.new entries.now
        ≡ calls.grown_by s (calls.resize s first.old second.old entries.now size) }
{
    resize(first, second, entries, s, size).unwrap_or(s)
}

// The same, with the quick path's state kept out of memory.
#[inline(always)]
fn grow_apart(first: &mut [u32], second: &mut [u32], entries: &[u32], s: State, size: u32) -> State
    ensures { after (Ok result) first.new second.new entries.now
        ≡ calls.grown_by s (calls.resize s first.old second.old entries.now size) }
{
    let grown = grow_to(first, second, entries, by_fields(s), size);
    written_over(s, grown)
}

// What follows an add that was answered, and left this state.
fn grow(first: &mut [u32], second: &mut [u32], entries: &[u32], s: State) -> State
    requires { Growable s }
    ensures { after (Ok result) first.new second.new entries.now
        ≡ calls.grown s first.old second.old entries.now }
{
    let size = wanted_size(s);
    if s.old_size < size {
        grow_apart(first, second, entries, s, size)
    } else {
        s
    }
}

pub fn add(
    first: &mut [u32],
    second: &mut [u32],
    entries: &mut [u32],
    s: State,
    key: u32,
    value: u32,
) -> Result<State, Error>
    ensures { after result first.new second.new entries.new
        ≡ calls.add s first.old second.old entries.old key value }
{
    let added = add_after_step(first, second, entries, s, key, value)?;
    Ok(grow(first, second, entries, added))
}
