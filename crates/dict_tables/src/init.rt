// A new store (SPECIFICATION, "Start").
ghost use Rattle.std.specs.Prelude.{◌≡◌, ◌++◌, ◌*◌, ◌≤◌, length, drop};
ghost use Rattle.model.specs.Calls as calls;
ghost use Rattle.model.specs.Calls.After.{after};

use crate::clear::clear;
use memory::entry::set_entry;
use memory::state::is_legal_size;
use model::{Error, LARGEST_CAPACITY, State, Unstarted};

// Entries 1 to the capacity as the free list, each linked to the next, keys and values 0. From the last one down, so
// that the link to write is the entry written before.
fn link_free(entries: &mut [u32], capacity: u32)
    requires { capacity * 3 ≤ length entries.old }
    ensures { entries.new ≡ calls.free_entries 1 capacity ++ drop (capacity * 3) entries.old }
{
    let mut link = 0;
    for below in (0..capacity).rev() {
        set_entry(entries, below + 1, link, 0, 0);
        link = below + 1;
    }
}

// The state of one table with no keys, which may grow, and no safe iterator.
fn empty_state(size: u32, free_head: u32, capacity: u32) -> State
    ensures { result ≡ calls.empty_state size free_head capacity }
{
    State {
        second_is_current: false,
        old_size: size,
        new_size: 0,
        old_used: 0,
        new_used: 0,
        rehashing: false,
        rehash_index: 0,
        free_head,
        capacity,
        resize_allowed: true,
        safe_iterators: 0,
    }
}

// The state of zeros: what a refused start hands back, and what the program holds before a good start.
pub fn no_state() -> State
    ensures { result ≡ calls.no_state }
{
    State {
        resize_allowed: false,
        ..empty_state(0, 0, 0)
    }
}

pub fn init(
    first: &mut [u32],
    second: &mut [u32],
    entries: &mut [u32],
    capacity: u32,
    size: u32,
) -> Result<State, Unstarted>
    ensures { after result first.new second.new entries.new
        ≡ calls.init first.old second.old entries.old capacity size }
{
    let within_limits = (1 <= capacity) & (capacity <= LARGEST_CAPACITY) & is_legal_size(size);
    if !within_limits {
        return Err(Unstarted {
            error: Error::BadSize,
            state: no_state(),
        });
    }
    let long_enough = (size as usize <= first.len()) & (capacity as usize * 3 <= entries.len());
    if !long_enough {
        return Err(Unstarted {
            error: Error::BadState,
            state: no_state(),
        });
    }
    clear(first, size);
    link_free(entries, capacity);
    Ok(empty_state(size, 1, capacity))
}
