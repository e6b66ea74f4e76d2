// The repair (SPECIFICATION, "Check and mend").
ghost use Rattle.std.specs.Prelude.{◌≡◌, ◌≤◌, length};
ghost use Rattle.model.specs.Calls.After.{after};
ghost use Rattle.model.proofs.Soundness.{Sound};
ghost use Rattle.model.specs.Repair as definition;
ghost use Rattle.repair_passes.specs.Passes.{cut_and_marked, rebuilt, Countable, recounted, repaired_store};
ghost use Rattle.repair_passes.specs.Passes.Buffers.{buffers};

use crate::count::{count_table, first_filled};
use crate::free::free_others;
use crate::prune::prune_table;
use memory::state::require_sound;
use model::{Error, LARGEST_CAPACITY, State};
use repair_cut::cut::cut_table;
use repair_cut::first::decide;

// One mark for each entry of the largest store: 64 KB of stack.
const MARKS: usize = LARGEST_CAPACITY as usize;

// Cuts the chains, so that each entry is met once, and marks those that are kept.
fn cut_and_mark(
    current: &mut [u32],
    other: &mut [u32],
    entries: &mut [u32],
    marks: &mut [u8],
    s: State,
)
    requires sound { Sound s (length current.old) (length other.old) (length entries.old) }
    requires marks_fit { s.capacity ≤ length marks.old }
    ensures { buffers current.new other.new entries.new marks.new
        ≡ cut_and_marked s current.old other.old entries.old marks.old }
{
    cut_table(current, entries, marks, s.capacity, s.old_size);
    cut_table(other, entries, marks, s.capacity, s.new_size);
    decide(current, other, entries, marks, s);
}

// Takes the entries that are not kept off their chains and frees them, and answers the first of them.
fn rebuild(
    current: &mut [u32],
    other: &mut [u32],
    entries: &mut [u32],
    marks: &[u8],
    s: State,
) -> u32
    requires sound { Sound s (length current.old) (length other.old) (length entries.old) }
    requires marks_fit { s.capacity ≤ length marks.now }
    ensures { after result current.new other.new entries.new
        ≡ rebuilt s marks.now current.old other.old entries.old }
{
    prune_table(current, entries, marks, s.capacity, s.old_size);
    prune_table(other, entries, marks, s.capacity, s.new_size);
    free_others(entries, marks, s.capacity)
}

// The state with the counts and the first free entry set right, and with the next bucket to rehash no further than the first
// filled one.
#[tactic(auto, using(repair_passes::proofs::Staged::recounted_by), unfolding(model::specs::Calls::state_of, model::specs::Calls::old_new, model::specs::Memory::size_of))]
fn recount(current: &[u32], other: &[u32], entries: &[u32], s: State, free: u32) -> State
    requires current_countable { Countable current.now entries.now s.capacity s.old_size }
    requires other_countable { Countable other.now entries.now s.capacity s.new_size }
    requires index_in_range { s.rehash_index ≤ length current.now }
    ensures { result ≡ recounted s current.now other.now entries.now free }
{
    State {
        old_used: count_table(current, entries, s.capacity, s.old_size),
        new_used: count_table(other, entries, s.capacity, s.new_size),
        rehash_index: first_filled(current, s.rehash_index),
        free_head: free,
        ..s
    }
}

#[tactic(auto, unfolding(model::specs::Limits::largest_capacity))]
fn repair_sound(current: &mut [u32], other: &mut [u32], entries: &mut [u32], s: State) -> State
    requires { Sound s (length current.old) (length other.old) (length entries.old) }
    ensures { after result current.new other.new entries.new
        ≡ repaired_store s current.old other.old entries.old }
{
    let mut marks = [0; MARKS];
    cut_and_mark(current, other, entries, &mut marks, s);
    let free = rebuild(current, other, entries, &marks, s);
    recount(current, other, entries, s, free)
}

// Repairs the store in place; a state that is not sound is refused, and nothing is written.
pub fn repair(
    first: &mut [u32],
    second: &mut [u32],
    entries: &mut [u32],
    s: State,
) -> Result<State, Error>
    ensures { after result first.new second.new entries.new
        ≡ definition.repair s first.old second.old entries.old }
{
    require_sound(first.len(), second.len(), entries.len(), s)?;
    if s.second_is_current {
        Ok(repair_sound(second, first, entries, s))
    } else {
        Ok(repair_sound(first, second, entries, s))
    }
}
