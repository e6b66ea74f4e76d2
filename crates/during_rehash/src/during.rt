// An add during a rehash.
ghost use Rattle.std.specs.Prelude.{◌≡◌, true, length};
ghost use Rattle.model.specs.Calls.After.{after};
ghost use Rattle.model.proofs.Soundness.{Sound};
ghost use Rattle.during_rehash.specs.Moving.{add_moving};

use crate::entry::{one_more, push};
use crate::moving::add_stepping;
use after_step::presence::presence_of;
use model::{Error, State};
use search::found::entry_in_both;

// While safe iterators hold up the step: the key is looked for in both tables as they are, and the entry goes into the new one.
fn add_paused(
    current: &[u32],
    other: &mut [u32],
    entries: &mut [u32],
    s: State,
    key: u32,
    value: u32,
) -> Result<State, Error>
    requires sound { Sound s (length current.now) (length other.old) (length entries.old) }
    requires rehashing { s.rehashing ≡ true }
    requires paused { s.safe_iterators ≡ 0 → ⊥ }
    ensures { after result current.now other.new entries.new
        ≡ add_moving s current.now other.old entries.old key value }
{
    let found = entry_in_both(
        current, other, entries, s.capacity, s.old_used, s.new_used, s.old_size, s.new_size, key,
    );
    let held = presence_of(found)?;
    let free = push(other, entries, s, s.new_size, key, value, held)?;
    Ok(one_more(s, free))
}

// On the current and the other bucket buffer: with a step first, unless safe iterators hold it up.
pub fn add_during(
    current: &mut [u32],
    other: &mut [u32],
    entries: &mut [u32],
    s: State,
    key: u32,
    value: u32,
) -> Result<State, Error>
    requires sound { Sound s (length current.old) (length other.old) (length entries.old) }
    requires rehashing { s.rehashing ≡ true }
    ensures { after result current.new other.new entries.new
        ≡ add_moving s current.old other.old entries.old key value }
{
    if s.safe_iterators == 0 {
        add_stepping(current, other, entries, s, key, value)
    } else {
        add_paused(current, other, entries, s, key, value)
    }
}
