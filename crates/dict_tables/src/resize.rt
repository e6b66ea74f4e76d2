// Begin a rehash into a table of another size (SPECIFICATION, "Resize").
ghost use Rattle.std.specs.Prelude.{◌≡◌, List, ℕ};
ghost use Rattle.model.specs.Calls as calls;
ghost use Rattle.model.specs.Calls.After.{after};

use crate::clear::clear;
use memory::state::{is_legal_size, require_sound};
use model::{Error, State};

// On the other buffer, where the new table is to lie: the tests in the order of the answers.
fn begin(other: &mut [u32], s: State, size: u32) -> Result<State, Error>
    ensures { (current entries : List ℕ) → after result current other.new entries
        ≡ calls.resized s current other.old entries size s.rehashing }
{
    let acceptable = is_legal_size(size) & (size != s.old_size) & (size as usize <= other.len());
    if s.rehashing {
        return Err(Error::Rehashing);
    }
    if !acceptable {
        return Err(Error::BadSize);
    }
    clear(other, size);
    Ok(State {
        new_size: size,
        new_used: 0,
        rehashing: true,
        rehash_index: 0,
        ..s
    })
}

pub fn resize(
    first: &mut [u32],
    second: &mut [u32],
    entries: &[u32],
    s: State,
    size: u32,
) -> Result<State, Error>
    ensures { after result first.new second.new entries.now
        ≡ calls.resize s first.old second.old entries.now size }
{
    require_sound(first.len(), second.len(), entries.len(), s)?;
    if s.second_is_current {
        begin(first, s, size)
    } else {
        begin(second, s, size)
    }
}
