// The check (SPECIFICATION, "Check and mend"). It writes nothing.
ghost use Rattle.std.specs.Prelude.{◌≡◌, length};
ghost use Rattle.model.proofs.Soundness.{Sound};
ghost use Rattle.model.specs.Verify as definition;

use crate::held::{count_held, free_verified};
use crate::table::{all_empty, table_checked};
use memory::state::require_sound;
use model::{Error, State};

// The chains first: only where all of this holds does every entry look up its key.
#[tactic(auto, using(crate::proofs::Parts::verified_parts))]
fn verified(current: &[u32], other: &[u32], entries: &[u32], s: State) -> bool
    requires { Sound s (length current.now) (length other.now) (length entries.now) }
    ensures { result ≡ definition.verified s current.now other.now entries.now }
{
    table_checked(current, entries, s.capacity, s.old_used, s.old_size)
        && table_checked(other, entries, s.capacity, s.new_used, s.new_size)
        && all_empty(current, s.rehash_index)
        && free_verified(current, other, entries, s)
        && count_held(current, other, entries, s) == s.old_used + s.new_used
}

// Whether the store is undamaged; a state that is not sound is refused.
pub fn verify(first: &[u32], second: &[u32], entries: &[u32], s: State) -> Result<bool, Error>
    ensures { result ≡ definition.verify s first.now second.now entries.now }
{
    require_sound(first.len(), second.len(), entries.len(), s)?;
    if s.second_is_current {
        Ok(verified(second, first, entries, s))
    } else {
        Ok(verified(first, second, entries, s))
    }
}
