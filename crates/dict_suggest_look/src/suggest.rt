// The size that a resize should take (SPECIFICATION, "Suggested size").
ghost use Rattle.std.specs.Prelude.{◌≡◌};
ghost use Rattle.model.specs.Memory.{keys_held};
ghost use Rattle.model.specs.Calls as calls;
ghost use Rattle.model.proofs.Soundness.{Counted};

use memory::state::require_sound;
use model::{Error, LARGEST_SIZE, LEAST_SUGGESTION, State};

// The smallest power of two that is below neither n nor the least suggestion, and never above the largest size.
fn size_for(n: u32) -> u32
    ensures { result ≡ calls.size_for n }
{
    n.clamp(LEAST_SUGGESTION, LARGEST_SIZE).next_power_of_two()
}

// For the keys that both tables hold, which the capacity bounds. It is the call's own size, and that of a table which grows.
pub fn suggest_for(s: State, growing: bool) -> u32
    requires { Counted s }
    ensures { result ≡ calls.suggested growing (keys_held s) }
{
    let keys = s.old_used + s.new_used;
    if growing {
        size_for(keys * 2)
    } else {
        size_for(keys)
    }
}

pub fn suggested_size(
    first: &[u32],
    second: &[u32],
    entries: &[u32],
    s: State,
    growing: bool,
) -> Result<u32, Error>
    ensures { result ≡ calls.suggested_size s first.now second.now entries.now growing }
{
    require_sound(first.len(), second.len(), entries.len(), s)?;
    Ok(suggest_for(s, growing))
}
