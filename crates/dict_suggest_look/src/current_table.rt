// A look at the live bucket table (SPECIFICATION, "Look").
ghost use Rattle.std.specs.Prelude.{◌≡◌};
ghost use Rattle.model.specs.Calls as calls;

use memory::state::{is_sound_lent, oriented};
use model::State;

// The current table as a part of the buffer that it lies in; empty where the state is not sound.
pub fn current_table<'a>(
    first: &'a [u32],
    second: &'a [u32],
    entries: &[u32],
    s: State,
) -> &'a [u32]
    ensures { result.now ≡ calls.current_table s first.now second.now entries.now }
{
    if !is_sound_lent(first.len(), second.len(), entries.len(), s) {
        return &[];
    }
    let (current, _) = oriented(s, first, second);
    &current[..s.old_size as usize]
}
