// Whether the table may grow by itself (SPECIFICATION, "Permission to grow").
ghost use Rattle.std.specs.Prelude.{◌≡◌};
ghost use Rattle.model.specs.Calls as calls;

use memory::state::require_sound;
use model::{Error, State};

pub fn allow_resize(
    first: &[u32],
    second: &[u32],
    entries: &[u32],
    s: State,
    allowed: bool,
) -> Result<State, Error>
    ensures { result ≡ calls.allow_resize s first.now second.now entries.now allowed }
{
    require_sound(first.len(), second.len(), entries.len(), s)?;
    Ok(State {
        resize_allowed: allowed,
        ..s
    })
}
