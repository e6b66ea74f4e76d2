// Find a key's value (SPECIFICATION, "Find"). It is a timed call: the state is tested on the lent lengths.
ghost use Rattle.std.specs.Prelude.{◌≡◌};
ghost use Rattle.model.specs.Calls as calls;

use memory::entry::value_of;
use memory::state::{oriented, require_sound};
use model::{Error, State};
use search::found::find_entry;

pub fn find(
    first: &[u32],
    second: &[u32],
    entries: &[u32],
    s: State,
    key: u32,
) -> Result<u32, Error>
    ensures { result ≡ calls.find s first.now second.now entries.now key }
{
    require_sound(first.len(), second.len(), entries.len(), s)?;
    let (current, other) = oriented(s, first, second);
    let found = find_entry(current, other, entries, s, key)?;
    let entry = found.ok_or(Error::Absent)?;
    Ok(value_of(entries, entry))
}
