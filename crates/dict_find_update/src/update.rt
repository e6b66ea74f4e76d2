// Update a held key's value (SPECIFICATION, "Change"). The parts are those of find.
ghost use Rattle.std.specs.Prelude.{◌≡◌};
ghost use Rattle.model.specs.Calls as calls;
ghost use Rattle.model.specs.Calls.After.{after};

use memory::entry::set_value;
use memory::state::{oriented, require_sound};
use model::{Error, State};
use search::found::find_entry;

pub fn update(
    first: &[u32],
    second: &[u32],
    entries: &mut [u32],
    s: State,
    key: u32,
    value: u32,
) -> Result<(), Error>
    ensures { after result first.now second.now entries.new
        ≡ calls.update s first.now second.now entries.old key value }
{
    require_sound(first.len(), second.len(), entries.len(), s)?;
    let (current, other) = oriented(s, first, second);
    let found = find_entry(current, other, entries, s, key)?;
    let entry = found.ok_or(Error::Absent)?;
    set_value(entries, entry, value);
    Ok(())
}
