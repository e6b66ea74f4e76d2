// A plain iterator's begin and end. It is counted nowhere: its end tells by a fingerprint whether the tables changed.
ghost use Rattle.std.specs.Prelude.{◌≡◌};
ghost use Rattle.model.specs.Iterators as iterators;

use fingerprint::fingerprint;
use memory::state::require_sound;
use model::{Error, State};

// For each table its buffer, its size and the keys that it holds. With no rehash the other one has size 0 and no keys.
fn fingerprint_of(s: State) -> u64
    ensures { result ≡ iterators.fingerprint_of s }
{
    fingerprint([
        u64::from(s.second_is_current),
        u64::from(s.old_size),
        u64::from(s.old_used),
        u64::from(!s.second_is_current),
        u64::from(s.new_size),
        u64::from(s.new_used),
    ])
}

pub fn begin_iterator(
    first: &[u32],
    second: &[u32],
    entries: &[u32],
    s: State,
) -> Result<u64, Error>
    ensures { result ≡ iterators.begin_iterator s first.now second.now entries.now }
{
    require_sound(first.len(), second.len(), entries.len(), s)?;
    Ok(fingerprint_of(s))
}

// Given the fingerprint that its begin answered.
pub fn end_iterator(
    first: &[u32],
    second: &[u32],
    entries: &[u32],
    s: State,
    fingerprint: u64,
) -> Result<(), Error>
    ensures { result ≡ iterators.end_iterator s first.now second.now entries.now fingerprint }
{
    require_sound(first.len(), second.len(), entries.len(), s)?;
    if fingerprint != fingerprint_of(s) {
        return Err(Error::Changed);
    }
    Ok(())
}
