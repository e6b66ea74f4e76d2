// A safe iterator's begin and end: it is counted in the state, and while any is, no key moves.
ghost use Rattle.std.specs.Prelude.{◌≡◌};
ghost use Rattle.model.specs.Iterators as iterators;

use memory::state::require_sound;
use model::{Error, MOST_SAFE_ITERATORS, State};

pub fn begin_safe(first: &[u32], second: &[u32], entries: &[u32], s: State) -> Result<State, Error>
    ensures { result ≡ iterators.begin_safe s first.now second.now entries.now }
{
    require_sound(first.len(), second.len(), entries.len(), s)?;
    if s.safe_iterators >= MOST_SAFE_ITERATORS {
        return Err(Error::TooManyIterators);
    }
    Ok(State {
        safe_iterators: s.safe_iterators + 1,
        ..s
    })
}

pub fn end_safe(first: &[u32], second: &[u32], entries: &[u32], s: State) -> Result<State, Error>
    ensures { result ≡ iterators.end_safe s first.now second.now entries.now }
{
    require_sound(first.len(), second.len(), entries.len(), s)?;
    if s.safe_iterators == 0 {
        return Err(Error::NoSafeIterator);
    }
    Ok(State {
        safe_iterators: s.safe_iterators - 1,
        ..s
    })
}
