// The next bucket of an iterator, whatever its kind: the first filled one from a place on.
ghost use Rattle.std.specs.Prelude.{◌≡◌, ◌<◌, MatchOption};
ghost use Rattle.std.proofs.Math.Option.{none, some};
ghost use Rattle.model.specs.Iterators as iterators;
ghost use Rattle.model.specs.Walk.AfterScan.{after};
ghost use Rattle.iterator.specs.Tables.{first_filled};

use memory::state::require_sound;
use model::{ScanError, State};
use scan_group::hand_out::hand_out;
use scan_group::lent::LiveTable;
use scan_group::orient::orient;

// The first filled bucket of a table, from one on.
fn first_filled(table: LiveTable, from: u32) -> Option<u32>
    ensures { MatchOption result (first_filled table.entry.buckets.now from table.entry.size ≡ none)
        (λ b. (first_filled table.entry.buckets.now from table.entry.size ≡ some b) × (b < table.entry.size)) }
{
    for b in from..table.size {
        if table.head(b as usize) != 0 {
            return Some(b);
        }
    }
    None
}

// What is left of the old table, or of the only one, comes first; during a rehash the new one is behind it. A place is any
// number: from one that is no bucket's there is nothing left.
pub fn iterate(
    first: &[u32],
    second: &[u32],
    entries: &[u32],
    list: &mut [u32],
    s: State,
    place: u32,
) -> Result<(u32, u32), ScanError>
    ensures { after result list.new
        ≡ iterators.iterate s first.now second.now entries.now list.old place }
{
    require_sound(first.len(), second.len(), entries.len(), s)?;
    let lent = orient(first, second, entries, s);
    let old = lent.old;
    if let Some(b) = first_filled(old, place) {
        return hand_out(lent.entries, old.chain(b as usize), list, b as usize, b + 1);
    }
    let Some(new) = lent.new else {
        return Ok((old.size, 0));
    };
    let from = place.saturating_sub(old.size);
    match first_filled(new, from) {
        Some(b) => hand_out(
            lent.entries,
            new.chain(b as usize),
            list,
            b as usize,
            old.size + b + 1,
        ),
        None => Ok((old.size + new.size, 0)),
    }
}
