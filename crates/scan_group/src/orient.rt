// From the lent buffers and a sound state to the tables: the flag says which bucket buffer is the old table's.
ghost use Rattle.std.specs.Prelude.{◌≡◌, true, length, if◌then◌else◌};
ghost use Rattle.memory.specs.Lent.{sound_lent};
ghost use Rattle.scan_group.specs.Lent.{Reads};

use crate::lent::{Entries, Lent, LiveTable};
use model::State;

#[inline(always)]
fn current_first<'a>(first: &'a [u32], second: &'a [u32], swap: bool) -> (&'a [u32], &'a [u32])
    ensures current { result.0.now ≡ (if swap then second.entry.now else first.entry.now) }
    ensures other { result.1.now ≡ (if swap then first.entry.now else second.entry.now) }
{
    if swap {
        (second, first)
    } else {
        (first, second)
    }
}

// What a call on a sound state reads.
#[inline(always)]
pub fn orient<'a>(first: &'a [u32], second: &'a [u32], entries: &'a [u32], s: State) -> Lent<'a>
    requires { sound_lent (length first.now) (length second.now) (length entries.now) s ≡ true }
    ensures { Reads s first.entry.now second.entry.now entries.entry.now result }
{
    let (current, other) = current_first(first, second, s.second_is_current);
    let old = LiveTable {
        buckets: current,
        size: s.old_size,
        used: s.old_used,
    };
    let new = if s.rehashing {
        Some(LiveTable {
            buckets: other,
            size: s.new_size,
            used: s.new_used,
        })
    } else {
        None
    };
    let entries = Entries {
        fields: entries,
        capacity: s.capacity,
    };
    Lent { entries, old, new }
}
