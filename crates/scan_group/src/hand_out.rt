// One bucket handed out whole: what a walk call does with one live table, and an iterator with any bucket.
ghost use Rattle.std.specs.Prelude.{◌≡◌, ◌≤◌};
ghost use Rattle.model.specs.Walk.{scanned};
ghost use Rattle.model.specs.Walk.AfterScan.{after};
ghost use Rattle.scan_group.specs.Chains.{chain_from};

use crate::lent::{Entries, LiveChain};
use crate::write::write_chain;
use memory::chain::chain_length;
use model::ScanError;

// The chain of bucket b, whose head the caller has read, and what comes next, which the caller knows. Nothing is written
// before the chain was tested and the room is known.
pub fn hand_out(
    entries: Entries,
    chain: LiveChain,
    list: &mut [u32],
    b: usize,
    next: u32,
) -> Result<(u32, u32), ScanError>
    requires { chain.used ≤ entries.capacity }
    ensures { after result list.new
        ≡ scanned entries.entry.fields.now list.old next (chain_from entries.entry chain b) }
{
    let count = chain_length(
        entries.fields,
        entries.capacity,
        chain.used,
        chain.head,
        chain.size,
        b,
    )?;
    if list.len() < count as usize * 2 {
        return Err(ScanError::Short(count));
    }
    write_chain(chain.head, entries.fields, list);
    Ok((next, count))
}
