// The walk call: the group of a cursor, in one live table or two.
ghost use Rattle.std.specs.Prelude.{◌≡◌, ◌+◌, ◌≤◌};
ghost use Rattle.cursor.specs.Group.{one_table};
ghost use Rattle.model.specs.Keys.{bucket_of};
ghost use Rattle.model.specs.Walk as walk;
ghost use Rattle.model.specs.Walk.AfterScan.{after};
ghost use Rattle.scan_group.specs.Chains.{table_chain};
ghost use Rattle.dict_scan.specs.Groups.{scanned_two};

use cursor::next_cursor;
use memory::state::require_sound;
use model::{ScanError, State};
use scan_group::hand_out::hand_out;
use scan_group::lent::{Entries, Group, LiveTable};
use scan_group::orient::orient;

// One live table: the chain of the cursor's bucket.
fn scan_one(
    entries: Entries,
    table: LiveTable,
    list: &mut [u32],
    cursor: u32,
) -> Result<(u32, u32), ScanError>
    requires { table.used ≤ entries.capacity }
    ensures { after result list.new
        ≡ walk.scanned entries.entry.fields.now list.old (one_table table.entry.size cursor).answered
        (table_chain entries.entry table.entry (bucket_of cursor table.entry.size)) }
{
    let next = next_cursor(table.size, cursor);
    let b = table.bucket(cursor);
    hand_out(entries, table.chain(b), list, b, next)
}

// Two live tables: the chain of the smaller one's bucket, then those of the larger one's buckets. A group with more entries
// than keys are held is damaged. The next cursor is that of the smaller size.
fn scan_two(group: Group, list: &mut [u32]) -> Result<(u32, u32), ScanError>
    requires { group.small.used + group.large.used ≤ group.entries.capacity }
    ensures { after result list.new ≡ scanned_two group.entry list.old }
{
    let next = next_cursor(group.small.size, group.cursor);
    let keys = group.small.used + group.large.used;
    let total = group.count(keys)?;
    if list.len() < total as usize * 2 {
        return Err(ScanError::Short(total));
    }
    group.write(list);
    Ok((next, total))
}

// With no keys held no chain is read. During a rehash two tables are live, at any other time one.
pub fn scan(
    first: &[u32],
    second: &[u32],
    entries: &[u32],
    list: &mut [u32],
    s: State,
    cursor: u32,
) -> Result<(u32, u32), ScanError>
    ensures { after result list.new
        ≡ walk.scan s first.now second.now entries.now list.old cursor }
{
    require_sound(first.len(), second.len(), entries.len(), s)?;
    if s.old_used + s.new_used == 0 {
        return Ok((0, 0));
    }
    let lent = orient(first, second, entries, s);
    match lent.new {
        None => scan_one(lent.entries, lent.old, list, cursor),
        Some(new) => {
            let group = Group::new(lent.entries, lent.old, new, cursor);
            scan_two(group, list)
        }
    }
}
