// The chains of one table.
ghost use Rattle.std.specs.Prelude.{◌≡◌, ◌≤◌, length};
ghost use Rattle.model.specs.Verify.{all_empty};
ghost use Rattle.verify.specs.Checked.{Tabled, table_checked};

use memory::chain::chain_length;

// Whether they are sound, and together as long as the table's count says. What the chains before leave of the count is the budget
// of the next, so no more entries are read than the count says, even where chains loop or share entries.
pub fn table_checked(buckets: &[u32], entries: &[u32], capacity: u32, used: u32, size: u32) -> bool
    requires { Tabled size (length buckets.now) capacity (length entries.now) }
    ensures { result ≡ table_checked entries.now capacity used buckets.now size }
{
    let mut left = used;
    for (b, head) in buckets[..size as usize].iter().enumerate() {
        let Ok(n) = chain_length(entries, capacity, left, *head, size, b) else {
            return false;
        };
        left -= n;
    }
    left == 0
}

// Whether the first so many buckets are empty.
pub fn all_empty(buckets: &[u32], count: u32) -> bool
    requires { count ≤ length buckets.now }
    ensures { result ≡ all_empty buckets.now count }
{
    buckets[..count as usize].iter().all(|head| *head == 0)
}
