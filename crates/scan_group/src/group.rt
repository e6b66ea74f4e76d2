// The two live tables of a walk call in the order of its group, and the larger one's buckets.
ghost use Rattle.std.specs.Prelude.{◌≡◌, ◌≢◌};
ghost use Rattle.scan_group.specs.Chains.{larger_buckets};
ghost use Rattle.scan_group.specs.Lent.{InOrder};
ghost use Rattle.scan_group.specs.Sweep.{buckets_left};

use crate::lent::{Entries, Group, LiveTable};
use crate::sweep::Sweep;

impl<'a> Group<'a> {
    // The smaller table comes first, whichever is the new one. Of it only the head of the cursor's bucket is read.
    pub fn new(
        entries: Entries<'a>,
        old: LiveTable<'a>,
        new: LiveTable<'a>,
        cursor: u32,
    ) -> Group<'a>
        requires { old.size ≢ new.size }
        ensures { InOrder entries.entry old.entry new.entry cursor result }
    {
        if old.size < new.size {
            Group {
                entries,
                small: old.chain(old.bucket(cursor)),
                large: new,
                cursor,
            }
        } else {
            Group {
                entries,
                small: new.chain(new.bucket(cursor)),
                large: old,
                cursor,
            }
        }
    }

    #[tactic(auto, unfolding(crate::specs::Sweep::buckets_left))]
    pub(crate) fn larger(self) -> Sweep
        ensures { buckets_left result.small result.large result.next ≡ larger_buckets self.entry }
    {
        Sweep {
            small: self.small.size,
            large: self.large.size,
            next: Some(self.cursor),
        }
    }
}
