// The larger table's buckets of a group, which the two readings both go through. The next cursor of a size is below that
// size, so its bits between the two sizes are zero once it is below the smaller one.
ghost use Rattle.std.specs.Prelude.{◌≡◌, ◌<◌, true};
ghost use Rattle.std.specs.Iterator.{YieldsFirst, item_count};
ghost use Rattle.model.specs.Limits.{legal_size};
ghost use Rattle.scan_group.specs.Sweep.{buckets_left};

use cursor::next_cursor;
use memory::state::bucket_index;

#[derive(Drop)]
pub(crate) struct Sweep {
    pub(crate) small: u32,
    pub(crate) large: u32,
    // The cursor of the next bucket.
    pub(crate) next: Option<u32>,
    ghost small_legal: { legal_size small ≡ true },
    ghost large_legal: { legal_size large ≡ true },
    ghost smaller: { small < large },
}

impl Iterator for Sweep {
    type Item = usize;

    ghost next_gives = { YieldsFirst (λ s. buckets_left s.small s.large s.next) };

    ghost remaining = { item_count (λ s. buckets_left s.small s.large s.next) };

    fn next(&mut self) -> Option<usize> {
        let at = self.next?;
        let turned = next_cursor(self.large, at);
        self.next = (self.small <= turned).then_some(turned);
        Some(bucket_index(at, self.large))
    }
}
