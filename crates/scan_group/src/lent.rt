// What a sound state says of the lent buffers, as types: the entries, a live table, a chain of one, and the group of a cursor
// with two of them. Whoever makes one shows that it fits, and nothing below asks again.
ghost use Rattle.std.specs.Prelude.{◌≡◌, ◌*◌, ◌<◌, ◌≤◌, true, length, slice_index};
ghost use Rattle.model.specs.Keys.{bucket_of};
ghost use Rattle.model.specs.Limits.{legal_size};

use memory::state::bucket_index;

// The entry buffer, long enough for the capacity.
#[derive(Clone, Copy)]
pub struct Entries<'a> {
    pub fields: &'a [u32],
    pub capacity: u32,
    ghost entries_fit: { capacity * 3 ≤ length fields.now },
}

// A live table: its buckets, its size and the keys that it holds.
#[derive(Clone, Copy)]
pub struct LiveTable<'a> {
    pub buckets: &'a [u32],
    pub size: u32,
    pub used: u32,
    ghost legal: { legal_size size ≡ true },
    ghost buckets_fit: { size ≤ length buckets.now },
}

// A bucket's chain as it is read: its first entry, 0 where there is none, and its table's size and keys. The buckets are not
// asked for.
#[derive(Clone, Copy)]
pub struct LiveChain {
    pub head: u32,
    pub size: u32,
    pub used: u32,
    ghost legal: { legal_size size ≡ true },
}

// What a call on a sound state reads: the entries, the old table or the only one, and during a rehash the new one.
#[derive(Clone, Copy)]
pub struct Lent<'a> {
    pub entries: Entries<'a>,
    pub old: LiveTable<'a>,
    pub new: Option<LiveTable<'a>>,
}

// The group of a cursor with two live tables (SPECIFICATION, "The walk"): of the smaller one the chain of the cursor's bucket.
#[derive(Clone, Copy)]
pub struct Group<'a> {
    pub entries: Entries<'a>,
    pub small: LiveChain,
    pub large: LiveTable<'a>,
    pub cursor: u32,
    ghost smaller: { small.size < large.size },
}

impl LiveTable<'_> {
    // The bucket that a cursor names.
    pub fn bucket(self, cursor: u32) -> usize
        ensures { (result ≡ bucket_of cursor self.entry.size) × (result < self.entry.size) }
    {
        bucket_index(cursor, self.size)
    }

    // The first entry of its chain, 0 where there is none.
    pub fn head(self, b: usize) -> u32
        requires { b < self.size }
        ensures { result ≡ slice_index self.entry.buckets.now b }
    {
        self.buckets[b]
    }

    // The chain of a bucket.
    pub fn chain(self, b: usize) -> LiveChain
        requires { b < self.size }
        ensures { (result.head ≡ slice_index self.entry.buckets.now b) × (result.size ≡ self.entry.size)
            × (result.used ≡ self.entry.used) }
    {
        LiveChain {
            head: self.head(b),
            size: self.size,
            used: self.used,
        }
    }
}
