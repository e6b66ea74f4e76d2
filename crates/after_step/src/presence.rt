// Whether a key is held in the memory after a rehash step that moves a chain, told before the step from what is read of the
// memory as it is. `course` asks it, and says what the step does besides.
ghost use Rattle.std.specs.Prelude.{◌≡◌, true, ◌*◌, ◌≤◌, length};
ghost use Rattle.model.specs.Keys.{bucket_of};
ghost use Rattle.model.specs.Limits.{legal_size};
ghost use Rattle.model.specs.Memory as mem;
ghost use Rattle.memory.specs.Length.{bucket_chain};
ghost use Rattle.search.specs.Tables.{Readable};
ghost use Rattle.after_step.specs.Told.{surveyed, found_presence, new_then, old_then};

use memory::entry::{key_of, link_of};
use memory::state::bucket_index;
use model::{Error, State};
use search::found::entry_in;

// What one pass over a sound chain tells.
#[derive(Clone, Copy)]
pub struct Survey {
    // How many entries.
    pub count: u32,
    // The last of them, 0 if there is none.
    pub last: u32,
    // How many have a key of the bucket asked for.
    pub joining: u32,
    // Whether one has the key.
    pub held: bool,
    // Whether one is the entry asked for.
    pub meets: bool,
}

// A chain that is to be read: that of a bucket in a table of that size, from its head on.
#[derive(Clone, Copy)]
pub struct Chain {
    pub size: u32,
    pub bucket: usize,
    pub head: u32,
    // The most entries that it may have.
    pub budget: u32,
}

// What is asked of the entries of a chain.
#[derive(Clone, Copy)]
pub struct Asked {
    // Whether one has this key.
    pub key: u32,
    // How many have a key of this bucket, in a table of that size.
    pub size: u32,
    pub bucket: usize,
    // Whether this entry is one of them.
    pub entry: u32,
}

// The chain is read to its end, as every chain is.
pub fn survey_chain(
    entries: &[u32],
    capacity: u32,
    chain: Chain,
    asked: Asked,
) -> Result<Survey, Error>
    requires entries_fit { capacity * 3 ≤ length entries.now }
    requires legal { (legal_size chain.size ≡ true) × (legal_size asked.size ≡ true) }
    ensures { result ≡ surveyed entries.now asked.size asked.bucket asked.key asked.entry
        (mem.chain (mem.in_bucket chain.size chain.bucket) entries.now capacity chain.budget chain.head) }
{
    let mut at = chain.head;
    let mut left = chain.budget;
    let mut last = 0;
    let mut joining = 0;
    let mut held = false;
    let mut meets = false;
    while at != 0 {
        if (left == 0) | (capacity < at) {
            return Err(Error::Damaged);
        }
        let met = key_of(entries, at);
        if bucket_index(met, chain.size) != chain.bucket {
            return Err(Error::Damaged);
        }
        left -= 1;
        last = at;
        joining += u32::from(bucket_index(met, asked.size) == asked.bucket);
        held |= met == asked.key;
        meets |= at == asked.entry;
        at = link_of(entries, at);
    }
    Ok(Survey {
        count: chain.budget - left,
        last,
        joining,
        held,
        meets,
    })
}

// Whether the key is held, without the entry that the search found.
pub fn presence_of(found: Result<Option<u32>, Error>) -> Result<bool, Error>
    ensures { result ≡ found_presence found }
{
    Ok(found?.is_some())
}

// In the new table then, from the key's chain there as it is, with so much of its budget left to it. The chain that moves may have
// the key too. A chain that ends in the same entry shares entries with it, and would lead back into itself.
pub(crate) fn new_then(
    other: &[u32],
    entries: &[u32],
    s: State,
    key: u32,
    budget: u32,
    moving: Survey,
) -> Result<bool, Error>
    requires { Readable s.new_size (length other.now) s.capacity (length entries.now) }
    ensures { result ≡ new_then entries.now key moving.last moving.held
        (bucket_chain s.new_size entries.now s.capacity budget other.now (bucket_of key s.new_size)) }
{
    let size = s.new_size;
    let bucket = bucket_index(key, size);
    let head = other[bucket];
    let chain = Chain {
        size,
        bucket,
        head,
        budget,
    };
    // No entry is numbered 0.
    let asked = Asked {
        key,
        size,
        bucket,
        entry: 0,
    };
    let there = survey_chain(entries, s.capacity, chain, asked)?;
    if there.last == moving.last {
        return Err(Error::Damaged);
    }
    Ok(moving.held | there.held)
}

// In the old table then, once the chain of bucket b has left it, and so many keys are left. With none left the table is
// gone, and bucket b is empty: either way there is no chain to read.
pub(crate) fn old_then(
    current: &[u32],
    entries: &[u32],
    s: State,
    key: u32,
    b: usize,
    left: u32,
) -> Result<bool, Error>
    requires { Readable s.old_size (length current.now) s.capacity (length entries.now) }
    ensures { result ≡ old_then entries.now s.capacity left current.now s.old_size b key }
{
    if (left == 0) | (bucket_index(key, s.old_size) == b) {
        Ok(false)
    } else {
        presence_of(entry_in(entries, s.capacity, left, current, s.old_size, key))
    }
}
