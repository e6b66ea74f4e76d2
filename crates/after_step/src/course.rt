// What is asked of the chain that a rehash step will move, before the step and from one pass over it: whether the step is
// refused, what a lookup would answer after it, and an entry's link then. The step goes by that, and reads the chain for its
// soundness no second time.
ghost use Rattle.std.specs.Prelude.{◌≡◌, true, ◌≤◌, ◌<◌, length};
ghost use Rattle.model.specs.Memory.{link_of};
ghost use Rattle.model.specs.Calls as calls;
ghost use Rattle.model.proofs.Soundness.{Sound};
ghost use Rattle.dict_rehash.specs.MovedChains.{old_chain};
ghost use Rattle.after_step.specs.Presence.{entries_after};
ghost use Rattle.after_step.specs.Told.{Moves};
ghost use Rattle.after_step.specs.Course.{GoesChain, ForeseenChain};

use crate::link::link_moved;
use crate::presence::{Asked, Chain, new_then, old_then, survey_chain};
use memory::entry::link_of;
use memory::state::bucket_index;
use model::{Error, State};

// What is known of a chain of the old table that is to move.
#[derive(Clone, Copy)]
pub struct ChainSight {
    // The bucket that it is in.
    pub bucket: u32,
    // How many entries it has.
    pub count: u32,
    // Whether the key is held after the step.
    pub held: bool,
    // Whether one of the entries is the one asked for.
    pub meets: bool,
}

// The chain of bucket b of the old table moves, if it is sound: all of its keys leave that table. Those of the key's bucket in
// the new table come before the chain that is there, and take so much of the budget. It is built into what asks: add and delete
// both do, and a sight that is handed up goes through memory.
#[inline(always)]
pub fn foresee_chain(
    current: &[u32],
    other: &[u32],
    entries: &[u32],
    s: State,
    b: u32,
    key: u32,
    n: u32,
) -> Result<ChainSight, Error>
    requires { Moves s current.now other.now entries.now b }
    ensures { ForeseenChain s current.now other.now entries.now key n
        (calls.moved_chain s current.now other.now entries.now b
        (old_chain s current.now entries.now b)) b result }
{
    let from = b as usize;
    let chain = Chain {
        size: s.old_size,
        bucket: from,
        head: current[from],
        budget: s.old_used,
    };
    let asked = Asked {
        key,
        size: s.new_size,
        bucket: bucket_index(key, s.new_size),
        entry: n,
    };
    let moving = survey_chain(entries, s.capacity, chain, asked)?;
    let left = s.old_used - moving.count;
    let in_old = old_then(current, entries, s, key, from, left)?;
    let budget = s.new_used + moving.count - moving.joining;
    let in_new = new_then(other, entries, s, key, budget, moving)?;
    Ok(ChainSight {
        bucket: b,
        count: moving.count,
        held: in_old | in_new,
        meets: moving.meets,
    })
}

// The link of the entry asked for, as that chain's move leaves it: as it is, unless the entry is on the chain.
pub fn link_beside(
    current: &[u32],
    other: &[u32],
    entries: &[u32],
    s: State,
    chain: ChainSight,
    n: u32,
) -> u32
    requires sound { Sound s (length current.now) (length other.now) (length entries.now) }
    requires rehashing { (s.rehashing ≡ true) × (0 < n) × (n ≤ s.capacity) }
    requires goes_chain { GoesChain s current.now other.now entries.now n
        (calls.step_taken s current.now other.now entries.now) chain }
    ensures { result ≡ link_of (entries_after
        (calls.step_taken s current.now other.now entries.now)) n }
{
    if chain.meets {
        let head = current[chain.bucket as usize];
        link_moved(other, entries, s.new_size, head, chain.count, n)
    } else {
        link_of(entries, n)
    }
}
