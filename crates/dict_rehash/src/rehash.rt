// One step of a rehash (SPECIFICATION, "Step").
ghost use Rattle.std.specs.Prelude.{◌≡◌, true, ◌+◌, ◌-◌, ◌*◌, ◌≤◌, ◌<◌, length, IfOk, Ok};
ghost use Rattle.model.specs.Limits.{legal_size, empty_visits};
ghost use Rattle.model.specs.Calls as calls;
ghost use Rattle.model.specs.Calls.After.{after};
ghost use Rattle.model.proofs.Soundness.{Sound};
ghost use Rattle.dict_rehash.specs.MovedChains.{old_chain, chains, step_room, OldChain, ChainOf, ChainMoved, EntryMoved};

use memory::chain::chain_length;
use memory::entry::{key_of, link_of, set_link};
use memory::state::{bucket_index, require_sound};
use model::{Ahead, EMPTY_VISITS, Error, State};

// What comes from that bucket on in a table of that size: a step passes only so many empty buckets, and must then see one
// more, filled or not, before the table's end. (Public for those who ask what a step would do.)
pub fn look_ahead(buckets: &[u32], from: u32, size: u32) -> Ahead
    requires { (from ≤ size) × (size ≤ length buckets.now) }
    ensures { result ≡ calls.ahead buckets.now from (size - from) empty_visits }
{
    let end = from + EMPTY_VISITS.min(size - from);
    match buckets[from as usize..end as usize]
        .iter()
        .position(|head| *head != 0)
    {
        Some(passed) => Ahead::Filled(from + passed as u32),
        None if end < size => Ahead::Empty(end),
        None => Ahead::End,
    }
}

// An entry to the head of its bucket in a table of that size; the answer is the next entry of the chain that it leaves.
// The link is read before the entry is linked anew.
fn move_entry(buckets: &mut [u32], entries: &mut [u32], size: u32, n: u32) -> u32
    requires legal { (legal_size size ≡ true) × (size ≤ length buckets.old) }
    requires is_entry { (0 < n) × (n * 3 ≤ length entries.old) }
    ensures { EntryMoved size n result (chains buckets.old entries.old)
        (chains buckets.new entries.new) }
{
    let rest = link_of(entries, n);
    let b = bucket_index(key_of(entries, n), size);
    let head = std::mem::replace(&mut buckets[b], n);
    set_link(entries, n, head);
    rest
}

// The chain of that many entries from its head, in turn, to a table of that size.
fn move_chain(buckets: &mut [u32], entries: &mut [u32], size: u32, head: u32, count: u32)
    requires legal { (legal_size size ≡ true) × (size ≤ length buckets.old) }
    requires chain_of { ChainOf entries.old head count }
    ensures { ChainMoved size head (chains buckets.old entries.old)
        (chains buckets.new entries.new) }
{
    let mut at = head;
    for _ in 0..count {
        at = move_entry(buckets, entries, size, at);
    }
}

// The state once so many keys have moved, and that bucket is the next one. With no keys left in the old table the rehash is
// over: the new table becomes the only one.
pub fn state_after(s: State, count: u32, next: u32) -> State
    requires { (count ≤ s.old_used) × (s.new_used + count ≤ s.capacity) }
    ensures { result ≡ calls.settled (calls.advanced s count next) }
{
    let new_used = s.new_used + count;
    if count == s.old_used {
        State {
            second_is_current: !s.second_is_current,
            old_size: s.new_size,
            new_size: 0,
            old_used: new_used,
            new_used: 0,
            rehashing: false,
            rehash_index: 0,
            ..s
        }
    } else {
        State {
            old_used: s.old_used - count,
            new_used,
            // It is so already in every state that comes here, but this function does not require it.
            rehashing: true,
            rehash_index: next,
            ..s
        }
    }
}

// The chain of bucket b of the old table, which was read before and has so many entries. (Public for those who have asked what
// a step would do.)
pub fn move_counted(
    current: &mut [u32],
    other: &mut [u32],
    entries: &mut [u32],
    s: State,
    b: u32,
    count: u32,
) -> (u32, State)
    requires sound { Sound s (length current.old) (length other.old) (length entries.old) }
    requires rehashing { (s.rehashing ≡ true) × (b < s.old_size) }
    requires old_chain { OldChain s current.old entries.old b count }
    ensures outcome { after (Ok result) current.new other.new entries.new
        ≡ calls.moved_chain s current.old other.old entries.old b
        (old_chain s current.old entries.old b) }
    ensures step_room { step_room s result.0 }
{
    let head = std::mem::replace(&mut current[b as usize], 0);
    move_chain(other, entries, s.new_size, head, count);
    (count, state_after(s, count, b + 1))
}

// The chain of bucket b of the old table. It is read once to test it, so that a refusal leaves the buffers as they were, and
// once to move it.
fn move_bucket(
    current: &mut [u32],
    other: &mut [u32],
    entries: &mut [u32],
    s: State,
    b: u32,
) -> Result<(u32, State), Error>
    requires sound { Sound s (length current.old) (length other.old) (length entries.old) }
    requires rehashing { (s.rehashing ≡ true) × (b < s.old_size) }
    ensures outcome { after result current.new other.new entries.new
        ≡ calls.moved_chain s current.old other.old entries.old b
        (old_chain s current.old entries.old b) }
    ensures step_room { IfOk result (λ r. step_room s r.0) }
{
    let index = b as usize;
    let head = current[index];
    let count = chain_length(entries, s.capacity, s.old_used, head, s.old_size, index)?;
    Ok(move_counted(current, other, entries, s, b, count))
}

// The first filled bucket from the next one on is the one that moves, unless as many empty ones come first as a step passes.
// The old table holds keys, so if its end comes first it is damaged.
fn move_next(
    current: &mut [u32],
    other: &mut [u32],
    entries: &mut [u32],
    s: State,
) -> Result<(u32, State), Error>
    requires sound { Sound s (length current.old) (length other.old) (length entries.old) }
    requires rehashing { s.rehashing ≡ true }
    ensures outcome { after result current.new other.new entries.new
        ≡ calls.moved_from s current.old other.old entries.old
        (calls.ahead_of s current.old) }
    ensures step_room { IfOk result (λ r. step_room s r.0) }
{
    match look_ahead(current, s.rehash_index, s.old_size) {
        Ahead::Filled(b) => move_bucket(current, other, entries, s, b),
        Ahead::Empty(b) => Ok((0, state_after(s, 0, b))),
        Ahead::End => Err(Error::Damaged),
    }
}

// During a rehash that no safe iterator holds up. With no keys in the old table the step only ends the rehash.
fn take_step(
    current: &mut [u32],
    other: &mut [u32],
    entries: &mut [u32],
    s: State,
) -> Result<(u32, State), Error>
    requires sound { Sound s (length current.old) (length other.old) (length entries.old) }
    requires rehashing { s.rehashing ≡ true }
    ensures outcome { after result current.new other.new entries.new
        ≡ calls.step_taken s current.old other.old entries.old }
    ensures step_room { IfOk result (λ r. step_room s r.0) }
{
    if s.old_used == 0 {
        Ok((0, state_after(s, 0, s.rehash_index)))
    } else {
        move_next(current, other, entries, s)
    }
}

// On the current and the other bucket buffer of a sound state: the tests in the order of the answers.
fn step_in(
    current: &mut [u32],
    other: &mut [u32],
    entries: &mut [u32],
    s: State,
) -> Result<(u32, State), Error>
    requires { Sound s (length current.old) (length other.old) (length entries.old) }
    ensures outcome { after result current.new other.new entries.new
        ≡ calls.stepped s current.old other.old entries.old s.rehashing }
    ensures step_room { IfOk result (λ r. step_room s r.0) }
{
    if !s.rehashing {
        return Err(Error::NotRehashing);
    }
    if s.safe_iterators != 0 {
        return Err(Error::Paused);
    }
    take_step(current, other, entries, s)
}

// Moves the chain of one bucket of the old table, or passes empty ones, and ends the rehash once that table holds no keys.
pub fn rehash_step(
    first: &mut [u32],
    second: &mut [u32],
    entries: &mut [u32],
    s: State,
) -> Result<(u32, State), Error>
    ensures { after result first.new second.new entries.new
        ≡ calls.rehash_step s first.old second.old entries.old }
{
    require_sound(first.len(), second.len(), entries.len(), s)?;
    // The state says which of the lent buffers is the current one. (Two buffers lent for change are chosen by two calls: a pair of
    // them that the flag puts in order gets no proof.)
    if s.second_is_current {
        step_in(second, first, entries, s)
    } else {
        step_in(first, second, entries, s)
    }
}
