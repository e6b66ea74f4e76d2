// Whether a state is sound, and a key's bucket.
ghost use Rattle.std.specs.Prelude.{◌≡◌, ◌<◌, true, false, if◌then◌else◌, MatchResult};
ghost use Rattle.model.specs.declared.Error.{Error};
ghost use Rattle.model.specs.Keys.{bucket_of};
ghost use Rattle.model.specs.Limits.{legal_size};
ghost use Rattle.model.specs.Memory.{sound_capacity, sound_table, sound_base, sound_state};
ghost use Rattle.memory.specs.Lent.{sound_lent};

use model::{Error, LARGEST_CAPACITY, LARGEST_SIZE, MOST_SAFE_ITERATORS, State};

pub fn is_legal_size(n: u32) -> bool
    ensures { result ≡ legal_size n }
{
    (n <= LARGEST_SIZE) & n.is_power_of_two()
}

// Whether the entry buffer, of that length, is long enough for a capacity within the limit.
pub fn is_sound_capacity(entries: usize, capacity: u32) -> bool
    ensures { result ≡ sound_capacity entries capacity }
{
    (1 <= capacity) & (capacity <= LARGEST_CAPACITY) & (capacity as usize * 3 <= entries)
}

// Whether a bucket buffer of that length is long enough for a table of a legal size.
pub fn is_sound_table(buffer: usize, size: u32) -> bool
    ensures { result ≡ sound_table buffer size }
{
    is_legal_size(size) & (size as usize <= buffer)
}

// What is asked of a state whether or not a rehash is under way.
fn is_sound_base(current: usize, entries: usize, s: State) -> bool
    ensures { result ≡ sound_base current entries s }
{
    let held = s.old_used as u64 + s.new_used as u64;
    is_sound_capacity(entries, s.capacity)
        & is_sound_table(current, s.old_size)
        & (held <= s.capacity as u64)
        & (s.free_head <= s.capacity)
        & (s.safe_iterators <= MOST_SAFE_ITERATORS)
}

// The lent buffers enter by their lengths. The two cases part first, so that one call tests one of them.
pub fn is_sound(current: usize, other: usize, entries: usize, s: State) -> bool
    ensures { result ≡ sound_state current other entries s }
{
    if s.rehashing {
        is_sound_base(current, entries, s)
            & (is_sound_table(other, s.new_size)
                & (s.old_size != s.new_size)
                & (s.rehash_index <= s.old_size))
    } else {
        is_sound_base(current, entries, s)
            & ((s.new_size == 0) & (s.new_used == 0) & (s.rehash_index == 0))
    }
}

// The same state, made anew field by field. A state that goes to a call or comes back from one lies in memory, whole, with the
// bytes between its fields. Where that is a copy made by this function, the state of the quick path need not lie there too.
#[inline(always)]
pub fn by_fields(s: State) -> State
    ensures { result ≡ s }
{
    State {
        second_is_current: s.second_is_current,
        old_size: s.old_size,
        new_size: s.new_size,
        old_used: s.old_used,
        new_used: s.new_used,
        rehashing: s.rehashing,
        rehash_index: s.rehash_index,
        free_head: s.free_head,
        capacity: s.capacity,
        resize_allowed: s.resize_allowed,
        safe_iterators: s.safe_iterators,
    }
}

// The state t, written field by field over a copy of s. So a call that ends by several ways answers a copy of the state that it
// was given by each of them, and what lies between the fields is not carried along.
#[inline(always)]
pub fn written_over(s: State, t: State) -> State
    ensures { result ≡ t }
{
    let mut n = s;
    n.second_is_current = t.second_is_current;
    n.old_size = t.old_size;
    n.new_size = t.new_size;
    n.old_used = t.old_used;
    n.new_used = t.new_used;
    n.rehashing = t.rehashing;
    n.rehash_index = t.rehash_index;
    n.free_head = t.free_head;
    n.capacity = t.capacity;
    n.resize_allowed = t.resize_allowed;
    n.safe_iterators = t.safe_iterators;
    n
}

// The same of an answer.
#[inline(always)]
pub fn answered_over(s: State, answer: Result<State, Error>) -> Result<State, Error>
    ensures { result ≡ answer }
{
    match answer {
        Ok(t) => Ok(written_over(s, t)),
        Err(e) => Err(e),
    }
}

// One of the two by the flag: a length, a number of an entry, a lent buffer.
#[inline(always)]
pub fn choose<T: Copy>(flag: bool, yes: T, no: T) -> T
    ensures { result ≡ (if flag then yes else no) }
{
    if flag { yes } else { no }
}

// The same on the lent bucket buffers. It chooses lengths and not buffers, so that a call can test before it orients.
pub fn is_sound_lent(first: usize, second: usize, entries: usize, s: State) -> bool
    ensures { result ≡ sound_lent first second entries s }
{
    let current = choose(s.second_is_current, second, first);
    let other = choose(s.second_is_current, first, second);
    is_sound(current, other, entries, s)
}

// The first line of a call on the lent buffers: it refuses a state that is not sound beside them.
pub fn require_sound(first: usize, second: usize, entries: usize, s: State) -> Result<(), Error>
    ensures { MatchResult result (λ _. sound_lent first second entries s ≡ true)
        (λ e. (e ≡ Error.BadState) × (sound_lent first second entries s ≡ false)) }
{
    if is_sound_lent(first, second, entries, s) {
        Ok(())
    } else {
        Err(Error::BadState)
    }
}

// The lent bucket buffers as the current and the other one.
#[inline(always)]
pub fn oriented<'a>(s: State, first: &'a [u32], second: &'a [u32]) -> (&'a [u32], &'a [u32])
    ensures current { result.0.now ≡ (if s.second_is_current then second.now else first.now) }
    ensures other { result.1.now ≡ (if s.second_is_current then first.now else second.now) }
{
    if s.second_is_current {
        (second, first)
    } else {
        (first, second)
    }
}

// A legal size is a power of two, so its remainder is a mask.
pub fn bucket_index(key: u32, size: u32) -> usize
    requires { legal_size size ≡ true }
    ensures { (result ≡ bucket_of key size) × (result < size) }
{
    (key & (size - 1)) as usize
}
