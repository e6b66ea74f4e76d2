// The types of the store: the state that its caller holds, and why a call refuses. A call answers a `Result`: the state that it
// leaves, or what it was asked for. What the calls mean is in specs/.
#![tactic(auto)]

ghost use Rattle.std.specs.Prelude.{◌≡◌};
ghost use Rattle.model.specs.declared.ScanError.TheVariants.{Refused};

// The most entries that a store can have.
pub const LARGEST_CAPACITY: u32 = 65536;

// The most buckets that a table can have.
pub const LARGEST_SIZE: u32 = 65536;

// The most empty buckets that a step passes.
pub const EMPTY_VISITS: u32 = 10;

// The smallest size that is suggested.
pub const LEAST_SUGGESTION: u32 = 4;

// With more than so many keys for each bucket a table grows, whether that is allowed or not.
pub const FORCE_RATIO: u32 = 5;

// The most safe iterators at a time.
pub const MOST_SAFE_ITERATORS: u32 = 255;

// What the caller holds between calls (SPECIFICATION, "The memory"), in the order given there.
#[derive(Clone, Copy)]
pub struct State {
    // Which bucket buffer is the current one: the second, or else the first.
    pub second_is_current: bool,
    // The sizes of the live tables. The old table lies in the current buffer. The new one lies in the other buffer
    // during a rehash; at any other time its size is 0.
    pub old_size: u32,
    pub new_size: u32,
    // The keys held in each table.
    pub old_used: u32,
    pub new_used: u32,
    // Whether a rehash (the specification's move) is under way, and the next bucket of the old table to move.
    pub rehashing: bool,
    pub rehash_index: u32,
    // The first entry of the free list, 0 where there is none.
    pub free_head: u32,
    pub capacity: u32,
    // Whether a table with as many keys as buckets may grow by itself (the specification's permission).
    pub resize_allowed: bool,
    // How many safe iterators have begun and not ended (the specification's pause count). While there are any, no key moves.
    pub safe_iterators: u32,
}

// Why a call refused (SPECIFICATION, "Answers"). A walk call, or one that iterates, may also be short of room: `ScanError`.
#[derive(Clone, Copy)]
pub enum Error {
    BadState,
    Damaged,
    Absent,
    Present,
    Full,
    BadSize,
    Rehashing,
    NotRehashing,
    // An iterator's end: the fingerprint is another than at its begin.
    Changed,
    // A safe iterator's end: none has begun.
    NoSafeIterator,
    // A safe iterator's begin: there are as many as there can be.
    TooManyIterators,
    // A step: a safe iterator holds up the rehash.
    Paused,
}

// The two live tables. The only one counts as the old one.
#[derive(Clone, Copy)]
pub enum Table {
    Old,
    New,
}

// Where a key is, after its chains were read.
#[derive(Clone, Copy)]
pub enum Lookup {
    // A chain is not sound.
    Damaged,
    // The chains are sound, and the key is on none.
    Absent,
    // The first entry with the key: in which table, and the entry before it on its chain, 0 at the head.
    At {
        table: Table,
        before: u32,
        entry: u32,
    },
}

// What a step meets in the old table, from the next bucket on.
#[derive(Clone, Copy)]
pub enum Ahead {
    // The first filled bucket.
    Filled(u32),
    // As many empty buckets as a step passes; this one comes behind them.
    Empty(u32),
    // The table's end.
    End,
}

// Why a start refused, and the state of zeros that it hands back.
#[derive(Clone, Copy)]
pub struct Unstarted {
    pub error: Error,
    pub state: State,
}

// Why a walk call, or one that iterates, handed nothing out: its list is short of room for so many keys, or it refused.
#[derive(Clone, Copy)]
pub enum ScanError {
    Short(u32),
    Refused(Error),
}

// So that `?` hands a refusal on.
impl From<Error> for ScanError {
    ghost from_gives = { λ e refusal. refusal ≡ Refused e };

    fn from(e: Error) -> ScanError {
        ScanError::Refused(e)
    }
}
