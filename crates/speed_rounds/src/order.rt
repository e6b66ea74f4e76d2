// What is to be timed.
use speed_calls::keys::Keys;

// What a round does that starts the store anew.
#[derive(Clone, Copy)]
pub enum Build {
    // Adds every key.
    Adds,
    // Adds every key to a table that starts with a few buckets.
    Growth,
    // Adds every key, and then deletes them all.
    Deletes,
    // Adds half of the keys to half as many buckets, and begins a rehash (the specification's move).
    Halves,
    // The same, with adds during the rehash.
    HalvesAndAdds,
    // The same, with deletes during the rehash.
    HalvesAndDeletes,
}

// What a round does with the full store.
#[derive(Clone, Copy)]
pub enum Use {
    // Finds every key.
    Finds,
    // Gives every key another value.
    Updates,
    // Walks the whole store, from cursor 0 to cursor 0.
    Walks,
    // Goes through the whole store with a safe iterator (the specification's careful pass).
    Passes,
    // Verifies the whole store (the specification's check).
    Verifies,
}

// What every round does.
#[derive(Clone, Copy)]
pub enum Work {
    Builds(Build),
    Uses(Use),
    // Repairs the whole store, as it is (the specification's mend).
    Repairs,
}

// So many rounds on a store of that capacity, which is filled in a table of as many buckets.
#[derive(Clone, Copy)]
pub struct Order {
    pub work: Work,
    pub capacity: u32,
    // Scattered ones are as many as the capacity.
    pub keys: Keys,
    pub rounds: u32,
}
