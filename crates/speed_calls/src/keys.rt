// The keys, and the ways through them. They are scattered numbers or the cells of a die.
use model::LARGEST_CAPACITY;

// As many keys as the largest store can hold, and as many buckets.
pub const MAX_KEYS: usize = LARGEST_CAPACITY as usize;

// As many keys as there are where they are cells. These come in turn, so they need be no power of two.
pub const CELLS: usize = 65000;

// The generator of Park and Miller, "minimal standard": below its prime it meets every number but 0 before it repeats one.
const MULTIPLIER: u64 = 48271;

const PRIME: u64 = 2147483647;

// What the keys are.
#[derive(Clone, Copy)]
pub enum Keys {
    // Scattered numbers.
    Scattered,
    // The cells of so many scan chains, in turn.
    Cells(u32),
}

// The number after one of them. It also seeds the rounds.
pub fn next_key(key: u32) -> u32 {
    (key as u64 * MULTIPLIER % PRIME) as u32
}

// A fixed sequence without a repetition, scattered so that the chains of a full table come in the lengths of a table whose
// keys are random, from none to a handful.
fn scatter(keys: &mut [u32]) {
    let mut key = 1;
    for place in keys.iter_mut() {
        key = next_key(key);
        *place = key;
    }
}

// The cell of that number, where so many scan chains take turns: its scan chain stands above its position.
fn cell(number: u32, scan_chains: u32) -> u32 {
    if 0 < scan_chains {
        ((number % scan_chains) << 16) | (number / scan_chains)
    } else {
        number
    }
}

// Cells spread evenly over so many scan chains, from position 0 on. In the largest table a cell's bucket is its position,
// so there a bucket has as many keys as there are scan chains.
fn spread(keys: &mut [u32], scan_chains: u32) {
    let mut number: u32 = 0;
    for place in keys.iter_mut() {
        *place = cell(number, scan_chains);
        number = number.wrapping_add(1);
    }
}

pub fn make_keys(keys: &mut [u32], kind: Keys) {
    match kind {
        Keys::Scattered => scatter(keys),
        Keys::Cells(scan_chains) => spread(keys, scan_chains),
    }
}

// A way through the keys: from a place on, the same step again and again. A mask brings each place back among theirs.
#[derive(Clone, Copy)]
pub struct Path {
    pub at: usize,
    pub step: usize,
    pub mask: usize,
}

// Through all of so many scattered keys. They are a power of two, and the step is odd, so that each gets its turn.
// Another way for each seed, so that a processor cannot learn the branches of one round from those of the round before:
// the place is made of the seed's lowest bits, the step of those above its lowest fifteen.
pub fn scattered_path(keys: usize, seed: u32) -> Path {
    let mask = keys.wrapping_sub(1);
    Path {
        at: seed as usize & mask,
        step: ((seed >> 15) as usize & mask) | 1,
        mask,
    }
}

// Scattered keys come in the seed's order, cells in turn, as a log has them.
pub fn path_of(keys: usize, kind: Keys, seed: u32) -> Path {
    match kind {
        Keys::Scattered => scattered_path(keys, seed),
        Keys::Cells(_) => Path {
            at: 0,
            step: 1,
            mask: usize::MAX,
        },
    }
}

impl Path {
    pub(crate) fn next(self) -> Path {
        Path {
            at: self.at.wrapping_add(self.step) & self.mask,
            ..self
        }
    }
}

// The key at a place; there are no others.
pub(crate) fn key_at(keys: &[u32], path: Path) -> u32 {
    number_at(keys, path.at)
}

// A number of a buffer, 0 where there is none.
pub fn number_at(buffer: &[u32], at: usize) -> u32 {
    buffer.get(at).copied().unwrap_or(0)
}
