// The first check: the lengths of what is lent, and the state's flags.
ghost use Rattle.std.specs.Prelude.{◌≡◌, ◌&&◌, false, IfNone, IfSome, length};
ghost use Rattle.little_endian.specs.Words.{decode};
ghost use Rattle.lent_bytes.specs.Exports.{whole_up_to, lengths_fit, flags_fit};
ghost use Rattle.lent_bytes.specs.Checked.{Passed};

use crate::answer::ANSWER_BYTES;
use crate::state::{STATE_BYTES, read_state};
use model::State;

// The most cells of a store over bytes, and the most buckets of its tables.
pub const MOST_CELLS: usize = 4096;

const MOST_BUCKET_BYTES: usize = 4 * MOST_CELLS;

// An entry is three numbers.
const MOST_ENTRY_BYTES: usize = 3 * 4 * MOST_CELLS;

// The lengths, in bytes, of what is lent beside the state. The list's is 0 where a call takes none.
#[derive(Clone, Copy)]
pub struct Lengths {
    pub first: usize,
    pub second: usize,
    pub entries: usize,
    pub list: usize,
    pub answer: usize,
}

#[tactic(auto, unfolding(crate::specs::Exports::whole_up_to))]
fn is_whole_up_to(most: usize, bytes: usize) -> bool
    ensures { result ≡ whole_up_to most bytes }
{
    bytes % 4 == 0 && bytes <= most
}

impl Lengths {
    #[tactic(auto, unfolding(crate::specs::Exports::state_bytes, crate::specs::Exports::answer_bytes, crate::specs::Exports::most_bucket_bytes, crate::specs::Exports::most_entry_bytes, crate::specs::Exports::lengths_fit,))]
    pub fn fit(self, state: &[u8]) -> bool
        ensures { result ≡ lengths_fit (length state.now) self.first self.second self.entries self.list self.answer }
    {
        state.len() == STATE_BYTES
            && self.answer == ANSWER_BYTES
            && is_whole_up_to(MOST_BUCKET_BYTES, self.first)
            && is_whole_up_to(MOST_BUCKET_BYTES, self.second)
            && is_whole_up_to(MOST_ENTRY_BYTES, self.entries)
            && self.list % 4 == 0
    }

    // The whole check of a call that reads a state, and the state that it reads.
    pub fn state(self, state: &[u8]) -> Option<State>
        ensures none { IfNone result ((lengths_fit (length state.now) self.first self.second self.entries self.list self.answer
            && flags_fit (decode state.now)) ≡ false) }
        ensures some { IfSome result (Passed state.now self.first self.second self.entries self.list self.answer) }
    {
        if self.fit(state) {
            read_state(state)
        } else {
            None
        }
    }
}
