// The state, as eleven numbers of four bytes.
ghost use Rattle.std.specs.Prelude.{◌≡◌, false, IfNone, IfSome, length};
ghost use Rattle.little_endian.specs.Words.{decode, encode};
ghost use Rattle.lent_bytes.specs.Exports.{state_numbers, state_bytes, flags_fit};
ghost use Rattle.lent_bytes.specs.Checked.{flag_from, StateGiven};

use little_endian::{read_numbers, write_numbers};
use model::State;

const STATE_NUMBERS: usize = 11;

pub const STATE_BYTES: usize = 4 * STATE_NUMBERS;

// A flag as a number: one above 1 is none.
#[tactic(auto, unfolding(crate::specs::Checked::flag_from))]
pub fn flag_of(number: u32) -> Option<bool>
    ensures { result ≡ flag_from number }
{
    match number {
        0 => Some(false),
        1 => Some(true),
        _ => None,
    }
}

// None where a flag is above 1.
#[tactic(auto, using(crate::proofs::Undoing::unfit_at_0, crate::proofs::Undoing::unfit_at_5, crate::proofs::Undoing::unfit_at_9,), unfolding(crate::specs::Exports::state_bytes))]
pub fn read_state(state: &[u8]) -> Option<State>
    requires { length state.now ≡ state_bytes }
    ensures none { IfNone result (flags_fit (decode state.now) ≡ false) }
    ensures some { IfSome result (λ s. StateGiven state.now s) }
{
    let mut n = [0; STATE_NUMBERS];
    read_numbers(state, &mut n);
    let second_is_current = flag_of(n[0])?;
    let rehashing = flag_of(n[5])?;
    let resize_allowed = flag_of(n[9])?;
    Some(State {
        second_is_current,
        old_size: n[1],
        new_size: n[2],
        old_used: n[3],
        new_used: n[4],
        rehashing,
        rehash_index: n[6],
        free_head: n[7],
        capacity: n[8],
        resize_allowed,
        safe_iterators: n[10],
    })
}

#[tactic(auto, unfolding(crate::specs::Exports::state_bytes, crate::specs::Exports::state_numbers, crate::specs::Exports::flag))]
pub fn write_state(state: &mut [u8], s: State)
    requires { length state.old ≡ state_bytes }
    ensures { state.new ≡ encode (state_numbers s) }
{
    let n = [
        u32::from(s.second_is_current),
        s.old_size,
        s.new_size,
        s.old_used,
        s.new_used,
        u32::from(s.rehashing),
        s.rehash_index,
        s.free_head,
        s.capacity,
        u32::from(s.resize_allowed),
        s.safe_iterators,
    ];
    write_numbers(&n, state);
}
