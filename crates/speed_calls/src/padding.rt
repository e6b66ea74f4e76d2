// The padding behind an order, and the state that is hidden with it.
use model::State;

// The longest order has 24 bytes, so one that reaches into the second half of its room is bad. Behind a good one that half is
// 0, and the state is hidden with it.
pub const ORDER_ROOM: usize = 64;

// The same state, since the padding behind an order is 0: but no compiler knows that, so none can drop a test of a state
// whose start, or whose rehash's or pass's start, it has seen. Where a caller keeps the state between calls none could
// either. Each field has a byte of its own: one for all would tell the compiler that the flags are equal.
pub fn hide(s: State, padding: &[u8; ORDER_ROOM]) -> State {
    State {
        second_is_current: s.second_is_current ^ (padding[32] != 0),
        old_size: s.old_size ^ u32::from(padding[33]),
        new_size: s.new_size ^ u32::from(padding[34]),
        old_used: s.old_used ^ u32::from(padding[35]),
        new_used: s.new_used ^ u32::from(padding[36]),
        rehashing: s.rehashing ^ (padding[37] != 0),
        rehash_index: s.rehash_index ^ u32::from(padding[38]),
        free_head: s.free_head ^ u32::from(padding[39]),
        capacity: s.capacity ^ u32::from(padding[40]),
        resize_allowed: s.resize_allowed ^ (padding[41] != 0),
        safe_iterators: s.safe_iterators ^ u32::from(padding[42]),
    }
}
