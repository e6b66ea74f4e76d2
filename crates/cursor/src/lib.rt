// The cursor of a walk (Redis SCAN): it counts in reverse binary order, so that a table that grows
// or shrinks under a walk neither hides a bucket from it nor sends it back to the start.
#![tactic(auto)]

ghost use Rattle.std.specs.Prelude.{◌≡◌, ℕ, ◌^◌, ◌≤◌};
ghost use Rattle.cursor.specs.Reverse.{reverse, rev};
ghost use Rattle.cursor.specs.Next.{next};

use crate::byte_table::REVERSED_BYTES;

mod byte_table;

// A byte's eight bits in the opposite order, looked up.
fn reverse_byte(byte: u8) -> u8
    ensures { result ≡ reverse 8 byte }
{
    REVERSED_BYTES[usize::from(byte)]
}

// The 32 bits of x in the opposite order: the lowest byte, reversed, becomes the highest.
#[tactic(auto, using(crate::proofs::ByteTable::four_bytes))]
fn reverse_bits(x: u32) -> u32
    ensures { result ≡ rev x }
{
    u32::from_be_bytes(x.to_le_bytes().map(reverse_byte))
}

// The next cursor for a table of that size, a power of two, by two reversals. With all bits above
// the table's set to one, the carry of the reversed count runs through them into the bits that name
// the bucket. They are those of the size's negative, so no division is needed. It stays a call of its
// own, so that it makes no caller larger: no table of a store is so large that a walk comes here.
#[inline(never)]
#[tactic(auto, using(crate::proofs::HighBits::next_computed))]
fn next_by_table(size: u32, cursor: u32) -> u32
    ensures { (b : ℕ) → size ≡ 2 ^ b → result ≡ next size cursor }
{
    let high = cursor | size.wrapping_neg();
    let counted = reverse_bits(high).wrapping_add(1);
    reverse_bits(counted)
}

// The 16 lowest bits of x in the opposite order, by its two lowest bytes.
#[tactic(auto, using(crate::proofs::ByteTable::two_bytes))]
fn reverse_low(x: u32) -> u32
    ensures { result ≡ reverse 16 x }
{
    let [first, second, ..] = x.to_le_bytes();
    u32::from(u16::from_be_bytes([reverse_byte(first), reverse_byte(second)]))
}

// The same for a table of at most 2^16 buckets: the higher bits, all ones, need not be reversed to
// carry through them. Every table of a store comes here.
#[tactic(auto, using(crate::proofs::HalfWord::half_computed))]
fn next_by_half(size: u32, cursor: u32) -> u32
    requires { size ≤ 65536 }
    ensures { (b : ℕ) → size ≡ 2 ^ b → result ≡ next size cursor }
{
    let negative = size.wrapping_neg();
    let counted = reverse_low(cursor | negative).wrapping_add(1);
    reverse_low(counted)
}

// The next cursor for a table of that size, a power of two. The reversed count begins with the
// highest bit of the bucket's number: where that is 0 it becomes 1, nothing is carried, and nothing
// need be reversed. In a walk that is so at every second call.
#[tactic(auto, using(crate::proofs::QuickStep::quick_computed))]
pub fn next_cursor(size: u32, cursor: u32) -> u32
    ensures { (b : ℕ) → size ≡ 2 ^ b → result ≡ next size cursor }
{
    let top = size / 2;
    let bucket = cursor & size.wrapping_sub(1);
    if bucket < top {
        bucket + top
    } else if size <= 65536 {
        next_by_half(size, cursor)
    } else {
        next_by_table(size, cursor)
    }
}
