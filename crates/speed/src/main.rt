// Work on a store, as many rounds as standard input says, for tests/speed to time against the same work in plain Rust. An
// order is a letter, a number of keys and a number of rounds, `A 4096 10`, with or without a line feed:
// - `A`: each round starts the store anew and adds every key;
// - `F`: each round finds every key, in another order than they were added;
// - `V`: each round gives every key another value;
// - `W`: each round walks the whole store, from cursor 0 to cursor 0;
// - `P`: each round goes through the whole store with a safe iterator (the specification's careful pass);
// - `C`: each round verifies the whole store (the specification's check);
// - `R`: each round repairs the whole store, as it is (the specification's mend);
// - `G`: each round starts the store anew with four buckets (or as many as keys, if these are fewer) and adds every key,
//   so that it grows on the way;
// - `D`: each round does what one of `A` does and then deletes every key, so that the difference of the two is what deletes
//   cost;
// - `H`: each round starts the store anew with half as many buckets as keys (one at least) and adds half of the keys, the
//   last of which begins a rehash (the specification's move) to as many buckets as keys;
// - `M`: the same, and adds a quarter of the keys during the rehash;
// - `E`: the same as `H`, and deletes an eighth of the keys during the rehash;
// - `S`, `T`, `Y` and `Z`: as `A`, `F`, `C` and `R`, but in the largest store, with 65,000 cells of a die in turn as a log has
//   them. The number is not one of keys but of the scan chains that the cells are spread over, 1 to 65,000.
// The number of keys, a power of two, is the store's capacity and, but for `G`, `H`, `M` and `E`, the size of its table.
// It writes one line, a sum over what the calls answered, which two programs that do the same work have in common.
#![tactic(auto)]

mod order;

ghost use Rattle.std.specs.Prelude.{◌≤◌, length};

use order::{number_of_keys, parse_order};
use speed_calls::keys::MAX_KEYS;
use speed_calls::padding::ORDER_ROOM;
use speed_rounds::order::Order;
use speed_rounds::rounds::all_rounds;
use std::io::{self, Read, Stdin, Stdout};
use store::Store;

// Three numbers for each entry, and two in a walk's list for each key.
const ENTRY_ROOM: usize = MAX_KEYS * 3;

const LIST_ROOM: usize = MAX_KEYS * 2;

// The front of a buffer. No order asks for more than the whole.
fn front(buffer: &mut [u32], length: usize) -> &mut [u32] {
    let end = length.min(buffer.len());
    &mut buffer[..end]
}

// The buffers are as long as the most keys need them; the rounds get what the order's keys need.
fn run(order: Order, padding: &[u8; ORDER_ROOM]) -> u32 {
    let n = order.capacity as usize;
    let mut first = [0u32; MAX_KEYS];
    let mut second = [0u32; MAX_KEYS];
    let mut entries = [0u32; ENTRY_ROOM];
    let mut list = [0u32; LIST_ROOM];
    let mut keys = [0u32; MAX_KEYS];
    let mut store = Store::new(
        front(&mut first, n),
        front(&mut second, n),
        front(&mut entries, n * 3),
    );
    all_rounds(
        &mut store,
        front(&mut list, n * 2),
        front(&mut keys, number_of_keys(order)),
        order,
        padding,
    )
}

// Reads until the buffer is full or the input ends, and answers how many bytes there are at its front. A read that fails counts
// as the end.
fn read_input(input: &mut Stdin, text: &mut [u8]) -> usize
    ensures { result ≤ length text.new }
{
    let mut filled = 0;
    while filled < text.len() {
        let more = input.read(&mut text[filled..]).unwrap_or(0);
        if more == 0 {
            break;
        }
        filled += more;
    }
    filled
}

fn main(rt: HostRuntime) {
    let mut text = [0u8; ORDER_ROOM];
    let length = read_input(&mut rt.stdin(), &mut text);
    let padding = text;
    answer(&rt.stdout(), &text[..length], &padding).ok();
}

fn answer(output: &Stdout, text: &[u8], padding: &[u8; ORDER_ROOM]) -> io::Result<()> {
    match parse_order(text) {
        Some(order) => println!(output; "{}", run(order, padding)),
        None => println!(output; "bad order"),
    }
}
