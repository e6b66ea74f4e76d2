// What the text of an order says.
use model::LARGEST_CAPACITY;
use script::number::parse_number;
use speed_calls::keys::{CELLS, Keys, MAX_KEYS};
use speed_rounds::order::{Build, Order, Use, Work};

// Work on scattered keys. There are as many buckets as keys, so their number is a power of two.
fn keys_order(work: Work, keys: u32, rounds: u32) -> Option<Order> {
    if keys.is_power_of_two() && keys as usize <= MAX_KEYS {
        Some(Order {
            work,
            capacity: keys,
            keys: Keys::Scattered,
            rounds,
        })
    } else {
        None
    }
}

// Work on cells, in the largest store. Each scan chain has one at least.
fn cells_order(work: Work, scan_chains: u32, rounds: u32) -> Option<Order> {
    if 0 < scan_chains && scan_chains as usize <= CELLS {
        Some(Order {
            work,
            capacity: LARGEST_CAPACITY,
            keys: Keys::Cells(scan_chains),
            rounds,
        })
    } else {
        None
    }
}

// As many keys as the capacity, but for cells.
pub(crate) fn number_of_keys(order: Order) -> usize {
    match order.keys {
        Keys::Scattered => order.capacity as usize,
        Keys::Cells(_) => CELLS,
    }
}

fn order_of(letter: u8, number: u32, rounds: u32) -> Option<Order> {
    match letter {
        b'A' => keys_order(Work::Builds(Build::Adds), number, rounds),
        b'F' => keys_order(Work::Uses(Use::Finds), number, rounds),
        b'V' => keys_order(Work::Uses(Use::Updates), number, rounds),
        b'W' => keys_order(Work::Uses(Use::Walks), number, rounds),
        b'P' => keys_order(Work::Uses(Use::Passes), number, rounds),
        b'C' => keys_order(Work::Uses(Use::Verifies), number, rounds),
        b'R' => keys_order(Work::Repairs, number, rounds),
        b'G' => keys_order(Work::Builds(Build::Growth), number, rounds),
        b'D' => keys_order(Work::Builds(Build::Deletes), number, rounds),
        b'H' => keys_order(Work::Builds(Build::Halves), number, rounds),
        b'M' => keys_order(Work::Builds(Build::HalvesAndAdds), number, rounds),
        b'E' => keys_order(Work::Builds(Build::HalvesAndDeletes), number, rounds),
        b'S' => cells_order(Work::Builds(Build::Adds), number, rounds),
        b'T' => cells_order(Work::Uses(Use::Finds), number, rounds),
        b'Y' => cells_order(Work::Uses(Use::Verifies), number, rounds),
        b'Z' => cells_order(Work::Repairs, number, rounds),
        _ => None,
    }
}

// A letter and two numbers, each behind a space. The line feed may be left out.
pub(crate) fn parse_order(text: &[u8]) -> Option<Order> {
    let line = text.strip_suffix(b"\n").unwrap_or(text);
    let mut words = line.split(|b| *b == b' ');
    let Some(&[letter]) = words.next() else {
        return None;
    };
    let number = parse_number(words.next()?)?;
    let rounds = parse_number(words.next()?)?;
    match words.next() {
        None => order_of(letter, number, rounds),
        Some(_) => None,
    }
}
