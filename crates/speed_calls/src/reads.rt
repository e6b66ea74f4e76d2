// The timed calls that read a store. A call that is refused adds nothing to the sum, and so shows in it.
use crate::keys::{Path, key_at};
use store::Store;

// The sum, with the value of every key, along a path.
pub fn find_all(store: &Store, keys: &[u32], path: Path, sum: u32) -> u32 {
    let mut path = path;
    let mut total = sum;
    for _ in 0..keys.len() {
        if let Ok(value) = store.find(key_at(keys, path)) {
            total = total.wrapping_add(value);
        }
        path = path.next();
    }
    total
}

// The sum, with the pairs at the front of a list. No call hands out more than the list has room for.
fn sum_pairs(list: &[u32], count: u32, sum: u32) -> u32 {
    match list.get(..count as usize * 2) {
        Some(pairs) => pairs.iter().fold(sum, |total, n| total.wrapping_add(*n)),
        None => sum,
    }
}

// The sum, with every key and value that a whole walk hands out. That has as many calls as the table has buckets, during a
// rehash as the smaller one has; the loop counts them, since a proved loop has to end. A refused call ends the walk.
pub fn walk_all(store: &Store, list: &mut [u32], sum: u32) -> u32 {
    let mut total = sum;
    let mut cursor = 0;
    for _ in 0..store.first.len() {
        let Ok((next, count)) = store.scan(list, cursor) else {
            break;
        };
        total = sum_pairs(list, count, total);
        cursor = next;
        if cursor == 0 {
            break;
        }
    }
    total
}

// Where a pass ended, and the sum with every key and value that it handed out. It has a call for each filled bucket and one
// more, which is no more calls than the list has numbers, two for each key; the loop counts them, as that of a walk does. A
// call that hands out nothing, as a refused one, ends the pass.
pub fn iterate_all(store: &Store, list: &mut [u32], sum: u32) -> (u32, u32) {
    let mut total = sum;
    let mut place = 0;
    for _ in 0..list.len() {
        let Ok((next, count)) = store.iterate(list, place) else {
            break;
        };
        total = sum_pairs(list, count, total);
        place = next;
        if count == 0 {
            break;
        }
    }
    (place, total)
}
