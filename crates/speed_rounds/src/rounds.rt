// The rounds of each kind of work.
use crate::order::{Build, Order, Use, Work};
use crate::plan::{Plan, Task, plan_of, told_by, told_by_repair};
use speed_calls::changes::{Filling, add_some, delete_some, update_all};
use speed_calls::keys::{make_keys, next_key, number_at, path_of, scattered_path};
use speed_calls::padding::{ORDER_ROOM, hide};
use speed_calls::reads::{find_all, iterate_all, walk_all};
use speed_calls::whole::verify_whole;
use store::Store;

// What the first order of the keys and the first values are made of.
const SEED: u32 = 123456789;

// A new store with the plan's first keys.
fn fill(store: &mut Store, keys: &[u32], plan: Plan, padding: &[u8; ORDER_ROOM]) -> Filling {
    store.init(plan.capacity, plan.size).ok();
    store.state = hide(store.state, padding);
    let empty = Filling {
        path: plan.path,
        value: plan.value,
    };
    add_some(store, keys, empty, plan.count)
}

// What a plan makes of a store.
//
// In a store for four keys or more the last add has begun the rehash by itself, and the resize is refused and changes nothing.
// In one for two keys the other buffer is too short for the least suggestion, and the resize begins it; in one for one key
// there is no other size, and nothing begins.
fn build(store: &mut Store, keys: &[u32], plan: Plan, padding: &[u8; ORDER_ROOM]) {
    let filled = fill(store, keys, plan, padding);
    if let Some(adds) = plan.rehash {
        store.resize(plan.capacity).ok();
        store.state = hide(store.state, padding);
        add_some(store, keys, filled, adds);
    }
    if let Some((count, path)) = plan.deletes {
        delete_some(store, keys, path, count);
    }
}

// A round that starts the store anew. The sum, with what the state tells at its end.
fn build_round(
    store: &mut Store,
    keys: &[u32],
    work: Build,
    task: Task,
    sum: u32,
    padding: &[u8; ORDER_ROOM],
) -> u32 {
    build(store, keys, plan_of(work, task), padding);
    sum.wrapping_add(told_by(work, store.state))
}

// The sum, with what the pass handed out and the place at which it ended.
fn pass_round(store: &mut Store, list: &mut [u32], sum: u32, padding: &[u8; ORDER_ROOM]) -> u32 {
    store.begin_safe().ok();
    store.state = hide(store.state, padding);
    let (place, total) = iterate_all(store, list, sum);
    store.end_safe().ok();
    total.wrapping_add(place)
}

// A round on the store as it is.
fn use_round(
    store: &mut Store,
    list: &mut [u32],
    keys: &[u32],
    work: Use,
    task: Task,
    sum: u32,
    padding: &[u8; ORDER_ROOM],
) -> u32 {
    match work {
        Use::Finds => find_all(store, keys, task.path, sum),
        Use::Updates => {
            let from = Filling {
                path: task.path,
                value: task.seed,
            };
            update_all(store, keys, from);
            sum
        }
        Use::Walks => walk_all(store, list, sum),
        Use::Passes => pass_round(store, list, sum, padding),
        Use::Verifies => verify_whole(store, sum),
    }
}

// The sum, with what the repair leaves: what its state tells, and a number of the entry buffer, another one in each round.
fn repair_round(store: &mut Store, task: Task, sum: u32, padding: &[u8; ORDER_ROOM]) -> u32 {
    store.repair().ok();
    store.state = hide(store.state, padding);
    let place = scattered_path(task.capacity as usize, task.seed).at;
    let left = number_at(store.entries, place);
    sum.wrapping_add(told_by_repair(store.state))
        .wrapping_add(left)
}

fn one_round(
    store: &mut Store,
    list: &mut [u32],
    keys: &[u32],
    work: Work,
    task: Task,
    sum: u32,
    padding: &[u8; ORDER_ROOM],
) -> u32 {
    match work {
        Work::Builds(build) => build_round(store, keys, build, task, sum, padding),
        Work::Uses(work) => use_round(store, list, keys, work, task, sum, padding),
        Work::Repairs => repair_round(store, task, sum, padding),
    }
}

fn task_of(order: Order, keys: usize, seed: u32) -> Task {
    Task {
        capacity: order.capacity,
        keys,
        path: path_of(keys, order.keys, seed),
        seed,
    }
}

// Fills the store, and does the rounds, each with a seed of its own.
fn do_rounds(
    store: &mut Store,
    list: &mut [u32],
    keys: &[u32],
    order: Order,
    padding: &[u8; ORDER_ROOM],
) -> u32 {
    let task = task_of(order, keys.len(), SEED);
    let mut sum = build_round(store, keys, Build::Adds, task, 0, padding);
    let mut seed = SEED;
    for _ in 0..order.rounds {
        seed = next_key(seed);
        let task = task_of(order, keys.len(), seed);
        sum = one_round(store, list, keys, order.work, task, sum, padding);
    }
    sum
}

// Makes the keys, does the rounds, and then a walk, so that the sum also tells what the store has come to hold.
pub fn all_rounds(
    store: &mut Store,
    list: &mut [u32],
    keys: &mut [u32],
    order: Order,
    padding: &[u8; ORDER_ROOM],
) -> u32 {
    make_keys(keys, order.keys);
    let sum = do_rounds(store, list, keys, order, padding);
    walk_all(store, list, sum)
}
