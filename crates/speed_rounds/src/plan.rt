// What a round does that starts the store anew, in numbers, so that all such rounds go through the same calls.
use crate::order::Build;
use model::State;
use speed_calls::keys::{Path, next_key, scattered_path};

// The buckets that a growing table starts with.
const FEW_BUCKETS: u32 = 4;

// What a round is given: the store's capacity, the number of keys, their order, and a seed of its own, from which the values
// count up, so that no two rounds are alike.
#[derive(Clone, Copy)]
pub(crate) struct Task {
    pub capacity: u32,
    pub keys: usize,
    pub path: Path,
    pub seed: u32,
}

// A store of that capacity starts with a table of that size and gets so many keys, in an order and with values that count
// up. Then a rehash to as many buckets as the capacity may begin, with so many adds of further keys. At the end so many keys
// are deleted, in an order of their own.
#[derive(Clone, Copy)]
pub(crate) struct Plan {
    pub capacity: u32,
    pub size: u32,
    pub path: Path,
    pub value: u32,
    pub count: usize,
    // How many adds come during the rehash, where one begins.
    pub rehash: Option<usize>,
    // How many keys are deleted, and in which order.
    pub deletes: Option<(usize, Path)>,
}

// As many buckets as the capacity, and all keys: one to a bucket, on the average.
fn fill_plan(task: Task) -> Plan {
    Plan {
        capacity: task.capacity,
        size: task.capacity,
        path: task.path,
        value: task.seed,
        count: task.keys,
        rehash: None,
        deletes: None,
    }
}

fn growth_plan(task: Task) -> Plan {
    Plan {
        size: task.capacity.min(FEW_BUCKETS),
        ..fill_plan(task)
    }
}

// The keys are deleted in another order than they were added.
fn delete_plan(task: Task) -> Plan {
    let path = scattered_path(task.keys, next_key(task.seed));
    Plan {
        deletes: Some((task.keys, path)),
        ..fill_plan(task)
    }
}

// Half of the keys in half as many buckets (one at least), and a rehash. What is deleted are the keys that were added first.
fn half_plan(task: Task, adds: usize, deletes: usize) -> Plan {
    Plan {
        size: (task.capacity / 2).max(1),
        count: task.keys / 2,
        rehash: Some(adds),
        deletes: Some((deletes, task.path)),
        ..fill_plan(task)
    }
}

// Half of the keys fill some 63 of 100 of half as many buckets, and an add or a delete during a rehash moves one: a quarter
// of the keys added, or an eighth deleted, are fewer than the rehash has steps.
pub(crate) fn plan_of(build: Build, task: Task) -> Plan {
    match build {
        Build::Adds => fill_plan(task),
        Build::Growth => growth_plan(task),
        Build::Deletes => delete_plan(task),
        Build::Halves => half_plan(task, 0, 0),
        Build::HalvesAndAdds => half_plan(task, task.keys / 4, 0),
        Build::HalvesAndDeletes => half_plan(task, 0, task.keys / 8),
    }
}

// How far a rehash has come: both numbers rise with each step.
fn progress(s: State) -> u32 {
    s.rehash_index.wrapping_add(s.new_used)
}

// What the sum gets of the state that a repair leaves: the counts, the next bucket to rehash, and the first free entry.
pub(crate) fn told_by_repair(s: State) -> u32 {
    progress(s)
        .wrapping_add(s.old_used)
        .wrapping_add(s.free_head)
}

// What the sum gets of the state in which a round leaves the store: how far it has grown, and which entry was freed last.
pub(crate) fn told_by(build: Build, s: State) -> u32 {
    match build {
        Build::Adds => 0,
        Build::Growth => s
            .old_size
            .wrapping_add(s.new_size)
            .wrapping_add(progress(s)),
        Build::Deletes => s.free_head,
        Build::Halves | Build::HalvesAndAdds => progress(s),
        Build::HalvesAndDeletes => progress(s).wrapping_add(s.free_head),
    }
}
