// The timed calls that change a store, each for many keys on a path. Every work adds in the one loop here, and every work
// deletes in the other: with one place where it is called, a timed call is inlined there. The loops hold the state themselves,
// and make the plain calls: a state that is written to a `Store` and read again at every call made an add take 57 ns and not
// 40. A call that is refused leaves the store as it was.
use crate::keys::{Path, key_at};
use dict_delete::delete::delete;
use dict_find_update::update::update;
use dict_grow::add::add;
use store::Store;

// Where a store's filling goes on: the place of the next key, and its value.
#[derive(Clone, Copy)]
pub struct Filling {
    pub path: Path,
    pub value: u32,
}

impl Filling {
    fn next(self) -> Filling {
        Filling {
            path: self.path.next(),
            value: self.value.wrapping_add(1),
        }
    }
}

// The next so many keys, with values that count up.
pub fn add_some(store: &mut Store, keys: &[u32], from: Filling, count: usize) -> Filling {
    let first = &mut *store.first;
    let second = &mut *store.second;
    let entries = &mut *store.entries;
    let mut s = store.state;
    let mut at = from;
    for _ in 0..count {
        let key = key_at(keys, at.path);
        if let Ok(added) = add(first, second, entries, s, key, at.value) {
            s = added;
        }
        at = at.next();
    }
    store.state = s;
    at
}

// Every key gets another value; these count up. A call that is refused shows in the walk at the end.
pub fn update_all(store: &mut Store, keys: &[u32], from: Filling) {
    let first = &mut *store.first;
    let second = &mut *store.second;
    let entries = &mut *store.entries;
    let s = store.state;
    let mut at = from;
    for _ in 0..keys.len() {
        let key = key_at(keys, at.path);
        update(first, second, entries, s, key, at.value).ok();
        at = at.next();
    }
}

// The first so many keys on a path.
pub fn delete_some(store: &mut Store, keys: &[u32], path: Path, count: usize) {
    let first = &mut *store.first;
    let second = &mut *store.second;
    let entries = &mut *store.entries;
    let mut s = store.state;
    let mut path = path;
    for _ in 0..count {
        if let Ok(left) = delete(first, second, entries, s, key_at(keys, path)) {
            s = left;
        }
        path = path.next();
    }
    store.state = s;
}
