// The store's calls for C, over numbers and byte slices (SPECIFICATION, "Calls over bytes"). What each promises is in
// lent_bytes, specs/Exports.antt: either the first check's 1, or what the plain call answers and leaves on the same
// numbers. No export requires anything of its bytes.
#![tactic(auto)]

ghost use Rattle.std.specs.Prelude.{◌≡◌, []};
ghost use Rattle.model.specs.Sequences.{Call};
ghost use Rattle.lent_bytes.specs.Exports.{Export, exported};
ghost use Rattle.lent_bytes.specs.Exports.Lent.{lent};
ghost use Rattle.lent_bytes.specs.Exports.Done.{done};
ghost use Rattle.export_calls.specs.Kinds.{Answers};

use dict_delete::delete::delete;
use dict_find_update::find::find;
use dict_find_update::update::update;
use dict_grow::add::add;
use dict_grow::allow::allow_resize;
use dict_rehash::rehash::rehash_step;
use dict_scan::scan::scan;
use dict_suggest_look::suggest::suggested_size;
use dict_tables::resize::resize;
use export_calls::answers::{of_done, of_scan, of_state, of_step, of_value};
use export_lists::run_list;
use export_runs::read::run_read;
use export_runs::write::{run_init, run_write};
use iterator::iterate::iterate;
use iterator::plain::{begin_iterator, end_iterator};
use iterator::safe::{begin_safe, end_safe};
use lent_bytes::answer::refuse;
use lent_bytes::state::flag_of;

// Makes an empty store. It reads no state, and writes one only where it returns 0.
#[unsafe(no_mangle)]
pub extern "C" fn suspects_init(
    state: &mut [u8],
    first: &mut [u8],
    second: &mut [u8],
    entries: &mut [u8],
    answer: &mut [u8],
    capacity: u32,
    size: u32,
) -> u32
    ensures { done result (lent state.new first.new second.new entries.new [] answer.new)
        ≡ exported (Export.init capacity size) (lent state.old first.old second.old entries.old [] answer.old) }
{
    run_init(state, first, second, entries, answer, capacity, size)
}

// The answer's first number is the key's value.
#[unsafe(no_mangle)]
pub extern "C" fn suspects_find(
    state: &[u8],
    first: &[u8],
    second: &[u8],
    entries: &[u8],
    answer: &mut [u8],
    key: u32,
) -> u32
    ensures { done result (lent state.now first.now second.now entries.now [] answer.new)
        ≡ exported (Export.find key) (lent state.now first.now second.now entries.now [] answer.old) }
{
    run_read(
        state,
        first,
        second,
        entries,
        answer,
        |first, second, entries, s| of_value(
            find(first, second, entries, s, key).map(u64::from),
            s,
        ),
    )
}

#[unsafe(no_mangle)]
pub extern "C" fn suspects_update(
    state: &mut [u8],
    first: &mut [u8],
    second: &mut [u8],
    entries: &mut [u8],
    answer: &mut [u8],
    key: u32,
    value: u32,
) -> u32
    ensures { done result (lent state.new first.new second.new entries.new [] answer.new)
        ≡ exported (Export.update key value) (lent state.old first.old second.old entries.old [] answer.old) }
{
    run_write(
        state,
        first,
        second,
        entries,
        answer,
        |first, second, entries, s| of_done(update(first, second, entries, s, key, value), s),
    )
}

#[unsafe(no_mangle)]
pub extern "C" fn suspects_add(
    state: &mut [u8],
    first: &mut [u8],
    second: &mut [u8],
    entries: &mut [u8],
    answer: &mut [u8],
    key: u32,
    value: u32,
) -> u32
    ensures { done result (lent state.new first.new second.new entries.new [] answer.new)
        ≡ exported (Export.add key value) (lent state.old first.old second.old entries.old [] answer.old) }
{
    run_write(
        state,
        first,
        second,
        entries,
        answer,
        |first, second, entries, s| of_state(add(first, second, entries, s, key, value), s),
    )
}

#[unsafe(no_mangle)]
pub extern "C" fn suspects_delete(
    state: &mut [u8],
    first: &mut [u8],
    second: &mut [u8],
    entries: &mut [u8],
    answer: &mut [u8],
    key: u32,
) -> u32
    ensures { done result (lent state.new first.new second.new entries.new [] answer.new)
        ≡ exported (Export.delete key) (lent state.old first.old second.old entries.old [] answer.old) }
{
    run_write(
        state,
        first,
        second,
        entries,
        answer,
        |first, second, entries, s| of_state(delete(first, second, entries, s, key), s),
    )
}

#[unsafe(no_mangle)]
pub extern "C" fn suspects_resize(
    state: &mut [u8],
    first: &mut [u8],
    second: &mut [u8],
    entries: &mut [u8],
    answer: &mut [u8],
    size: u32,
) -> u32
    ensures { done result (lent state.new first.new second.new entries.new [] answer.new)
        ≡ exported (Export.resize size) (lent state.old first.old second.old entries.old [] answer.old) }
{
    run_write(
        state,
        first,
        second,
        entries,
        answer,
        |first, second, entries, s| of_state(resize(first, second, entries, s, size), s),
    )
}

// The answer: how many entries moved, then 1 while the rehash goes on.
#[unsafe(no_mangle)]
pub extern "C" fn suspects_rehash_step(
    state: &mut [u8],
    first: &mut [u8],
    second: &mut [u8],
    entries: &mut [u8],
    answer: &mut [u8],
) -> u32
    ensures { done result (lent state.new first.new second.new entries.new [] answer.new)
        ≡ exported Export.rehash_step (lent state.old first.old second.old entries.old [] answer.old) }
{
    run_write(
        state,
        first,
        second,
        entries,
        answer,
        |first, second, entries, s| of_step(rehash_step(first, second, entries, s), s),
    )
}

// The answer: the next cursor, then the number of keys in the list.
#[unsafe(no_mangle)]
pub extern "C" fn suspects_scan(
    state: &[u8],
    first: &[u8],
    second: &[u8],
    entries: &[u8],
    list: &mut [u8],
    answer: &mut [u8],
    cursor: u32,
) -> u32
    ensures { done result (lent state.now first.now second.now entries.now list.new answer.new)
        ≡ exported (Export.scan cursor) (lent state.now first.now second.now entries.now list.old answer.old) }
{
    run_list(
        state,
        first,
        second,
        entries,
        list,
        answer,
        |first, second, entries, list, s|
            ensures { Answers (Call.scan cursor list.old) first.now second.now entries.now s result list.new }
        { of_scan(scan(first, second, entries, list, s, cursor), s) },
    )
}

// The answer: the next place, then the number of keys in the list.
#[unsafe(no_mangle)]
pub extern "C" fn suspects_iterate(
    state: &[u8],
    first: &[u8],
    second: &[u8],
    entries: &[u8],
    list: &mut [u8],
    answer: &mut [u8],
    place: u32,
) -> u32
    ensures { done result (lent state.now first.now second.now entries.now list.new answer.new)
        ≡ exported (Export.iterate place) (lent state.now first.now second.now entries.now list.old answer.old) }
{
    run_list(
        state,
        first,
        second,
        entries,
        list,
        answer,
        |first, second, entries, list, s|
            ensures { Answers (Call.iterate place list.old) first.now second.now entries.now s result list.new }
        { of_scan(iterate(first, second, entries, list, s, place), s) },
    )
}

// The answer is the fingerprint, all eight bytes.
#[unsafe(no_mangle)]
pub extern "C" fn suspects_begin_iterator(
    state: &[u8],
    first: &[u8],
    second: &[u8],
    entries: &[u8],
    answer: &mut [u8],
) -> u32
    ensures { done result (lent state.now first.now second.now entries.now [] answer.new)
        ≡ exported Export.begin_iterator (lent state.now first.now second.now entries.now [] answer.old) }
{
    run_read(
        state,
        first,
        second,
        entries,
        answer,
        |first, second, entries, s| of_value(begin_iterator(first, second, entries, s), s),
    )
}

#[unsafe(no_mangle)]
pub extern "C" fn suspects_end_iterator(
    state: &[u8],
    first: &[u8],
    second: &[u8],
    entries: &[u8],
    answer: &mut [u8],
    fingerprint: u64,
) -> u32
    ensures { done result (lent state.now first.now second.now entries.now [] answer.new)
        ≡ exported (Export.end_iterator fingerprint) (lent state.now first.now second.now entries.now [] answer.old) }
{
    run_read(
        state,
        first,
        second,
        entries,
        answer,
        |first, second, entries, s| of_done(
            end_iterator(first, second, entries, s, fingerprint),
            s,
        ),
    )
}

#[unsafe(no_mangle)]
pub extern "C" fn suspects_begin_safe(
    state: &mut [u8],
    first: &mut [u8],
    second: &mut [u8],
    entries: &mut [u8],
    answer: &mut [u8],
) -> u32
    ensures { done result (lent state.new first.new second.new entries.new [] answer.new)
        ≡ exported Export.begin_safe (lent state.old first.old second.old entries.old [] answer.old) }
{
    run_write(
        state,
        first,
        second,
        entries,
        answer,
        |first, second, entries, s| of_state(begin_safe(first, second, entries, s), s),
    )
}

#[unsafe(no_mangle)]
pub extern "C" fn suspects_end_safe(
    state: &mut [u8],
    first: &mut [u8],
    second: &mut [u8],
    entries: &mut [u8],
    answer: &mut [u8],
) -> u32
    ensures { done result (lent state.new first.new second.new entries.new [] answer.new)
        ≡ exported Export.end_safe (lent state.old first.old second.old entries.old [] answer.old) }
{
    run_write(
        state,
        first,
        second,
        entries,
        answer,
        |first, second, entries, s| of_state(end_safe(first, second, entries, s), s),
    )
}

// The answer's first number is the size.
#[unsafe(no_mangle)]
pub extern "C" fn suspects_suggested_size(
    state: &[u8],
    first: &[u8],
    second: &[u8],
    entries: &[u8],
    answer: &mut [u8],
    growing: u32,
) -> u32
    ensures { done result (lent state.now first.now second.now entries.now [] answer.new)
        ≡ exported (Export.suggested_size growing) (lent state.now first.now second.now entries.now [] answer.old) }
{
    let Some(growing) = flag_of(growing) else {
        return refuse(answer);
    };
    run_read(
        state,
        first,
        second,
        entries,
        answer,
        |first, second, entries, s| of_value(
            suggested_size(first, second, entries, s, growing).map(u64::from),
            s,
        ),
    )
}

#[unsafe(no_mangle)]
pub extern "C" fn suspects_allow_resize(
    state: &mut [u8],
    first: &mut [u8],
    second: &mut [u8],
    entries: &mut [u8],
    answer: &mut [u8],
    allowed: u32,
) -> u32
    ensures { done result (lent state.new first.new second.new entries.new [] answer.new)
        ≡ exported (Export.allow_resize allowed) (lent state.old first.old second.old entries.old [] answer.old) }
{
    let Some(allowed) = flag_of(allowed) else {
        return refuse(answer);
    };
    run_write(
        state,
        first,
        second,
        entries,
        answer,
        |first, second, entries, s| of_state(allow_resize(first, second, entries, s, allowed), s),
    )
}
