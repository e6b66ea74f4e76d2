// The calls over bytes that are lent a list: the walk call and the pass call. What they promise is in
// lent_bytes/specs/Exports.antt.
#![tactic(auto)]

ghost use Rattle.std.specs.Prelude.{◌≡◌, ◌&&◌, false, min, length};
ghost use Rattle.little_endian.specs.Words.{decode};
ghost use Rattle.lent_bytes.specs.Exports.{lengths_fit, flags_fit, refused, exported_list};
ghost use Rattle.lent_bytes.specs.Exports.Lent.{lent};
ghost use Rattle.lent_bytes.specs.Exports.Done.{done};
ghost use Rattle.export_calls.specs.Kinds.{Lists};
ghost use Rattle.export_lists.specs.Room.{Listing, list_call, list_room};

use export_calls::answers::Answer;
use export_runs::room::{bucket_room, entry_room};
use lent_bytes::answer::{refuse, write_answer};
use lent_bytes::check::{Lengths, MOST_CELLS};
use little_endian::{numbers_of, write_numbers};
use model::State;

// Two numbers for each entry: no call hands out more.
const LIST_ROOM: usize = 2 * MOST_CELLS;

#[tactic(auto, unfolding(crate::specs::Room::list_room, export_runs::specs::Numbers::room_for, lent_bytes::specs::Exports::most_entry_bytes))]
fn list_room() -> [u32; LIST_ROOM]
    ensures { length result ≡ list_room }
{
    [0; LIST_ROOM]
}

// How many of a list's numbers are decoded.
#[tactic(auto, unfolding(crate::specs::Room::list_room, export_runs::specs::Numbers::room_for, lent_bytes::specs::Exports::most_entry_bytes))]
fn front_count(numbers: usize) -> usize
    ensures { result ≡ min numbers list_room }
{
    numbers.min(LIST_ROOM)
}

// A list may have any length. It is decoded no further than a call can hand out, and what lies behind that is not touched.
pub fn run_list<F: FnOnce(&[u32], &[u32], &[u32], &mut [u32], State) -> Answer>(
    state: &[u8],
    first: &[u8],
    second: &[u8],
    entries: &[u8],
    list: &mut [u8],
    answer: &mut [u8],
    call: F,
) -> u32
    requires { F.IsAlwaysCallable call }
    ensures refusal { (lengths_fit (length state.now) (length first.now) (length second.now) (length entries.now) (length list.old) (length answer.old)
        && flags_fit (decode state.now)) ≡ false
        → done result (lent state.now first.now second.now entries.now list.new answer.new)
        ≡ refused (lent state.now first.now second.now entries.now list.old answer.old) }
    ensures called { (c : Listing) → Lists (F.post call) (list_call c)
        → done result (lent state.now first.now second.now entries.now list.new answer.new)
        ≡ exported_list (list_call c) (lent state.now first.now second.now entries.now list.old answer.old) }
{
    let lengths = Lengths {
        first: first.len(),
        second: second.len(),
        entries: entries.len(),
        list: list.len(),
        answer: answer.len(),
    };
    let Some(s) = lengths.state(state) else {
        return refuse(answer);
    };
    let mut first_room = bucket_room();
    let mut second_room = bucket_room();
    let mut entry_room = entry_room();
    let mut list_room = list_room();
    let f = numbers_of(first, &mut first_room);
    let g = numbers_of(second, &mut second_room);
    let e = numbers_of(entries, &mut entry_room);
    let count = front_count(list.len() / 4);
    let front = &mut list[..count * 4];
    let l = numbers_of(front, &mut list_room);
    let a = call(f, g, e, l, s);
    write_numbers(l, front);
    write_answer(answer, a.one, a.two);
    a.number
}
