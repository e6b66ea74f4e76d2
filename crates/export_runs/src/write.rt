// The calls that write, and start.
ghost use Rattle.std.specs.Prelude.{◌≡◌, ◌&&◌, false, [], length};
ghost use Rattle.model.specs.Sequences.{Call};
ghost use Rattle.lent_bytes.specs.Exports.{most_bucket_bytes, most_entry_bytes, state_bytes, state_numbers, lengths_fit, flags_fit, refused, started_state, exported_call, exported_init};
ghost use Rattle.lent_bytes.specs.Exports.Lent.{lent};
ghost use Rattle.lent_bytes.specs.Exports.Done.{done};
ghost use Rattle.lent_bytes.specs.Checked.{Whole};
ghost use Rattle.little_endian.specs.Words.{decode, encode};
ghost use Rattle.export_calls.specs.Kinds.{Writes};
ghost use Rattle.export_runs.specs.Numbers.{Ran};

use crate::room::{bucket_room, entry_room};
use dict_tables::init::init;
use export_calls::answers::{Answer, of_init};
use lent_bytes::answer::{refuse, write_answer};
use lent_bytes::check::Lengths;
use lent_bytes::state::write_state;
use little_endian::{numbers_of, write_numbers};
use model::State;

// The call is lent the buffers' numbers, which are bytes again behind it.
fn on_numbers<F: FnOnce(&mut [u32], &mut [u32], &mut [u32]) -> Answer>(
    first: &mut [u8],
    second: &mut [u8],
    entries: &mut [u8],
    call: F,
) -> Answer
    requires first_whole { Whole most_bucket_bytes (length first.old) }
    requires second_whole { Whole most_bucket_bytes (length second.old) }
    requires entries_whole { Whole most_entry_bytes (length entries.old) }
    requires callable { F.IsAlwaysCallable call }
    ensures { Ran (F.post call) first.old second.old entries.old result first.new second.new entries.new }
{
    let mut first_room = bucket_room();
    let mut second_room = bucket_room();
    let mut entry_room = entry_room();
    let f = numbers_of(first, &mut first_room);
    let g = numbers_of(second, &mut second_room);
    let e = numbers_of(entries, &mut entry_room);
    let a = call(f, g, e);
    write_numbers(f, first);
    write_numbers(g, second);
    write_numbers(e, entries);
    a
}

pub fn run_write<F: FnOnce(&mut [u32], &mut [u32], &mut [u32], State) -> Answer>(
    state: &mut [u8],
    first: &mut [u8],
    second: &mut [u8],
    entries: &mut [u8],
    answer: &mut [u8],
    call: F,
) -> u32
    requires { F.IsAlwaysCallable call }
    ensures refusal { (lengths_fit (length state.old) (length first.old) (length second.old) (length entries.old) 0 (length answer.old)
        && flags_fit (decode state.old)) ≡ false
        → done result (lent state.new first.new second.new entries.new [] answer.new)
        ≡ refused (lent state.old first.old second.old entries.old [] answer.old) }
    ensures called { (c : Call) → Writes (F.post call) c
        → done result (lent state.new first.new second.new entries.new [] answer.new)
        ≡ exported_call c (lent state.old first.old second.old entries.old [] answer.old) }
{
    let lengths = Lengths {
        first: first.len(),
        second: second.len(),
        entries: entries.len(),
        list: 0,
        answer: answer.len(),
    };
    let Some(s) = lengths.state(state) else {
        return refuse(answer);
    };
    let a = on_numbers(first, second, entries, |f, g, e| call(f, g, e, s));
    write_state(state, a.state);
    write_answer(answer, a.one, a.two);
    a.number
}

// A start writes the state only where it is answered 0.
#[tactic(auto, unfolding(lent_bytes::specs::Exports::started_state))]
fn write_started(state: &mut [u8], number: u32, s: State)
    requires { length state.old ≡ state_bytes }
    ensures { state.new ≡ started_state number state.old (encode (state_numbers s)) }
{
    if number == 0 {
        write_state(state, s);
    }
}

// A start is given no state, so the flags of the state's bytes are not checked.
pub fn run_init(
    state: &mut [u8],
    first: &mut [u8],
    second: &mut [u8],
    entries: &mut [u8],
    answer: &mut [u8],
    capacity: u32,
    size: u32,
) -> u32
    ensures { done result (lent state.new first.new second.new entries.new [] answer.new)
        ≡ exported_init capacity size (lent state.old first.old second.old entries.old [] answer.old) }
{
    let lengths = Lengths {
        first: first.len(),
        second: second.len(),
        entries: entries.len(),
        list: 0,
        answer: answer.len(),
    };
    if !lengths.fit(state) {
        return refuse(answer);
    }
    let a = on_numbers(
        first,
        second,
        entries,
        |f, g, e| of_init(init(f, g, e, capacity, size)),
    );
    write_started(state, a.number, a.state);
    write_answer(answer, a.one, a.two);
    a.number
}
