// The calls that only read.
ghost use Rattle.std.specs.Prelude.{◌≡◌, ◌&&◌, false, [], length};
ghost use Rattle.little_endian.specs.Words.{decode};
ghost use Rattle.model.specs.Sequences.{Call};
ghost use Rattle.lent_bytes.specs.Exports.{lengths_fit, flags_fit, refused, exported_call};
ghost use Rattle.lent_bytes.specs.Exports.Lent.{lent};
ghost use Rattle.lent_bytes.specs.Exports.Done.{done};
ghost use Rattle.export_calls.specs.Kinds.{Reads};

use crate::room::{bucket_room, entry_room};
use export_calls::answers::Answer;
use lent_bytes::answer::{refuse, write_answer};
use lent_bytes::check::Lengths;
use little_endian::numbers_of;
use model::State;

pub fn run_read<F: FnOnce(&[u32], &[u32], &[u32], State) -> Answer>(
    state: &[u8],
    first: &[u8],
    second: &[u8],
    entries: &[u8],
    answer: &mut [u8],
    call: F,
) -> u32
    requires { F.IsAlwaysCallable call }
    ensures refusal { (lengths_fit (length state.now) (length first.now) (length second.now) (length entries.now) 0 (length answer.old)
        && flags_fit (decode state.now)) ≡ false
        → done result (lent state.now first.now second.now entries.now [] answer.new)
        ≡ refused (lent state.now first.now second.now entries.now [] answer.old) }
    ensures called { (c : Call) → Reads (F.post call) c
        → done result (lent state.now first.now second.now entries.now [] answer.new)
        ≡ exported_call c (lent state.now first.now second.now entries.now [] answer.old) }
{
    let lengths = Lengths {
        first: first.len(),
        second: second.len(),
        entries: entries.len(),
        list: 0,
        answer: answer.len(),
    };
    let Some(s) = lengths.state(state) else {
        return refuse(answer);
    };
    let mut first_room = bucket_room();
    let mut second_room = bucket_room();
    let mut entry_room = entry_room();
    let f = numbers_of(first, &mut first_room);
    let g = numbers_of(second, &mut second_room);
    let e = numbers_of(entries, &mut entry_room);
    let a = call(f, g, e, s);
    write_answer(answer, a.one, a.two);
    a.number
}
