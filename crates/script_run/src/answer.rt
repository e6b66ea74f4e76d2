// What a line is answered with, and the line that this is written as.
ghost use Rattle.std.specs.Prelude.{◌≡◌, ◌≤◌, length};
ghost use Rattle.script_run.specs.declared.answer.Refusal.TheVariants.{Store};
ghost use Rattle.script_run.specs.Answers.{pair_room, line_room, refusal_number, scan_refusal, done_line, line_of, Fits, Room, Written};

use crate::PROGRAM_LIMIT;
use model::{Error, ScanError};
use script::answer::{error_number, write_number_line, write_result_line};

// The places that a walk call is lent: two for each key.
pub const PAIR_ROOM: usize = PROGRAM_LIMIT * 2;

// The bytes of the longest answer: 0 and the line feed, then a cursor, a number of keys and the pairs, each number with
// its space.
pub const LINE_ROOM: usize = 2 + (2 + PAIR_ROOM) * 11;

// The values behind a 0. Those of a walk call are written with the pairs that it handed out.
#[derive(Clone, Copy)]
pub(crate) enum Values {
    None,
    One(u32),
    Two(u32, u32),
    Walk(u32, u32),
}

// Why a line is answered with another number.
#[derive(Clone, Copy)]
pub(crate) enum Refusal {
    // The line says nothing.
    BadLine,
    // The list is short of room for the keys of a walk call.
    Short,
    // The store refused its call.
    Store(Error),
}

impl From<Error> for Refusal {
    ghost from_gives = { λ e refusal. refusal ≡ Store e };

    fn from(e: Error) -> Refusal {
        Refusal::Store(e)
    }
}

impl From<ScanError> for Refusal {
    ghost from_gives = { λ e refusal. refusal ≡ scan_refusal e };

    #[tactic(auto, unfolding(crate::specs::Answers::scan_refusal))]
    fn from(e: ScanError) -> Refusal {
        match e {
            ScanError::Short(_) => Refusal::Short,
            ScanError::Refused(e) => Refusal::Store(e),
        }
    }
}

impl From<Refusal> for u32 {
    ghost from_gives = { λ refusal number. number ≡ refusal_number refusal };

    #[tactic(auto, unfolding(crate::specs::Answers::refusal_number, script::specs::Answers::bad_line))]
    fn from(refusal: Refusal) -> u32 {
        match refusal {
            Refusal::BadLine => 10,
            Refusal::Short => 9,
            Refusal::Store(e) => error_number(e),
        }
    }
}

// 0 and the values, from the front of the buffer.
fn write_values(out: &mut [u8], pairs: &[u32], values: Values) -> usize
    requires { Room out.old pairs.now values }
    ensures { Written (done_line values pairs.now) out.old out.new result }
{
    match values {
        Values::None => write_result_line(out, &[], &[]),
        Values::One(a) => write_result_line(out, &[a], &[]),
        Values::Two(a, b) => write_result_line(out, &[a, b], &[]),
        Values::Walk(next, count) => {
            let end = count as usize * 2;
            write_result_line(out, &[next, count], &pairs[..end])
        }
    }
}

// An answer's line.
pub(crate) fn write_answer(out: &mut [u8], pairs: &[u32], answer: Result<Values, Refusal>) -> usize
    requires line_room { line_room ≤ length out.old }
    requires pair_room { length pairs.now ≤ pair_room }
    requires fits { Fits answer pairs.now }
    ensures { Written (line_of answer pairs.now) out.old out.new result }
{
    match answer {
        Ok(values) => write_values(out, pairs, values),
        Err(refusal) => write_number_line(out, u32::from(refusal)),
    }
}
