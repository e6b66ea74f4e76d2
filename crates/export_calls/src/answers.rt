// What a plain call answers, in numbers.
#![tactic(auto, using(crate::proofs::Telling::known, crate::proofs::Telling::step_value), unfolding(crate::proofs::Telling::numbering))]

ghost use Rattle.std.specs.Prelude.{◌≡◌, [], ◌∷◌, Err};
ghost use Rattle.model.specs.Answers.{reply, error_number, init_reply, value_reply, done_reply, state_reply, step_reply, scan_reply};
ghost use Rattle.export_calls.specs.Kinds.{answer_of, InNumbers};

use model::{Error, ScanError, State, Unstarted};
use script::answer::error_number;

// The number, the two results (0 for one that there is not), and the state that comes back.
#[derive(Clone, Copy)]
pub struct Answer {
    pub number: u32,
    pub one: u32,
    pub two: u32,
    pub state: State,
}

fn two_results(number: u32, one: u32, two: u32, state: State) -> Answer
    ensures { result ≡ answer_of (reply number (one ∷ two ∷ []) state) }
{
    Answer {
        number,
        one,
        two,
        state,
    }
}

const TWO_TO_32: u64 = 1 << 32;

// Done, with one result: its lower and its higher 32 bits.
fn one_result(value: u64, s: State) -> Answer
    ensures { result ≡ answer_of (reply 0 (value ∷ []) s) }
{
    let low = value % TWO_TO_32;
    let high = value / TWO_TO_32;
    two_results(0, low as u32, high as u32, s)
}

// Done, with no result.
fn no_result(s: State) -> Answer
    ensures { result ≡ answer_of (reply 0 [] s) }
{
    two_results(0, 0, 0, s)
}

fn refused(e: Error, s: State) -> Answer
    ensures { result ≡ answer_of (reply (error_number e) [] s) }
{
    two_results(error_number(e), 0, 0, s)
}

// Each answer of the store. Where it has no state, the one that the call was given comes back.

pub fn of_init(a: Result<State, Unstarted>) -> Answer
    ensures { InNumbers result init_reply a }
{
    match a {
        Ok(t) => no_result(t),
        Err(Unstarted { error, state }) => refused(error, state),
    }
}

pub fn of_state(a: Result<State, Error>, s: State) -> Answer
    ensures { InNumbers result (state_reply s) a }
{
    match a {
        Ok(t) => no_result(t),
        Err(e) => refused(e, s),
    }
}

pub fn of_value(a: Result<u64, Error>, s: State) -> Answer
    ensures numbers { InNumbers result (value_reply s) a }
    ensures state { result.state ≡ s }
{
    match a {
        Ok(value) => one_result(value, s),
        Err(e) => refused(e, s),
    }
}

pub fn of_done(a: Result<(), Error>, s: State) -> Answer
    ensures numbers { InNumbers result (done_reply s) a }
    ensures state { result.state ≡ s }
{
    match a {
        Ok(()) => no_result(s),
        Err(e) => refused(e, s),
    }
}

pub fn of_step(a: Result<(u32, State), Error>, s: State) -> Answer
    ensures { InNumbers result (step_reply s) a }
{
    match a {
        Ok((moved, t)) => two_results(0, moved, u32::from(t.rehashing), t),
        Err(e) => refused(e, s),
    }
}

pub fn of_scan(a: Result<(u32, u32), ScanError>, s: State) -> Answer
    ensures numbers { InNumbers result (scan_reply s) a }
    ensures state { result.state ≡ s }
{
    match a {
        Ok((cursor, count)) => two_results(0, cursor, count, s),
        Err(ScanError::Short(count)) => two_results(9, 0, count, s),
        Err(ScanError::Refused(e)) => refused(e, s),
    }
}
