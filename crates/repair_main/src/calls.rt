// The two calls, answered in numbers.
ghost use Rattle.std.specs.Prelude.{◌≡◌, MatchResult};
ghost use Rattle.model.specs.Answers.{error_number};
ghost use Rattle.model.specs.Calls.After.{after};
ghost use Rattle.repair_main.specs.Answered.{answered};

use model::{Error, State};
use repair::repair::repair;
use script::answer::error_number;
use verify::verify::verify;

// The number of each call, what verify says (1 for an undamaged store), and the state that repair hands back.
#[derive(Clone, Copy)]
pub struct Answers {
    pub verify: u32,
    pub undamaged: u32,
    pub repair: u32,
    pub state: State,
}

// 0 of a call that is done, and else the number of its refusal.
fn number_of<T: Copy>(answer: Result<T, Error>) -> u32
    ensures { MatchResult answer (λ _. result ≡ 0) (λ e. result ≡ error_number e) }
{
    match answer {
        Ok(_) => 0,
        Err(e) => error_number(e),
    }
}

// Verify first, on the memory as it is given.
pub fn answer_calls(first: &mut [u32], second: &mut [u32], entries: &mut [u32], s: State) -> Answers
    ensures { after result first.new second.new entries.new
        ≡ answered s first.old second.old entries.old }
{
    let verified = verify(first, second, entries, s);
    let repaired = repair(first, second, entries, s);
    Answers {
        verify: number_of(verified),
        undamaged: u32::from(verified.unwrap_or(false)),
        repair: number_of(repaired),
        state: repaired.unwrap_or(s),
    }
}
