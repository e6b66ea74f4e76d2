// What is asked before the step that comes first (SPECIFICATION, "The step that comes first"): what the step does, and whether the
// key is held once it is taken. One look ahead and one pass over the chain that will move tell that, and the step goes by it.
ghost use Rattle.std.specs.Prelude.{MatchResult};
ghost use Rattle.during_rehash.specs.Foretold.{StepDue, Foretold, Untold};

use after_step::course::{ChainSight, foresee_chain};
use after_step::presence::presence_of;
use dict_rehash::rehash::look_ahead;
use model::{Ahead, Error, State};
use search::found::{entry_in, entry_in_both};

// What the step does.
#[derive(Clone, Copy)]
pub enum Step {
    // No chain moves, and this bucket is the next one.
    Still(u32),
    // A chain moves.
    Moving(ChainSight),
}

#[derive(Clone, Copy)]
pub struct Foresight {
    // Whether the key is held once the step is taken.
    pub held: bool,
    pub step: Step,
}

// Damage that the step would meet, or the lookup after it, is refused. With no keys in the old table the step only ends the
// rehash. It is built into both calls that ask: an answer of this size would go through memory.
#[inline(always)]
pub fn foresee(
    current: &[u32],
    other: &[u32],
    entries: &[u32],
    s: State,
    key: u32,
) -> Result<Foresight, Error>
    requires { StepDue s current.now other.now entries.now }
    ensures { MatchResult result (λ f. Foretold s current.now other.now entries.now key f)
        (λ e. Untold s current.now other.now entries.now key e) }
{
    if s.old_used == 0 {
        let found = entry_in(entries, s.capacity, s.new_used, other, s.new_size, key);
        let held = presence_of(found)?;
        let step = Step::Still(s.rehash_index);
        return Ok(Foresight { held, step });
    }
    let ahead = look_ahead(current, s.rehash_index, s.old_size);
    match ahead {
        Ahead::Filled(b) => {
            let chain = foresee_chain(current, other, entries, s, b, key, s.free_head)?;
            let step = Step::Moving(chain);
            Ok(Foresight {
                held: chain.held,
                step,
            })
        }
        Ahead::Empty(b) => {
            let at = entry_in_both(
                current, other, entries, s.capacity, s.old_used, s.new_used, s.old_size,
                s.new_size, key,
            );
            let held = presence_of(at)?;
            let step = Step::Still(b);
            Ok(Foresight { held, step })
        }
        Ahead::End => Err(Error::Damaged),
    }
}
