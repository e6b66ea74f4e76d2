// Add and delete with the step that comes first (SPECIFICATION, "The step that comes first"): all that can refuse is asked before
// the step, and the step goes by what was told then.
ghost use Rattle.std.specs.Prelude.{◌≡◌, ◌<◌, Ok};
ghost use Rattle.model.specs.Memory.{link_of};
ghost use Rattle.model.specs.Calls as calls;
ghost use Rattle.model.specs.Calls.After.{after};
ghost use Rattle.after_step.specs.Presence.{presence_then, entries_after};
ghost use Rattle.during_rehash.specs.Free.{next_free};
ghost use Rattle.during_rehash.specs.Foretold.{StepDue, Going};
ghost use Rattle.during_rehash.specs.Moving.{add_moving, if_held};

use crate::entry::{one_more, push_entry, require_link, require_room};
use crate::foresee::{Foresight, Step, foresee};
use after_step::course::link_beside;
use dict_rehash::rehash::{move_counted, state_after};
use memory::entry::link_of;
use model::{Error, State};

// The link of the first free entry as the step leaves it. In damaged memory the chain that moves may change it.
fn link_then(current: &[u32], other: &[u32], entries: &[u32], s: State, step: Step) -> u32
    requires going { Going s current.now other.now entries.now step }
    requires some_free { 0 < s.free_head }
    ensures { result ≡ link_of (entries_after (calls.step_taken s current.now other.now entries.now)) s.free_head }
{
    match step {
        Step::Still(_) => link_of(entries, s.free_head),
        Step::Moving(chain) => link_beside(current, other, entries, s, chain, s.free_head),
    }
}

// The free list's next head for an add behind the step, or its refusal. The step keeps the keys held, the capacity and the free
// head.
#[tactic(auto, unfolding(crate::specs::Free::next_free, model::specs::Memory::keys_held, model::specs::Calls::takeable))]
fn free_then(
    current: &[u32],
    other: &[u32],
    entries: &[u32],
    s: State,
    foresight: Foresight,
) -> Result<u32, Error>
    requires { Going s current.now other.now entries.now foresight.step }
    ensures { result ≡ next_free s foresight.held
        (entries_after (calls.step_taken s current.now other.now entries.now)) }
{
    require_room(s, foresight.held)?;
    let link = link_then(current, other, entries, s, foresight.step);
    require_link(s, link)
}

// The step for real. What was told says that no test of it fails, and a chain is not tested again.
fn take_step(
    current: &mut [u32],
    other: &mut [u32],
    entries: &mut [u32],
    s: State,
    step: Step,
) -> (u32, State)
    requires { Going s current.old other.old entries.old step }
    ensures { after (Ok result) current.new other.new entries.new
        ≡ calls.step_taken s current.old other.old entries.old }
{
    match step {
        Step::Still(next) => (0, state_after(s, 0, next)),
        Step::Moving(chain) => {
            move_counted(current, other, entries, s, chain.bucket, chain.count)
        }
    }
}

// The entry goes into the new table, which lies in the other buffer whether the rehash goes on behind the step or is over.
pub(crate) fn add_stepping(
    current: &mut [u32],
    other: &mut [u32],
    entries: &mut [u32],
    s: State,
    key: u32,
    value: u32,
) -> Result<State, Error>
    requires { StepDue s current.old other.old entries.old }
    ensures { after result current.new other.new entries.new
        ≡ add_moving s current.old other.old entries.old key value }
{
    let foresight = foresee(current, other, entries, s, key)?;
    let free = free_then(current, other, entries, s, foresight)?;
    let (_, t) = take_step(current, other, entries, s, foresight.step);
    push_entry(other, entries, s.new_size, s.free_head, key, value);
    Ok(one_more(t, free))
}

// What a delete does before it looks for the entry: the step, where the key is held once it is taken.
pub fn step_if_held(
    current: &mut [u32],
    other: &mut [u32],
    entries: &mut [u32],
    s: State,
    key: u32,
) -> Result<(u32, State), Error>
    requires { StepDue s current.old other.old entries.old }
    ensures { after result current.new other.new entries.new
        ≡ if_held (presence_then key s.second_is_current (calls.step_taken s current.old other.old entries.old))
        (calls.step_taken s current.old other.old entries.old) current.old other.old entries.old }
{
    let foresight = foresee(current, other, entries, s, key)?;
    if foresight.held {
        Ok(take_step(current, other, entries, s, foresight.step))
    } else {
        Err(Error::Absent) // and nothing has moved
    }
}
