// One line, by what it says.
ghost use Rattle.std.specs.Prelude.{◌≡◌, ◌≤◌, length};
ghost use Rattle.script.specs.Program as program;
ghost use Rattle.script.specs.Program.{run_command, run_line};
ghost use Rattle.script_run.specs.Answers.{pair_room, line_room};
ghost use Rattle.script_run.specs.Runs.{Leaves, Runs};
ghost use Rattle.store.specs.Stores.{world_of, SameBuffers};

use crate::PROGRAM_LIMIT;
use crate::answer::{Refusal, Values, write_answer};
use script::line::{Command, parse_line};
use store::Store;

// A capacity or a size as the store is asked for it. One above the program's limit is asked for as 0, so that the store
// refuses it, and in its own order.
#[tactic(auto, using(std::proofs::lemmas::Bool::Decides::nat_tests), unfolding(script::specs::Program::limited, script::specs::Program::program_limit))]
fn limited(n: u32) -> u32
    ensures { result ≡ program.limited n }
{
    if n as usize <= PROGRAM_LIMIT { n } else { 0 }
}

// Makes the call that a line names.
fn run_command(
    store: &mut Store<'_>,
    pairs: &mut [u32],
    command: Command,
) -> Result<Values, Refusal>
    ensures same_buffers { SameBuffers store.old store.new }
    ensures leaves { Leaves (run_command (world_of store.old) pairs.old command)
        result (world_of store.new) pairs.new }
{
    match command {
        Command::Init { capacity, size } => {
            let capacity = limited(capacity);
            let started = store.init(capacity, limited(size));
            started?;
            Ok(Values::None)
        }
        Command::Add { key, value } => {
            store.add(key, value)?;
            Ok(Values::None)
        }
        Command::Update { key, value } => {
            store.update(key, value)?;
            Ok(Values::None)
        }
        Command::Delete(key) => {
            store.delete(key)?;
            Ok(Values::None)
        }
        Command::Find(key) => Ok(Values::One(store.find(key)?)),
        Command::Resize(size) => {
            let begun = store.resize(limited(size));
            begun?;
            Ok(Values::None)
        }
        Command::RehashStep => {
            let moved = store.rehash_step()?;
            Ok(Values::Two(moved, u32::from(store.state.rehashing)))
        }
        Command::Scan(cursor) => {
            let (next, count) = store.scan(pairs, cursor)?;
            Ok(Values::Walk(next, count))
        }
    }
}

// What a line is answered with. One that says nothing calls nothing.
fn answer(store: &mut Store<'_>, pairs: &mut [u32], line: &[u8]) -> Result<Values, Refusal>
    ensures same_buffers { SameBuffers store.old store.new }
    ensures leaves { Leaves (run_line (world_of store.old) pairs.old line.now)
        result (world_of store.new) pairs.new }
{
    let command = parse_line(line).ok_or(Refusal::BadLine)?;
    run_command(store, pairs, command)
}

// Runs a line, given without its line feed. The answer is at the front of the buffer, as many bytes as are answered.
pub fn run_line(store: &mut Store<'_>, pairs: &mut [u32], out: &mut [u8], line: &[u8]) -> usize
    requires { (line_room ≤ length out.old) × (length pairs.old ≤ pair_room) }
    ensures same_buffers { SameBuffers store.old store.new }
    ensures runs { Runs (run_line (world_of store.old) pairs.old line.now)
        (world_of store.new) pairs.new out.old out.new result }
{
    let answer = answer(store, pairs, line);
    write_answer(out, pairs, answer)
}
