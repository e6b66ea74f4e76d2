// A script's answers, gathered in blocks, so that a program needs no system call for each line (SPECIFICATION, "The
// program").
#![tactic(auto)]

ghost use Rattle.store.specs.Stores.{world_of, SameBuffers};
ghost use Rattle.script_block.specs.Blocks.{RunsBlock};

use script::line::next_line;
use script_run::answer::{LINE_ROOM, PAIR_ROOM};
use script_run::line::run_line;
use store::Store;

// The bytes of a block: two of the longest answers. A line runs while there is room for the longest, so a block that is
// written before the script ends is at least half full.
pub const BLOCK_ROOM: usize = LINE_ROOM + LINE_ROOM;

// How far a script has run: where its next line starts, and how many bytes of the block are filled.
#[derive(Clone, Copy)]
pub struct Progress {
    pub next: usize,
    pub filled: usize,
}

// Runs lines from a place on, until none is left or the block may be too small for another's answer.
#[tactic(auto, unfolding(script::specs::Places::Reaches, script::specs::Program::program_limit))]
pub fn run_block(
    store: &mut Store<'_>,
    pairs: &mut [u32; PAIR_ROOM],
    block: &mut [u8; BLOCK_ROOM],
    script: &[u8],
    from: usize,
) -> Progress
    ensures same_buffers { SameBuffers store.old store.new }
    ensures runs_block { RunsBlock script.now
        (world_of store.old) pairs.old from
        (world_of store.new) pairs.new result.next
        block.new result.filled }
{
    let mut next = from;
    let mut filled = 0;
    while filled <= BLOCK_ROOM - LINE_ROOM {
        let Some(end) = next_line(script, next) else {
            break;
        };
        let line = &script[next..end];
        let length = run_line(store, pairs, &mut block[filled..], line);
        filled += length;
        next = end + 1;
    }
    Progress { next, filled }
}
