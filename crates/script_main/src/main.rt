// The program (SPECIFICATION, "The program"): a script from standard input, its answers to standard output.
#![tactic(auto)]

ghost use Rattle.std.specs.Prelude.{◌≤◌, length, IfOk};

use script_block::{BLOCK_ROOM, run_block};
use script_run::PROGRAM_LIMIT;
use script_run::answer::PAIR_ROOM;
use std::io::{self, Read, Stdin, Stdout, Write};
use store::Store;

// The bytes of the longest script.
const LONGEST_SCRIPT: usize = 65536;

// Three numbers for each entry.
const ENTRY_ROOM: usize = PROGRAM_LIMIT * 3;

// Runs a script, and writes its answers a block at a time. If that could not be done, the error says why.
fn write_answers(
    output: &mut Stdout,
    store: &mut Store<'_>,
    pairs: &mut [u32; PAIR_ROOM],
    block: &mut [u8; BLOCK_ROOM],
    script: &[u8],
) -> io::Result<()> {
    let mut from = 0;
    while from < script.len() {
        let ran = run_block(store, pairs, block, script, from);
        output.write_all(&block[..ran.filled])?;
        from = ran.next;
    }
    Ok(())
}

fn run_script(output: &mut Stdout, script: &[u8]) -> io::Result<()> {
    let mut first = [0u32; PROGRAM_LIMIT];
    let mut second = [0u32; PROGRAM_LIMIT];
    let mut entries = [0u32; ENTRY_ROOM];
    let mut pairs = [0u32; PAIR_ROOM];
    let mut block = [0u8; BLOCK_ROOM];
    // Before a good `N` the state is zeros.
    let mut store = Store::new(&mut first, &mut second, &mut entries);
    write_answers(output, &mut store, &mut pairs, &mut block, script)
}

// Reads until the buffer is full or the input ends, and answers how many bytes there are at its front. Only what read itself
// answers tells whether it failed.
fn read_input(input: &mut Stdin, text: &mut [u8]) -> io::Result<usize>
    ensures { IfOk result (λ n. n ≤ length text.new) }
{
    let mut filled = 0;
    while filled < text.len() {
        match input.read(&mut text[filled..])? {
            0 => break,
            n => filled += n,
        }
    }
    Ok(filled)
}

// A read or a write that fails is said on standard error.
fn main(rt: HostRuntime) -> io::Result<()> {
    // One byte more than a script may have, so that one that is too long shows.
    let mut text = [0u8; LONGEST_SCRIPT + 1];
    let length = match read_input(&mut rt.stdin(), &mut text) {
        Ok(length) => length,
        Err(error) => return eprintln!(rt; "read: {error}"),
    };
    let mut output = rt.stdout();
    let written = if LONGEST_SCRIPT < length {
        output.write_all(b"10\n")
    } else {
        run_script(&mut output, &text[..length])
    };
    match written {
        Ok(()) => Ok(()),
        Err(error) => eprintln!(rt; "write: {error}"),
    }
}
