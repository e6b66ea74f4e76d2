// The fingerprint as a program, so that it can be compared with another one on many numbers: arrays
// of six from standard input, each number as eight bytes with the lowest first; the fingerprint of
// each to standard output, in decimal, on a line of its own.
#![tactic(auto)]

ghost use Rattle.std.specs.Prelude.{◌≡◌, map};
ghost use Rattle.std.specs.Int.{w64, from_le_bytes};
ghost use Rattle.std.specs.Simd.{first_chunks};
ghost use Rattle.fingerprint.specs.Mix as Mix;

use fingerprint::fingerprint;
use std::io::{Read, Stdin, Stdout};
use std::{array, io};

// The bytes of an array.
const ARRAY_BYTES: usize = 48;

// Nothing says that an input ends, so the arrays are counted.
const MOST_ARRAYS: usize = 1000000;

// Every eight bytes are a number, the lowest byte first.
fn fingerprint_of(bytes: &[u8; ARRAY_BYTES]) -> u64
    ensures { result ≡ Mix.fingerprint (map (from_le_bytes w64) (first_chunks 8 6 bytes.now)) }
{
    let (words, _) = bytes.as_chunks();
    fingerprint(array::from_fn(|i| u64::from_le_bytes(words[i])))
}

// Answers one array. One that is cut short counts as none: it is a read that fails.
fn answer_one(input: &mut Stdin, output: &Stdout) -> io::Result<()> {
    let mut bytes = [0; ARRAY_BYTES];
    input.read_exact(&mut bytes)?;
    println!(output; "{}", fingerprint_of(&bytes))
}

// A read or a write that fails is the end: the lines that are missing show.
fn main(rt: HostRuntime) {
    let mut input = rt.stdin();
    let output = rt.stdout();
    for _ in 0..MOST_ARRAYS {
        if answer_one(&mut input, &output).is_err() {
            return;
        }
    }
}
