// Verify and repair as a program, so that they can be compared with a second reading of the specification on any memory: no line
// of a script reaches them. Records come from standard input, and each is answered by one of the same length to standard
// output. A record is 94 numbers of four bytes, the lowest byte first:
//
//     three    the lengths of the first, the second and the entry buffer; in the answer the number of verify, whether the
//              store is undamaged, and the number of repair
//     eleven   the state; in the answer the one that repair hands back
//     eighty   the room of the three buffers, 16, 16 and 48, of which the front is lent; in the answer as repair leaves it
//
// That the calls are answered in numbers as they answer is proved (calls.rt); that the numbers are read and written in this
// order is not, and shows in every record of the comparison.
#![tactic(auto)]

mod calls;

ghost use Rattle.std.specs.Prelude.{◌≤◌, length};

use calls::answer_calls;
use lent_bytes::state::{STATE_BYTES, read_state, write_state};
use little_endian::{read_numbers, write_numbers};
use model::State;
use std::io::{self, ErrorKind, Read, Stdin, Stdout, Write};

const BUCKET_ROOM: usize = 16;

const ENTRY_ROOM: usize = 48;

// The bytes of the longest part of a record, the entries.
const MOST_BYTES: usize = 192;

// Nothing says that an input ends, so the records are counted.
const MOST_RECORDS: usize = 10000000;

// The next numbers of the input.
fn get(input: &mut Stdin, numbers: &mut [u32]) -> io::Result<()>
    requires { length numbers.old ≤ 48 }
{
    let mut bytes = [0; MOST_BYTES];
    let part = &mut bytes[..numbers.len() * 4];
    input.read_exact(part)?;
    read_numbers(part, numbers);
    Ok(())
}

fn put(output: &mut Stdout, numbers: &[u32]) -> io::Result<()>
    requires { length numbers.now ≤ 48 }
{
    let mut bytes = [0; MOST_BYTES];
    let part = &mut bytes[..numbers.len() * 4];
    write_numbers(numbers, part);
    output.write_all(part)
}

// A state with a flag that is not 0 or 1 is none.
#[tactic(auto, unfolding(lent_bytes::specs::Exports::state_bytes))]
fn get_state(input: &mut Stdin) -> io::Result<State> {
    let mut bytes = [0; STATE_BYTES];
    input.read_exact(&mut bytes)?;
    read_state(&bytes).ok_or_else(|| ErrorKind::InvalidData.into())
}

#[tactic(auto, unfolding(lent_bytes::specs::Exports::state_bytes))]
fn put_state(output: &mut Stdout, s: State) -> io::Result<()> {
    let mut bytes = [0; STATE_BYTES];
    write_state(&mut bytes, s);
    output.write_all(&bytes)
}

// The front of a room. No record that the comparison makes asks for more than the whole.
fn front(room: &mut [u32], length: u32) -> &mut [u32] {
    let n = room.len().min(length as usize);
    &mut room[..n]
}

// The rest of a record, behind the lengths and the state. Each `and` has made its second read or write before it looks at the
// first, so that all are tried where one fails.
fn answer_with(
    input: &mut Stdin,
    output: &mut Stdout,
    lengths: [u32; 3],
    s: State,
) -> io::Result<()> {
    let mut first = [0; BUCKET_ROOM];
    let mut second = [0; BUCKET_ROOM];
    let mut entries = [0; ENTRY_ROOM];
    get(input, &mut first)
        .and(get(input, &mut second))
        .and(get(input, &mut entries))?;
    let a = answer_calls(
        front(&mut first, lengths[0]),
        front(&mut second, lengths[1]),
        front(&mut entries, lengths[2]),
        s,
    );
    put(output, &[a.verify, a.undamaged, a.repair])
        .and(put_state(output, a.state))
        .and(put(output, &first))
        .and(put(output, &second))
        .and(put(output, &entries))
}

// Answers one record. One that is cut short counts as none: it is a read that fails.
fn answer_one(input: &mut Stdin, output: &mut Stdout) -> io::Result<()> {
    let mut lengths = [0; 3];
    get(input, &mut lengths)?;
    let s = get_state(input)?;
    answer_with(input, output, lengths, s)
}

// A read or a write that fails is the end: the answers that are missing show.
fn main(rt: HostRuntime) {
    let mut input = rt.stdin();
    let mut output = rt.stdout();
    for _ in 0..MOST_RECORDS {
        if answer_one(&mut input, &mut output).is_err() {
            return;
        }
    }
}
