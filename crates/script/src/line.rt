// What a line of a script says.
ghost use Rattle.std.specs.Prelude.{◌≡◌, length, drop};
ghost use Rattle.script.specs.Lines.{named, command, lines_of};
ghost use Rattle.script.specs.Places.{Reaches, lines_from};

use crate::number::parse_number;
use crate::scan::find;

// A line of a script (SPECIFICATION, "The script"), by its letter.
#[derive(Clone, Copy)]
pub enum Command {
    Init { capacity: u32, size: u32 },
    Add { key: u32, value: u32 },
    Update { key: u32, value: u32 },
    Delete(u32),
    Find(u32),
    Resize(u32),
    RehashStep,
    Scan(u32),
}

// The numbers after the letter.
#[derive(Clone, Copy)]
pub enum Arguments {
    Zero,
    One(u32),
    Two(u32, u32),
}

#[tactic(auto, unfolding(crate::specs::Lines::named))]
fn command_of(letter: u8, numbers: Arguments) -> Option<Command>
    ensures { result ≡ named letter numbers }
{
    match (letter, numbers) {
        (b'N', Arguments::Two(capacity, size)) => Some(Command::Init { capacity, size }),
        (b'A', Arguments::Two(key, value)) => Some(Command::Add { key, value }),
        (b'V', Arguments::Two(key, value)) => Some(Command::Update { key, value }),
        (b'D', Arguments::One(key)) => Some(Command::Delete(key)),
        (b'F', Arguments::One(key)) => Some(Command::Find(key)),
        (b'R', Arguments::One(size)) => Some(Command::Resize(size)),
        (b'S', Arguments::Zero) => Some(Command::RehashStep),
        (b'C', Arguments::One(cursor)) => Some(Command::Scan(cursor)),
        _ => None,
    }
}

// A line without its line feed: a letter, and up to two numbers, with one space before each. Anything else says nothing.
pub fn parse_line(line: &[u8]) -> Option<Command>
    ensures { result ≡ command line.now }
{
    let mut words = line.split(|b| *b == b' ');
    let Some(&[letter]) = words.next() else {
        return None;
    };
    match (words.next(), words.next(), words.next()) {
        (None, _, _) => command_of(letter, Arguments::Zero),
        (Some(a), None, _) => command_of(letter, Arguments::One(parse_number(a)?)),
        (Some(a), Some(b), None) => {
            command_of(letter, Arguments::Two(parse_number(a)?, parse_number(b)?))
        }
        _ => None,
    }
}

// Where the line ends that starts at a place of a script. The next one starts behind its line feed.
pub fn next_line(script: &[u8], from: usize) -> Option<usize>
    ensures script_value { lines_of (drop from script.now) ≡ lines_from script.now from result }
    ensures reaches { Reaches (length script.now) from result }
{
    if from < script.len() {
        Some(from + find(&script[from..], b'\n'))
    } else {
        None
    }
}
