// The line that answers a line of a script, as bytes in a lent buffer.
ghost use Rattle.std.specs.Prelude.{◌≡◌, [], ◌∷◌, ◌++◌, ◌+◌, ◌≤◌, length};
ghost use Rattle.model.specs.Answers.{error_number};
ghost use Rattle.script.specs.Numbers.{decimal};
ghost use Rattle.script.specs.Lines.{space};
ghost use Rattle.script.specs.Answers.{spaced, answer_line, Wrote};

use model::Error;

// The number of a refusal (SPECIFICATION, "Answers").
#[tactic(auto, unfolding(model::specs::Answers::error_number))]
pub fn error_number(e: Error) -> u32
    ensures { result ≡ error_number e }
{
    match e {
        Error::BadState => 1,
        Error::Damaged => 2,
        Error::Absent => 3,
        Error::Present => 4,
        Error::Full => 5,
        Error::BadSize => 6,
        Error::Rehashing => 7,
        Error::NotRehashing => 8,
        Error::Changed => 15,
        Error::NoSafeIterator => 16,
        Error::TooManyIterators => 17,
        Error::Paused => 18,
    }
}

// A line as it is written: the buffer, and how many bytes at its front have been written.
#[derive(Drop)]
struct Line<'a> {
    out: &'a mut [u8],
    written: usize,
}

impl Line<'_> {
    fn byte(&mut self, b: u8)
        requires { self.old.written + 1 ≤ length self.old.out.now }
        ensures same_buffer { self.new.out.ghost_name ≡ self.old.out.ghost_name }
        ensures wrote { Wrote self.old.out.now self.old.written (b ∷ []) self.new.out.now self.new.written }
    {
        self.out[self.written] = b;
        self.written += 1;
    }

    // The digits before the last, then the last.
    fn number(&mut self, n: u32)
        requires { self.old.written + length (decimal n) ≤ length self.old.out.now }
        ensures same_buffer { self.new.out.ghost_name ≡ self.old.out.ghost_name }
        ensures wrote { Wrote self.old.out.now self.old.written (decimal n) self.new.out.now self.new.written }
    {
        if 10 <= n {
            self.number(n / 10);
        }
        self.byte(b'0' + (n % 10) as u8);
    }

    // Each value with its space.
    fn values(&mut self, values: &[u32])
        requires { self.old.written + length (spaced values.now) ≤ length self.old.out.now }
        ensures same_buffer { self.new.out.ghost_name ≡ self.old.out.ghost_name }
        ensures wrote { Wrote self.old.out.now self.old.written (spaced values.now) self.new.out.now self.new.written }
    {
        for value in values {
            self.byte(b' ');
            self.number(*value);
        }
    }
}

// A number alone, from the front of the buffer: what a refusal writes, and a call that answers 0 and nothing more.
pub fn write_number_line(out: &mut [u8], number: u32) -> usize
    requires { length (answer_line number []) ≤ length out.old }
    ensures { Wrote out.old 0 (answer_line number []) out.new result }
{
    let mut line = Line { out, written: 0 };
    line.number(number);
    line.byte(b'\n');
    line.written
}

// 0 and the result's values, which come in two parts.
pub fn write_result_line(out: &mut [u8], values: &[u32], more: &[u32]) -> usize
    requires { length (answer_line 0 (values.now ++ more.now)) ≤ length out.old }
    ensures { Wrote out.old 0 (answer_line 0 (values.now ++ more.now)) out.new result }
{
    let mut line = Line { out, written: 0 };
    line.number(0);
    line.values(values);
    line.values(more);
    line.byte(b'\n');
    line.written
}
