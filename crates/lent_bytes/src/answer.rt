// The answer's eight bytes: two results.
ghost use Rattle.std.specs.Prelude.{◌≡◌, [], ◌∷◌, length};
ghost use Rattle.little_endian.specs.Words.{encode};
ghost use Rattle.lent_bytes.specs.Exports.{answer_bytes, cleared};

use little_endian::write_numbers;

pub const ANSWER_BYTES: usize = 2 * 4;

#[tactic(auto, unfolding(crate::specs::Exports::answer_bytes))]
pub fn write_answer(answer: &mut [u8], one: u32, two: u32)
    requires { length answer.old ≡ answer_bytes }
    ensures { answer.new ≡ encode (one ∷ two ∷ []) }
{
    write_numbers(&[one, two], answer);
}

// The first check failed: 1, and an answer of eight bytes is zeroed.
#[tactic(auto, unfolding(crate::specs::Exports::answer_bytes, crate::specs::Exports::cleared, crate::specs::Exports::results,))]
pub fn refuse(answer: &mut [u8]) -> u32
    ensures { (result ≡ 1) × (answer.new ≡ cleared answer.old) }
{
    if answer.len() == ANSWER_BYTES {
        write_answer(answer, 0, 0);
    }
    1
}
