// Bytes as 32-bit numbers, little-endian, and back.
#![tactic(auto)]

ghost use Rattle.std.specs.Prelude.{◌≡◌, ◌*◌, length};
ghost use Rattle.little_endian.specs.Words.{encode};
ghost use Rattle.little_endian.specs.Reading.{Decoded, Fitting};

// All of the bytes, as numbers. It writes by index, since a proof knows no element of a slice behind
// an `iter_mut` that is zipped or behind `chunks_exact_mut`; so does the next function.
pub fn read_numbers(bytes: &[u8], into: &mut [u32])
    requires { length into.old * 4 ≡ length bytes.now }
    ensures { Decoded bytes.now into.new }
{
    let (words, _) = bytes.as_chunks();
    for (i, word) in words.iter().enumerate() {
        into[i] = u32::from_le_bytes(*word);
    }
}

// All of the numbers, as bytes.
#[tactic(auto, using(crate::proofs::Laws::write_end))]
pub fn write_numbers(from: &[u32], bytes: &mut [u8])
    requires { length from.now * 4 ≡ length bytes.old }
    ensures { bytes.new ≡ encode from.now }
{
    for (i, number) in from.iter().enumerate() {
        bytes[i * 4..i * 4 + 4].copy_from_slice(&number.to_le_bytes());
    }
}

// The bytes' numbers, at the front of a room that may be longer.
pub fn numbers_of<'a, 'b>(bytes: &'b [u8], room: &'a mut [u32]) -> &'a mut [u32]
    requires { Fitting bytes.now room.old }
    ensures { Decoded bytes.now result.now }
{
    let n = bytes.len() / 4;
    let part = &mut room[..n];
    read_numbers(bytes, part);
    part
}
