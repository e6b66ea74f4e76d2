// The fingerprint that an iterator keeps (Redis's dictFingerprint): numbers folded by Thomas Wang's
// hash of a 64-bit number, over numbers without a sign that wrap on purpose.
#![tactic(auto, unfolding(crate::specs::Mix::cut, crate::specs::Mix::plus, crate::specs::Mix::inverse, crate::specs::Mix::left, crate::specs::Mix::right, crate::specs::Mix::mixed, crate::specs::Mix::folded, crate::specs::Mix::fingerprint))]

ghost use Rattle.std.specs.Prelude.{◌≡◌, ◌<◌, bit_xor};
ghost use Rattle.fingerprint.specs.Mix as Mix;

// By so many places to the left: what leaves the 64 bits is lost.
fn shifted_left(x: u64, places: u64) -> u64
    requires { places < 64 }
    ensures { result ≡ Mix.left places x }
{
    x << places
}

// x shifted, less itself, less one. Taking off x and one is adding all bits of x turned over, as
// Redis does.
fn shifted_less_itself(x: u64, places: u64) -> u64
    requires { places < 64 }
    ensures { result ≡ Mix.plus (Mix.inverse x) (Mix.left places x) }
{
    shifted_left(x, places).wrapping_sub(x).wrapping_sub(1)
}

// x and x shifted by two numbers of places: a product with no multiplication.
fn plus_shifted(x: u64, few: u64, more: u64) -> u64
    requires { (few < 64) × (more < 64) }
    ensures { result ≡ Mix.plus (Mix.plus x (Mix.left few x)) (Mix.left more x) }
{
    x.wrapping_add(shifted_left(x, few))
        .wrapping_add(shifted_left(x, more))
}

// The high bits of x laid over the low ones. The shift brings in zeros, since x has no sign.
fn xor_shifted_right(x: u64, places: u64) -> u64
    requires { places < 64 }
    ensures { result ≡ bit_xor x (Mix.right places x) }
{
    x ^ (x >> places)
}

// Redis's lines, one for one.
fn mix(hash: u64) -> u64
    ensures { result ≡ Mix.mixed hash }
{
    let a = shifted_less_itself(hash, 21);
    let b = xor_shifted_right(a, 24);
    let c = plus_shifted(b, 3, 8);
    let d = xor_shifted_right(c, 14);
    let e = plus_shifted(d, 2, 4);
    let f = xor_shifted_right(e, 28);
    f.wrapping_add(shifted_left(f, 31))
}

// Each number is added to what is made of those before it, and the sum is mixed.
pub fn fingerprint(numbers: [u64; 6]) -> u64
    ensures { result ≡ Mix.fingerprint numbers }
{
    numbers.iter().fold(0, |hash, n| mix(hash.wrapping_add(*n)))
}
