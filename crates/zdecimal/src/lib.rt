// Inner. A packed decimal as z/Architecture reads it: whether its digits are digits, its sign, and the number that the digits make. It knows nothing of scales
// and texts, refuses nothing, and asks for one byte at least.
#![tactic(auto)]

ghost use Rattle.std.specs.Prelude.{◌≡◌, true, ◌<◌, length};
ghost use Rattle.zdecimal.specs.ZDecimal.{z_digits, z_sign_code, are_digits, z_sign, base10};
ghost use Rattle.zdecimal.specs.Inner.{told_sign, capped};

// Powers of ten: the first is beyond every signed 64-bit number and within 64 bits, the others are that without its last digit and without its last two.
const TEN_19: u64 = 10_000_000_000_000_000_000;

const TEN_18: u64 = 1_000_000_000_000_000_000;

const TEN_17: u64 = 100_000_000_000_000_000;

#[derive(Clone, Copy)]
pub enum Sign {
    Plus,
    Minus,
}

// Whether every digit is 0 to 9. (The last byte is found by its place, here and below: `split_last` would ask for an answer where there are no bytes, which
// the contracts shut out. And bytes, one at least, are no type of their own: packed::decimal_len says why.)
pub fn digits_valid(data: &[u8]) -> bool
    requires { 0 < length «data».now }
    ensures { result ≡ are_digits (z_digits «data».now) }
{
    let last = data.len() - 1;
    data[..last].iter().all(|b| *b / 16 < 10 && *b % 16 < 10) && data[last] / 16 < 10
}

// What says the sign, as it stands there.
pub fn sign_code(data: &[u8]) -> u8
    requires { 0 < length «data».now }
    ensures { result ≡ z_sign_code «data».now }
{
    let last = data.len() - 1;
    data[last] % 16
}

// The sign that it says; a code below A says none.
pub fn sign_of(data: &[u8]) -> Option<Sign>
    requires { 0 < length «data».now }
    ensures { told_sign result ≡ z_sign (z_sign_code «data».now) }
{
    match sign_code(data) {
        0xA | 0xC | 0xE | 0xF => Some(Sign::Plus),
        0xB | 0xD => Some(Sign::Minus),
        _ => None,
    }
}

// The number that the digits make, or ten to the nineteenth where it is not below that: however many digits there are, nothing wraps. No Option:
// DECISIONS 80 names this function, and it can't fail. Tried: checked_mul and checked_add in place of the tests at 10^17 and 10^18. That is an instruction more
// for each byte, and in the best of four runs on a loaded machine 128 bytes took 539 ns in place of 273, so that the bar of docs/PERFORMANCE.md, 0.3 (it stands
// at 0.28), is missed.
pub fn magnitude(data: &[u8]) -> u64
    requires { (0 < length «data».now) × (are_digits (z_digits «data».now) ≡ true) }
    ensures { result ≡ capped (base10 (z_digits «data».now)) }
{
    let last = data.len() - 1;
    let mut n: u64 = 0;
    for b in &data[..last] {
        if TEN_17 <= n {
            return TEN_19;
        }
        n = 100 * n + u64::from(10 * (*b / 16) + *b % 16);
    }
    if TEN_18 <= n {
        return TEN_19;
    }
    10 * n + u64::from(data[last] / 16)
}
