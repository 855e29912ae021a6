// The parts of a line of the list of stored answers: fields parted by one space, decimal numbers, bytes in upper-case hexadecimal, one byte many
// times. It knows no kind of line.
ghost use Rattle.std.specs.Prelude.{◌≡◌, List, ℕ, ◌+◌, ◌/◌, ◌%◌, ◌<◌, ◌≤◌, ◌++◌, length, get_or, take, IfSome};
ghost use Rattle.conversion.specs.Hex.{hex_digit, hex_text};
ghost use Rattle.answers.specs.Lines.{bytes_field, IsNumber, Repeats, Says};

use crate::rest::read;

// More bytes than this are not written as one byte many times.
const MOST_TIMES: usize = 4294967295;

// What stands before the first b in s, and what stands from there on: nothing where there is none.
pub fn cut(s: &[u8], b: u8) -> (&[u8], &[u8])
    ensures whole { result.0.now ++ result.1.now ≡ s.now }
    ensures before { (k : ℕ) → k < length result.0.now → get_or result.0.now k 0 ≡ b → ⊥ }
    ensures found { 0 < length result.1.now → get_or result.1.now 0 0 ≡ b }
{
    s.split_at(first_of(s, b))
}

// The first place of b in s, or the length of s where there is none.
fn first_of(s: &[u8], b: u8) -> usize
    ensures within { result ≤ length s.now }
    ensures before { (k : ℕ) → k < result → get_or s.now k 0 ≡ b → ⊥ }
    ensures found { result < length s.now → get_or s.now result 0 ≡ b }
{
    s.iter().position(|&x| x == b).unwrap_or(s.len())
}

// What stands before the first ` A `, and the answer behind it.
pub fn split_answer(line: &[u8]) -> Option<(&[u8], &[u8])>
    ensures { IfSome result (λ r. length r.0.now + 3 + length r.1.now ≡ length line.now) }
{
    // By a pattern: with `==` the literal, an array, has to be made a slice.
    let before = line.windows(3).position(|w| matches!(w, b" A "))?;
    Some((&line[..before], &line[before + 3..]))
}

// The number of fields: one more than there are spaces. A request of another number than its kind has is none; as an array of N, its fields would be taken
// one by one in a loop, and the number asked all the same.
pub fn field_count(s: &[u8]) -> usize {
    s.split(|&b| b == b' ').count()
}

// What stands behind the first separator; empty where there is none.
fn behind_first(s: &[u8], separator: u8) -> &[u8]
    ensures { (front : List ℕ) × (front ++ result.now ≡ s.now) }
{
    match cut(s, separator).1 {
        [_, rest @ ..] => rest,
        [] => &[],
    }
}

// What stands behind the first k separators; empty where there are fewer.
pub fn behind_parts(s: &[u8], k: usize, separator: u8) -> &[u8]
    ensures { (front : List ℕ) × (front ++ result.now ≡ s.now) }
{
    let mut behind = s;
    for _ in 0..k {
        behind = behind_first(behind, separator);
    }
    behind
}

// What stands behind k separators, up to the next; empty where there are fewer.
pub fn part(s: &[u8], k: usize, separator: u8) -> &[u8] {
    s.split(|&b| b == separator).nth(k).unwrap_or_default()
}

// The field at a place, from 0; empty where there is none.
pub fn field(s: &[u8], k: usize) -> &[u8] {
    part(s, k, b' ')
}

// A decimal number up to `most`, as the list writes it: digits only, no leading zero.
#[tactic(auto, using(crate::proofs::Decimal::printed_number))]
pub fn number(s: &[u8], most: usize) -> Option<usize>
    requires { most < 4294967296 }
    ensures bound { IfSome result (λ n. n ≤ most) }
    ensures number { IfSome result (IsNumber s.now) }
{
    let n = read(s)?;
    (n <= most).then_some(n)
}

// The value of an upper-case hexadecimal digit. `to_digit` would take small letters too, and answers 32 bits.
pub fn hex_value(b: u8) -> Option<u8>
    ensures { IfSome result (λ d. (d < 16) × (hex_digit d ≡ b)) }
{
    match b {
        b'0'..=b'9' => Some(b - b'0'),
        b'A'..=b'F' => Some(b - b'A' + 10),
        _ => None,
    }
}

// The byte of two digits. Two parameters: two of the three callers have the digits by name, from a pattern.
pub(crate) fn hex_pair(high: u8, low: u8) -> Option<u8>
    ensures { IfSome result (λ b. (b < 256) × (hex_digit (b / 16) ≡ high) × (hex_digit (b % 16) ≡ low)) }
{
    let h = hex_value(high)?;
    let l = hex_value(low)?;
    Some(16 * h + l)
}

// The bytes of a field, put at the beginning of out, and their number. Two digits a byte, and `-` for no bytes.
#[tactic(auto, using(crate::proofs::Hex::as_some_field))]
pub fn bytes(s: &[u8], out: &mut [u8]) -> Option<usize>
    ensures bytes { IfSome result (λ n. bytes_field (take n out.new) ≡ s.now) }
    ensures fits { IfSome result (λ n. n ≤ length out.new) }
{
    match s {
        b"-" => Some(0),
        [_, ..] => hex_bytes(s, out),
        [] => None,
    }
}

fn hex_bytes(s: &[u8], out: &mut [u8]) -> Option<usize>
    ensures bytes { IfSome result (λ n. hex_text (take n out.new) ≡ s.now) }
    ensures fits { IfSome result (λ n. n ≤ length out.new) }
{
    let n = s.len() / 2;
    if out.len() < n || 2 * n < s.len() {
        return None;
    }
    // By places. Tried over as_chunks::<2>() zipped with `out.iter_mut()`: `search` did not close it, for want of an invariant that ties both places.
    for i in 0..n {
        out[i] = hex_pair(s[2 * i], s[2 * i + 1])?;
    }
    Some(n)
}

// The bytes of a field that may also write one byte many times, as `00*1048577`, put at the beginning of out, and their number.
pub fn bytes_or_repeated(s: &[u8], out: &mut [u8]) -> Option<usize>
    ensures bytes { IfSome result (λ n. Says s.now (take n out.new)) }
    ensures fits { IfSome result (λ n. n ≤ length out.new) }
{
    let (pair, rest) = cut(s, b'*');
    match rest {
        [] => bytes(s, out),
        [_, times @ ..] => repeated(pair, times, out),
    }
}

// The byte that two digits write, so many times.
fn repeated(pair: &[u8], times: &[u8], out: &mut [u8]) -> Option<usize>
    ensures bytes { IfSome result (λ n. Repeats pair.now times.now (take n out.new)) }
    ensures fits { IfSome result (λ n. n ≤ length out.new) }
{
    let &[high, low] = pair else {
        return None;
    };
    let b = hex_pair(high, low)?;
    let n = number(times, MOST_TIMES)?;
    if out.len() < n {
        return None;
    }
    out[..n].fill(b);
    Some(n)
}
