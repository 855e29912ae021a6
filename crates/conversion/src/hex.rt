// Upper-case hexadecimal.
ghost use Rattle.std.specs.Prelude.{◌≡◌, ◌*◌, ◌<◌, ◌≤◌, ◌++◌, length};
ghost use Rattle.refusal.specs.Refusal.{input_limit};
ghost use Rattle.buffer.specs.Buffer.{overwritten};
ghost use Rattle.conversion.specs.Hex.{hex_digit, hex_text};

use buffer::copy;

// The digit of a number below 16.
#[tactic(auto, unfolding(crate::specs::Hex::hex_digit))]
pub fn hex_digit(n: u8) -> u8
    requires { n < 16 }
    ensures { result ≡ hex_digit n }
{
    if n < 10 { b'0' + n } else { b'A' + (n - 10) }
}

// Writes the digits of s into out, from its first byte, and returns their number. (Not by `zip(out.chunks_exact_mut(2))`: of what a loop over an iterator of
// `iter_mut`'s kind wrote nothing is known behind it, as packed::by_byte_write tried.)
pub fn hex_write(s: &[u8], out: &mut [u8]) -> usize
    requires { length (hex_text s.now) ≤ length out.old }
    ensures count { result ≡ length (hex_text s.now) }
    ensures bytes { out.new ≡ overwritten (hex_text s.now) out.old }
{
    for (i, b) in s.iter().enumerate() {
        out[2 * i] = hex_digit(b / 16);
        out[2 * i + 1] = hex_digit(b % 16);
    }
    2 * s.len()
}

// The length of a mark and the digits of s.
#[tactic(auto, using(crate::proofs::PlainText::marked_length))]
pub(crate) fn marked_hex_len(mark: &[u8], s: &[u8]) -> usize
    requires { (length mark.now ≤ 14) × (length s.now ≤ input_limit) }
    ensures { result ≡ length (mark.now ++ hex_text s.now) }
{
    mark.len() + 2 * s.len()
}

// Writes a mark and then the digits of s.
pub fn marked_hex_write(mark: &[u8], s: &[u8], out: &mut [u8]) -> usize
    requires { length (mark.now ++ hex_text s.now) ≤ length out.old }
    ensures count { result ≡ length (mark.now ++ hex_text s.now) }
    ensures bytes { out.new ≡ overwritten (mark.now ++ hex_text s.now) out.old }
{
    let mut o = copy(mark, out);
    o += hex_write(s, &mut out[o..]);
    o
}
