// Inner. The text of a packed decimal: how long it is, and writing it into a lent buffer. It refuses nothing: its callers hand it 1 to 128
// bytes and room for the text. It checks no digit and no sign (crates/zdecimal says which bytes are a number of z/Architecture).
#![tactic(auto)]

ghost use Rattle.std.specs.Prelude.{◌≡◌, List, ℕ, ◌+◌, ◌-◌, ◌*◌, ◌<◌, ◌≤◌, eqb, length, take, get_or};
ghost use Rattle.std.proofs.Math.Seq.{slice};
ghost use Rattle.refusal.specs.Refusal.{most_bytes};
ghost use Rattle.buffer.specs.Buffer.{overwritten};
ghost use Rattle.packed.specs.Packed.{nibbles, sign_nibble, sign_text, character, digit_text, trimmed, zeros, fraction, decimal_text};
ghost use Rattle.packed.specs.Inner.{Trimmed};

// The character of the nibble k.
fn digit_at(data: &[u8], k: usize) -> u8
    requires { k < 2 * length «data».now }
    ensures { result ≡ character (get_or (nibbles «data».now) k 0) }
{
    let b = data[k / 2];
    if k % 2 == 0 {
        b'0' + b / 16
    } else {
        b'0' + b % 16
    }
}

// Where the first w digits begin without their leading zeros. No `find`: it gives an Option, and the last place is the answer where all before are zeros.
fn whole_start(data: &[u8], w: usize) -> usize
    requires { (0 < w) × (w < 2 * length «data».now) }
    ensures { Trimmed (digit_text «data».now) w result }
{
    let last = w - 1;
    for z in 0..last {
        if digit_at(data, z) != b'0' {
            return z;
        }
    }
    last
}

// Writes the digits from a up to e, one by one. Tried: `out.iter_mut().zip(a..e)`. Of what a loop over an iterator made of `iter_mut` wrote nothing is known
// behind it, so that `bytes` did not close.
fn by_digit_write(data: &[u8], a: usize, e: usize, out: &mut [u8]) -> usize
    requires { (a ≤ e) × ((e < 2 * length «data».now) × (length (slice a e (digit_text «data».now)) ≤ length out.old)) }
    ensures count { result ≡ length (slice a e (digit_text «data».now)) }
    ensures bytes { out.new ≡ overwritten (slice a e (digit_text «data».now)) out.old }
{
    for k in a..e {
        out[k - a] = digit_at(data, k);
    }
    e - a
}

// Writes the digits of the bytes from i up to j, two at a time. Tried: `zip(out.chunks_exact_mut(2))`, and as above `bytes` did not close.
fn by_byte_write(data: &[u8], i: usize, j: usize, out: &mut [u8]) -> usize
    requires { (i ≤ j) × ((j < length «data».now) × (length (slice (2 * i) (2 * j) (digit_text «data».now)) ≤ length out.old)) }
    ensures count { result ≡ length (slice (2 * i) (2 * j) (digit_text «data».now)) }
    ensures bytes { out.new ≡ overwritten (slice (2 * i) (2 * j) (digit_text «data».now)) out.old }
{
    for (n, b) in data[i..j].iter().enumerate() {
        out[2 * n] = b'0' + *b / 16;
        out[2 * n + 1] = b'0' + *b % 16;
    }
    2 * (j - i)
}

// Writes the digits from a up to e; many of them by bytes, with those of a byte that is not whole one by one.
fn digits_write(data: &[u8], a: usize, e: usize, out: &mut [u8]) -> usize
    requires { (a ≤ e) × ((e < 2 * length «data».now) × (length (slice a e (digit_text «data».now)) ≤ length out.old)) }
    ensures count { result ≡ length (slice a e (digit_text «data».now)) }
    ensures bytes { out.new ≡ overwritten (slice a e (digit_text «data».now)) out.old }
{
    if e - a < 8 {
        return by_digit_write(data, a, e, out);
    }
    let i = a / 2 + 1;
    let j = e / 2;
    let mut o = by_digit_write(data, a, 2 * i, out);
    o += by_byte_write(data, i, j, &mut out[o..]);
    o += by_digit_write(data, 2 * j, e, &mut out[o..]);
    o
}

fn zeros_write(n: usize, out: &mut [u8]) -> usize
    requires { length (zeros n) ≤ length out.old }
    ensures count { result ≡ length (zeros n) }
    ensures bytes { out.new ≡ overwritten (zeros n) out.old }
{
    out[..n].fill(b'0');
    n
}

// By its own reading: `decimal` has it that this text and the number of z/Architecture share no code. (`data.last()` would ask for an answer where there are
// no bytes, which the contract shuts out.)
fn is_minus(data: &[u8]) -> bool
    requires { 0 < length «data».now }
    ensures { result ≡ eqb (sign_nibble «data».now) 0xD }
{
    let last = data.len() - 1;
    data[last] % 16 == 0xD
}

fn sign_len(data: &[u8]) -> usize
    requires { 0 < length «data».now }
    ensures { (result ≡ length (sign_text «data».now)) × (result ≤ 1) }
{
    usize::from(is_minus(data))
}

fn sign_write(data: &[u8], out: &mut [u8]) -> usize
    requires { (0 < length «data».now) × (length (sign_text «data».now) ≤ length out.old) }
    ensures count { result ≡ length (sign_text «data».now) }
    ensures bytes { out.new ≡ overwritten (sign_text «data».now) out.old }
{
    if is_minus(data) {
        out[0] = b'-';
        return 1;
    }
    0
}

// The whole part, of the first w digits.
fn whole_len(data: &[u8], w: usize) -> usize
    requires { w < 2 * length «data».now }
    ensures { (result ≡ length (trimmed (take w (digit_text «data».now)))) × (result ≤ w + 1) }
{
    if w == 0 {
        return 1;
    }
    w - whole_start(data, w)
}

fn whole_write(data: &[u8], w: usize, out: &mut [u8]) -> usize
    requires { (w < 2 * length «data».now) × (length (trimmed (take w (digit_text «data».now))) ≤ length out.old) }
    ensures count { result ≡ length (trimmed (take w (digit_text «data».now))) }
    ensures bytes { out.new ≡ overwritten (trimmed (take w (digit_text «data».now))) out.old }
{
    if w == 0 {
        out[0] = b'0';
        return 1;
    }
    let z = whole_start(data, w);
    digits_write(data, z, w, out)
}

// The point and the fraction digits, where there are any.
fn fraction_len(scale: usize) -> usize
    requires { scale < 256 }
    ensures { ((ds : List ℕ) → result ≡ length (fraction scale ds)) × (result < 257) }
{
    if scale == 0 {
        return 0;
    }
    1 + scale
}

fn fraction_write(data: &[u8], scale: usize, out: &mut [u8]) -> usize
    requires { (0 < length «data».now) × ((length «data».now ≤ most_bytes) × (length (fraction scale (digit_text «data».now)) ≤ length out.old)) }
    ensures count { result ≡ length (fraction scale (digit_text «data».now)) }
    ensures bytes { out.new ≡ overwritten (fraction scale (digit_text «data».now)) out.old }
{
    if scale == 0 {
        return 0;
    }
    let t = 2 * data.len() - 1;
    out[0] = b'.';
    let mut o = 1;
    o += zeros_write(scale.saturating_sub(t), &mut out[o..]);
    o += digits_write(data, t.saturating_sub(scale), t, &mut out[o..]);
    o
}

// The length of the text of a packed decimal. 1 to 128 bytes are a slice and no type of their own: TRACE names `decimal_write`, which takes any such slice, and
// the cells' decoders, which call both, know the bytes' number by a column's width and would have to test it again to make one.
pub fn decimal_len(data: &[u8], scale: u8) -> usize
    requires { (0 < length «data».now) × (length «data».now ≤ most_bytes) }
    ensures { result ≡ length (decimal_text scale «data».now) }
{
    let f = usize::from(scale);
    let w = (2 * data.len() - 1).saturating_sub(f);
    sign_len(data) + whole_len(data, w) + fraction_len(f)
}

// Writes it into out, from its first byte, and returns the number of bytes written.
pub fn decimal_write(data: &[u8], scale: u8, out: &mut [u8]) -> usize
    requires { (0 < length «data».now) × ((length «data».now ≤ most_bytes) × (length (decimal_text scale «data».now) ≤ length out.old)) }
    ensures count { result ≡ length (decimal_text scale «data».now) }
    ensures bytes { out.new ≡ overwritten (decimal_text scale «data».now) out.old }
{
    let f = usize::from(scale);
    let w = (2 * data.len() - 1).saturating_sub(f);
    let mut o = sign_write(data, out);
    o += whole_write(data, w, &mut out[o..]);
    o += fraction_write(data, f, &mut out[o..]);
    o
}
