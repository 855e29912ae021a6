// Runs of ASCII.
ghost use Rattle.std.specs.Prelude.{◌≡◌, true, false, not, ◌<◌, ◌≤◌, length, take};
ghost use Rattle.buffer.specs.Buffer.{overwritten};
ghost use Rattle.unicode_standard.specs.Unicode.{utf8_text};
ghost use Rattle.unicode_standard.specs.Ascii.{all_ascii};
ghost use Rattle.utf.specs.Ascii.{AsciiRun};
ghost use Rattle.utf.specs.Lossy.{Wrote};

use buffer::copy;

// A byte of s is 80 or above. The loop takes the largest byte and has no way out but its end, so that it is compiled to vector code.
// No plainer as one function with any_high, any_unshown, any_broken and lone_leads: each keeps another thing (the largest byte, a bound, what four neighbours say,
// a count beside).
pub fn has_high(s: &[u8]) -> bool
    ensures { result ≡ not (all_ascii s.now) }
{
    let mut largest: u8 = 0;
    for b in s {
        if largest < *b {
            largest = *b;
        }
    }
    largest >= 0x80
}

// The same for a short block, save that 7F counts too: with a bound inside ASCII the compiler tests all bytes at once, and does not first make one of them.
pub fn any_high(s: &[u8]) -> bool
    ensures { result ≡ false → all_ascii s.now ≡ true }
{
    let mut high = false;
    for b in s {
        high = (*b >= 0x7F) | high;
    }
    high
}

// The first eight bytes of s are ASCII, or nothing is said. Their bitwise or has no branch for each.
fn ascii_8(s: &[u8]) -> bool
    requires { 8 ≤ length s.now }
    ensures { result ≡ true → AsciiRun 8 s.now }
{
    let a = s[0] | s[1] | s[2] | s[3];
    let b = s[4] | s[5] | s[6] | s[7];
    (a | b) < 0x80
}

// The length of a run of ASCII at the beginning of s, in whole blocks of N bytes, by a test of each. No plainer by enumerate: the length
// is N * i at one return and s.len() / N * N at the other.
pub fn ascii_blocks<const N: usize, F: Fn(&[u8]) -> bool>(s: &[u8], is_ascii: F) -> usize
    requires some { 0 < N }
    requires calls { (block : _) → length block.now ≡ N → F.pre is_ascii block }
    requires tells { (block : _) → length block.now ≡ N → F.post is_ascii block true → all_ascii block.now ≡ true }
    ensures { AsciiRun result s.now }
{
    let mut n = 0;
    for chunk in s.chunks_exact(N) {
        if !is_ascii(chunk) {
            return n;
        }
        n += N;
    }
    n
}

// The length of the run of ASCII at the beginning of s. Where there is none, no block is looked at. No plainer by position: the length is
// the place in s, and position would answer it from the blocks' end on, or nothing.
pub fn ascii_run(s: &[u8]) -> usize
    ensures { AsciiRun result s.now }
{
    if s.first().is_none_or(|&b| b >= 0x80) {
        return 0;
    }
    for i in ascii_blocks::<8, _>(s, ascii_8)..s.len() {
        if s[i] >= 0x80 {
            return i;
        }
    }
    s.len()
}

// How many of the first eight bytes of s are ASCII before one that is not. It has no branch that goes by a byte.
fn ascii_in_8(s: &[u8]) -> usize
    requires { 8 ≤ length s.now }
    ensures { AsciiRun result s.now × (result ≤ 8) }
{
    let mut all = true;
    let mut n = 0;
    for b in &s[..8] {
        all = all & (*b < 0x80);
        n += usize::from(all);
    }
    n
}

// Copies N bytes. They go through an array, so that all are read before one is written: one load and one store. No plainer
// by first_chunk and first_chunk_mut: they answer Options, and both would be unwrapped.
fn copy_array<const N: usize>(s: &[u8], out: &mut [u8])
    requires { (N ≤ length s.now) × (N ≤ length out.old) }
    ensures { out.new ≡ overwritten (take N s.now) out.old }
{
    let mut block = [0u8; N];
    copy(&s[0..N], &mut block);
    copy(&block, out);
}

// The functions that follow copy ASCII at the beginning of s, and return how many bytes of it. No plainer with out and its room as one struct, here and in lossy:
// each writes into another part of out, and the struct would be made anew for each.

// In whole blocks of 32 bytes.
fn copy_ascii_32s(s: &[u8], out: &mut [u8]) -> usize
    requires { length s.now ≤ length out.old }
    ensures run { AsciiRun result s.now }
    ensures bytes { out.new ≡ overwritten (take result s.now) out.old }
{
    let mut n = 0;
    for block in s.chunks_exact(32) {
        if any_high(block) {
            return n;
        }
        copy_array::<32>(block, &mut out[n..]);
        n += 32;
    }
    n
}

// In blocks of eight bytes, up to the first byte that is not ASCII or to the last seven. A block is copied before it is looked at: what of it is not ASCII
// will be written over, since the text is at least as long as what it is read from.
fn copy_ascii_8s(s: &[u8], out: &mut [u8]) -> usize
    requires { length (utf8_text s.now) ≤ length out.old }
    ensures { Wrote s.now out.old out.new result result 0 }
{
    let mut n = 0;
    for block in s.chunks_exact(8) {
        copy_array::<8>(block, &mut out[n..]);
        if !ascii_8(block) {
            return n + ascii_in_8(block);
        }
        n += 8;
    }
    n
}

// Byte by byte, up to the first that is not ASCII.
fn copy_ascii_bytes(s: &[u8], out: &mut [u8]) -> usize
    requires { length (utf8_text s.now) ≤ length out.old }
    ensures run { AsciiRun result s.now }
    ensures bytes { out.new ≡ overwritten (take result s.now) out.old }
{
    for (i, b) in s.iter().enumerate() {
        if *b >= 0x80 {
            return i;
        }
        out[i] = *b;
    }
    s.len()
}

// Up to the first byte that is not ASCII. Where one of the first eight is none, no larger block is looked at.
pub fn copy_ascii(s: &[u8], out: &mut [u8]) -> usize
    requires { length (utf8_text s.now) ≤ length out.old }
    ensures { Wrote s.now out.old out.new result result 0 }
{
    if s.len() < 8 {
        return copy_ascii_bytes(s, out);
    }
    if s[0] >= 0x80 {
        return 0;
    }
    if !ascii_8(s) {
        copy_array::<8>(s, out);
        return ascii_in_8(s);
    }
    let n = copy_ascii_32s(s, out);
    let m = n + copy_ascii_8s(&s[n..], &mut out[n..]);
    if 8 <= s.len() - m {
        return m;
    }
    m + copy_ascii_bytes(&s[m..], &mut out[m..])
}
