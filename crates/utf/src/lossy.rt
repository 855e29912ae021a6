// The text of UTF-8 bytes, where U+FFFD replaces what is malformed (T3): how long it is, and its writing.
ghost use Rattle.std.specs.Prelude.{true, false, IfSome, List, ◌≡◌, ℕ, ◌+◌, ◌<◌, ◌≤◌, length, take, drop, get_or};
ghost use Rattle.buffer.specs.Buffer.{overwritten};
ghost use Rattle.unicode_standard.specs.Unicode.{utf8, piece_text, replacements, utf8_pieces, utf8_text};
ghost use Rattle.utf.specs.Utf8Code.{first_at, Coded, PieceAt};
ghost use Rattle.utf.specs.Lossy.{Lone, PartLength, Wrote};

use super::ascii::{ascii_run, copy_ascii};
use super::blocks::{between, good_blocks};
use super::part::{Part, PartWritten};
use super::utf8::{Standing, common_at, first_at, run_of, step_at};
use buffer::{Written, copy};

// How many bytes of s are C0 or above, where none is a trail byte. The loop has no way out but its end, so that it is compiled to vector code.
fn lone_leads(s: &[u8]) -> Option<u8>
    requires { length s.now ≤ 64 }
    ensures { IfSome result (λ n. Lone s.now n) }
{
    let mut trail = false;
    let mut k: u8 = 0;
    for b in s {
        trail = between(*b, 0x80, 0xBF) | trail;
        k += b / 192;
    }
    if trail {
        return None;
    }
    Some(k)
}

// The blocks at the beginning of s that have no trail byte in them and none after them: each byte is ASCII, or malformed by itself. The bound of the clause is
// input_limit's, here and below: that stands in refusal, and utf would rest on that crate for one number.
fn lone_blocks(s: &[u8]) -> Part
    requires { length s.now ≤ 1048576 }
    ensures { PartLength s.now result.read result.len }
{
    let mut i = 0;
    let mut n = 0;
    // Each block is looked at with the byte behind it. The place where they end is handed out, so that windows in steps would count it beside.
    loop {
        if s.len() - i < 65 {
            return Part { read: i, len: n };
        }
        let e = i + 64;
        let Some(k) = lone_leads(&s[i..e]) else {
            return Part { read: i, len: n };
        };
        if between(s[e], 0x80, 0xBF) {
            return Part { read: i, len: n };
        }
        n += 64 + 2 * usize::from(k);
        i = e;
    }
}

// The pieces at the beginning of s, one after the other: 64 bytes of it or a little more, or all.
fn some_pieces(s: &[u8]) -> Part
    requires { length s.now ≤ 1048576 }
    ensures { PartLength s.now result.read result.len × (0 < length s.now → 0 < result.read) }
{
    let mut i = 0;
    let mut n = 0;
    // Each step is as long as what is read: a run of ASCII, or a piece.
    loop {
        if 64 <= i {
            return Part { read: i, len: n };
        }
        let k = ascii_run(&s[i..]);
        i += k;
        n += k;
        if s.len() <= i {
            return Part { read: i, len: n };
        }
        match step_at(s, i) {
            Standing::WellFormed(t) => {
                i += t;
                n += t;
            }
            Standing::Malformed(bad) => {
                i += bad;
                n += 3;
            }
        }
    }
}

// The length of the text of s. After a malformed part the blocks begin again.
pub fn utf8_lossy_len(s: &[u8]) -> usize
    requires { length s.now ≤ 1048576 }
    ensures { result ≡ length (utf8_text s.now) }
{
    let mut i = 0;
    let mut n = 0;
    // Each step is as long as what is read.
    loop {
        let b = lone_blocks(&s[i..]);
        i += b.read;
        n += b.len;
        let p = some_pieces(&s[i..]);
        i += p.read;
        n += p.len;
        if s.len() <= i {
            return n;
        }
        let g = good_blocks(&s[i..], 32);
        i += g;
        n += g;
    }
}

// Writes U+FFFD.
fn write_replacement(out: &mut [u8])
    requires { 3 ≤ length out.old }
    ensures { out.new ≡ overwritten (utf8 0xFFFD) out.old }
{
    copy(&[0xEF, 0xBF, 0xBD], out);
}

// Copies the two or three bytes of s from i on. By a copy of the slice, a text with malformed parts took 1.02 to 1.08 of the instructions.
fn copy_common(s: &[u8], i: usize, n: usize, out: &mut [u8])
    requires { (i + n ≤ length s.now) × ((n ≤ length out.old) × ((2 ≤ n) × (n ≤ 3))) }
    ensures { out.new ≡ overwritten (take n (drop i s.now)) out.old }
{
    out[0] = s[i];
    out[1] = s[i + 1];
    if n == 2 {
        return;
    }
    out[2] = s[i + 2];
}

// Copies the bytes of a sequence, one by one. By buffer's copy, which calls the C library for these few bytes, texts with malformed parts among characters
// that begin E0 or ED took 1.14 to 1.17 of the instructions and 1.2 to 1.5 of the time, and some were then slower than the Rust that had not been.
fn copy_bytes(s: &[u8], out: &mut [u8])
    requires { length s.now ≤ length out.old }
    ensures { out.new ≡ overwritten s.now out.old }
{
    for (i, b) in s.iter().enumerate() {
        out[i] = *b;
    }
}

// No sequence begins with b: it is malformed by itself.
fn begins_none(b: u8) -> bool
    ensures { result ≡ true → ((s : List ℕ) (i : ℕ) → get_or s i 0 ≡ b → PieceAt s i 1 false) }
{
    between(b, 0x80, 0xC1) | (b >= 0xF5)
}

// Writes what stands at i, and returns what that is. A common sequence goes first, and first_at is called: the loop over this stays small.
fn write_sequence(s: &[u8], i: usize, out: &mut [u8]) -> Standing
    requires { (i < length s.now) × (length (piece_text (first_at s.now i).piece) ≤ length out.old) }
    ensures piece { Coded (PieceAt s.now i) result }
    ensures bytes { out.new ≡ overwritten (piece_text (first_at s.now i).piece) out.old }
{
    if let Some(n) = common_at(s, i) {
        copy_common(s, i, n, out);
        return Standing::WellFormed(n);
    }
    match first_at(s, i) {
        Standing::WellFormed(n) => {
            let e = i + n;
            copy_bytes(&s[i..e], out);
            Standing::WellFormed(n)
        }
        Standing::Malformed(n) => {
            write_replacement(out);
            Standing::Malformed(n)
        }
    }
}

// The same, with a quick answer for a byte that no sequence begins with.
fn write_piece(s: &[u8], i: usize, out: &mut [u8]) -> Standing
    requires { (i < length s.now) × (length (piece_text (first_at s.now i).piece) ≤ length out.old) }
    ensures piece { Coded (PieceAt s.now i) result }
    ensures bytes { out.new ≡ overwritten (piece_text (first_at s.now i).piece) out.old }
{
    if begins_none(s[i]) {
        write_replacement(out);
        return Standing::Malformed(1);
    }
    write_sequence(s, i, out)
}

// Writes the pieces at the beginning of s, one after the other: all, or up to a well-formed one, not ASCII, that ends 64 bytes after the last malformed part.
fn write_some(s: &[u8], out: &mut [u8]) -> PartWritten
    requires { length (utf8_text s.now) ≤ length out.old }
    ensures { Wrote s.now out.old out.new result.part.read result.part.len result.replaced × (0 < length s.now → 0 < result.part.read) }
{
    let mut last = 0;
    let mut i = 0;
    let mut o = 0;
    let mut replaced = 0;
    // Each step is as long as what is read: a run of ASCII, or a piece.
    loop {
        let k = copy_ascii(&s[i..], &mut out[o..]);
        i += k;
        o += k;
        if s.len() <= i {
            return PartWritten {
                part: Part { read: i, len: o },
                replaced,
            };
        }
        match write_piece(s, i, &mut out[o..]) {
            Standing::Malformed(bytes) => {
                i += bytes;
                o += 3;
                replaced += 1;
                last = i;
            }
            Standing::WellFormed(n) => {
                i += n;
                o += n;
                if 64 <= i - last {
                    return PartWritten {
                        part: Part { read: i, len: o },
                        replaced,
                    };
                }
            }
        }
    }
}

// Writes the text of s into out, from its first byte: some pieces, then a run that is well-formed, and again.
fn write_runs(s: &[u8], out: &mut [u8]) -> Written
    requires { length (utf8_text s.now) ≤ length out.old }
    ensures count { result.len ≡ length (utf8_text s.now) }
    ensures bytes { out.new ≡ overwritten (utf8_text s.now) out.old }
    ensures replaced { result.replaced ≡ replacements (utf8_pieces s.now) }
{
    let mut i = 0;
    let mut o = 0;
    let mut replaced = 0;
    // Each step is as long as what is read.
    loop {
        let w = write_some(&s[i..], &mut out[o..]);
        i += w.part.read;
        o += w.part.len;
        replaced += w.replaced;
        if s.len() <= i {
            return Written { len: o, replaced };
        }
        let g = good_blocks(&s[i..], 32);
        let e = i + g;
        copy(&s[i..e], &mut out[o..]);
        i = e;
        o += g;
    }
}

// Writes the text of s into out, from its first byte. What is well-formed, most often all, is copied at once.
pub fn utf8_lossy_write(s: &[u8], out: &mut [u8]) -> Written
    requires { length (utf8_text s.now) ≤ length out.old }
    ensures count { result.len ≡ length (utf8_text s.now) }
    ensures bytes { out.new ≡ overwritten (utf8_text s.now) out.old }
    ensures replaced { result.replaced ≡ replacements (utf8_pieces s.now) }
{
    let r = run_of(s);
    let e = r.end;
    copy(&s[0..e], out);
    if r.bad.is_none() {
        return Written {
            len: e,
            replaced: 0,
        };
    }
    let w = write_runs(&s[e..], &mut out[e..]);
    let len = e + w.len;
    Written {
        len,
        replaced: w.replaced,
    }
}
