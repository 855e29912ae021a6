// Inner. Text conversions: which one a CCSID asks for at a host release, how long its text is, and its writing into a lent buffer. A conversion is picked
// once, before any loop over bytes; only the pick looks at the release. It refuses nothing: callers test lengths and releases.
#![tactic(auto)]

pub mod hex;

ghost use Rattle.std.specs.Prelude.{◌≡◌, true, ◌≤◌, length, take};
ghost use Rattle.refusal.specs.Refusal.{input_limit};
ghost use Rattle.buffer.specs.Buffer.{overwritten};
ghost use Rattle.utf.specs.Ascii.{AsciiRun};
ghost use Rattle.conversion.specs.Conversion.{is_release, is_utf16};
ghost use Rattle.conversion.specs.Picked.{named, character_conversion, graphic_conversion, text_in, replaced_in};
ghost use Rattle.conversion.specs.Guess.{guess_text, Guessed};
ghost use Rattle.conversion.specs.Measure.{Measures};

use buffer::{Written, copy};
use codepage::{ebcdic037_len, ebcdic037_write, latin1_len, latin1_write};
use hex::{marked_hex_len, marked_hex_write};
use utf::ascii::has_high;
use utf::lossy::{utf8_lossy_len, utf8_lossy_write};
use utf::utf8::run_of;
use utf::utf16::{utf16_lossy_len, utf16_lossy_write};

// How the bytes of a text are read.
#[derive(Clone, Copy)]
pub enum Conversion {
    // They are UTF-8 already: ASCII, or what measuring found to be well-formed.
    Plain,
    Utf8,
    // ISO 8859-1, CCSID 819.
    Latin1,
    Ebcdic037,
    // Big-endian.
    Utf16,
    // Shown in hexadecimal, after a mark.
    Locator,
    RowId,
}

const LOCATOR_MARK: &[u8] = b"LOB locator 0x";

const ROW_ID_MARK: &[u8] = b"0x";

// Whether a call takes the number for a host release: refusal 22 where it does not. Here and in every crate a release is a number and no enum (DECISIONS 84):
// the calls for C take any number, RULES.md and the theorems speak of any, and so do the functions that TRACE names and which are given it.
pub fn is_release(release: u32) -> bool
    ensures { result ≡ is_release release }
{
    release == 2 || release == 3
}

// The conversion of characters that goes by the CCSID alone, where it does.
#[tactic(auto, unfolding(crate::specs::Picked::named))]
fn named(ccsid: u16) -> Option<Conversion>
    ensures { result ≡ named ccsid }
{
    match ccsid {
        1208 => Some(Conversion::Utf8),
        819 => Some(Conversion::Latin1),
        37 | 500 => Some(Conversion::Ebcdic037),
        _ => None,
    }
}

// The conversion that a CCSID asks for; for an unnamed one code page 037, before release 3 by a look at the bytes.
pub fn character_conversion(ccsid: u16, release: u32, s: &[u8]) -> Conversion
    ensures { result ≡ character_conversion release ccsid s.now }
{
    match named(ccsid) {
        Some(conversion) => conversion,
        None if release < 3 && !has_high(s) => Conversion::Plain,
        None => Conversion::Ebcdic037,
    }
}

#[tactic(auto, unfolding(crate::specs::Conversion::is_utf16))]
fn is_utf16(ccsid: u16, count: usize) -> bool
    ensures { result ≡ is_utf16 ccsid count }
{
    matches!(ccsid, 1200 | 13488) && count.is_multiple_of(2)
}

// The same for a graphic value.
pub fn graphic_conversion(ccsid: u16, release: u32, s: &[u8]) -> Conversion
    ensures { result ≡ graphic_conversion release ccsid s.now }
{
    if is_utf16(ccsid, s.len()) {
        return Conversion::Utf16;
    }
    character_conversion(ccsid, release, s)
}

// The length of a text, and a conversion that gives the same text and is cheap to write: Plain where measuring found that out.
#[derive(Clone, Copy)]
pub struct Measured {
    pub len: usize,
    pub conversion: Conversion,
}

fn utf8_measure(s: &[u8]) -> Measured
    requires { length s.now ≤ input_limit }
    ensures { Measures Conversion.Utf8 s.now result.len result.conversion }
{
    let r = run_of(s);
    let e = r.end;
    if r.bad.is_none() {
        return Measured {
            len: e,
            conversion: Conversion::Plain,
        };
    }
    Measured {
        len: e + utf8_lossy_len(&s[e..]),
        conversion: Conversion::Utf8,
    }
}

pub fn text_measure(conversion: Conversion, s: &[u8]) -> Measured
    requires { length s.now ≤ input_limit }
    ensures { Measures conversion s.now result.len result.conversion }
{
    let len = match conversion {
        Conversion::Utf8 => return utf8_measure(s),
        Conversion::Plain => s.len(),
        Conversion::Latin1 => latin1_len(s),
        Conversion::Ebcdic037 => ebcdic037_len(s),
        Conversion::Utf16 => utf16_lossy_len(s),
        Conversion::Locator => marked_hex_len(LOCATOR_MARK, s),
        Conversion::RowId => marked_hex_len(ROW_ID_MARK, s),
    };
    Measured { len, conversion }
}

// Writes the text of s into out, from its first byte.
pub fn text_write(conversion: Conversion, s: &[u8], out: &mut [u8]) -> Written
    requires { length (text_in conversion s.now) ≤ length out.old }
    ensures count { result.len ≡ length (text_in conversion s.now) }
    ensures bytes { out.new ≡ overwritten (text_in conversion s.now) out.old }
    ensures replaced { result.replaced ≡ replaced_in conversion s.now }
{
    match conversion {
        Conversion::Plain => Written::unreplaced(copy(s, out)),
        Conversion::Utf8 => utf8_lossy_write(s, out),
        Conversion::Latin1 => Written::unreplaced(latin1_write(s, out)),
        Conversion::Ebcdic037 => Written::unreplaced(ebcdic037_write(s, out)),
        Conversion::Utf16 => utf16_lossy_write(s, out),
        Conversion::Locator => Written::unreplaced(marked_hex_write(LOCATOR_MARK, s, out)),
        Conversion::RowId => Written::unreplaced(marked_hex_write(ROW_ID_MARK, s, out)),
    }
}

// The CCSID is not named, and not one of UTF-16 (which 0 bytes can be, being even), and the release is before 3: the conversion goes by a look at the bytes.
pub fn is_guessed(ccsid: u16, release: u32) -> bool
    ensures { result ≡ true → Guessed release ccsid }
{
    named(ccsid).is_none() && !is_utf16(ccsid, 0) && release < 3
}

// Copies a run of ASCII at the beginning of s, in whole blocks of 1,024 bytes, and returns its length: a block is copied while what the look at it
// read is near. No closure for utf's run over such blocks: that one's invariant speaks of s alone, and with a copy it would have to speak of `out` too. The
// count is kept: by `enumerate` it is `1024 * i` at one return, and `s.len() / 1024 * 1024` at the other.
fn copy_ascii_long(s: &[u8], out: &mut [u8]) -> usize
    requires { length s.now ≤ length out.old }
    ensures run { AsciiRun result s.now }
    ensures bytes { out.new ≡ overwritten (take result s.now) out.old }
{
    let mut n = 0;
    for block in s.chunks_exact(1024) {
        if has_high(block) {
            return n;
        }
        copy(block, &mut out[n..]);
        n += 1024;
    }
    n
}

// Writes the text of s where the conversion is guessed: ASCII in one pass. A text by code page 037 is no shorter than its bytes, so that it covers what
// was copied.
pub fn guess_write(s: &[u8], out: &mut [u8]) -> usize
    requires { length (guess_text s.now) ≤ length out.old }
    ensures count { result ≡ length (guess_text s.now) }
    ensures bytes { out.new ≡ overwritten (guess_text s.now) out.old }
{
    let n = copy_ascii_long(s, out);
    if has_high(&s[n..]) {
        let w = text_write(Conversion::Ebcdic037, s, out);
        return w.len;
    }
    n + copy(&s[n..], &mut out[n..])
}
