// Likely text.
ghost use Rattle.std.specs.Prelude.{◌≡◌, ◌<◌, length};
ghost use Rattle.unicode_standard.specs.Unicode.{scalar};
ghost use Rattle.unicode_standard.specs.Likely.{likely_piece, likely_text};
ghost use Rattle.utf.specs.LikelyCode.{LikelyAt};

use super::likely_blocks::likely_start;
use super::utf8::{Standing, step_at, trail_at};

// A likely text may hold the ASCII character b. By a branch for what is below a space, most often not taken; by is_control, the blocks' test without one, a text
// of up to 64 bytes took 1.1 of the instructions, and up to 1.77. By matches! the proof has a case for each pattern, and did not
// close.
fn shown(b: u8) -> bool
    requires { b < 0x80 }
    ensures { result ≡ likely_piece (scalar b) }
{
    if b < 0x20 {
        return (b == 0x9) | (b == 0xA) | (b == 0xD);
    }
    b < 0x7F
}

// How many bytes the character at a place has, where a likely text may have it.
fn likely_at(s: &[u8], e: usize) -> Option<usize>
    requires { e < length s.now }
    ensures { LikelyAt s.now e result }
{
    let b = s[e];
    if b < 0x80 {
        return shown(b).then_some(1);
    }
    let Standing::WellFormed(n) = step_at(s, e) else {
        return None;
    };
    if b != 0xC2 {
        return Some(n);
    }
    // U+0080 to U+009F
    if trail_at(s, e + 1, 0x80, 0x9F) {
        return None;
    }
    Some(n)
}

pub fn bytes_are_likely_text(s: &[u8]) -> bool
    ensures { result ≡ likely_text s.now }
{
    let mut e = likely_start(s);
    // The step is the length of the character that is read.
    while e < s.len() {
        let Some(n) = likely_at(s, e) else {
            return false;
        };
        e += n;
    }
    true
}
