// Likely text, block by block, by loops that have no way out but their end, so that they are compiled to vector code.
ghost use Rattle.std.specs.Prelude.{◌≡◌, false, ◌-◌, ◌≤◌, length};
ghost use Rattle.utf.specs.Utf8Blocks.{Each};
ghost use Rattle.utf.specs.LikelyCode.{Shown, AllShown, LikelyAfter, LikelyRun};

use super::blocks::{Succession, between, block_len, breaks, joined_blocks, longer};

// d is an ASCII control character, and neither tab nor line feed nor carriage return.
fn is_control(d: u8) -> bool
    ensures { result ≡ false → Shown d }
{
    let line = (d == 0x9) | (d == 0xA) | (d == 0xD);
    (d < 0x20) & !line | (d == 0x7F)
}

// A byte of s is no ASCII character that a likely text may have.
fn any_unshown(s: &[u8]) -> bool
    ensures { result ≡ false → AllShown s.now (length s.now) }
{
    let mut bad = false;
    for d in s {
        bad = (*d >= 0x80) | is_control(*d) | bad;
    }
    bad
}

// The length of a likely part at the beginning of s that is ASCII, in blocks that grow. The loop is that of joined_blocks without the three bytes before a
// block and without last_end; what they share, block_len and longer, is called.
fn shown_blocks(s: &[u8]) -> usize
    ensures { LikelyRun result s.now }
{
    let mut i = 0;
    let mut k = 32;
    // The blocks grow: no iterator of the library gives them.
    loop {
        let rest = s.len() - i;
        if rest < 32 {
            return i;
        }
        let e = i + block_len(rest, k);
        if any_unshown(&s[i..e]) {
            return i;
        }
        i = e;
        k = longer(k);
    }
}

// d does not follow a, b and c in a likely text.
fn unlikely(a: u8, b: u8, c: u8, d: u8) -> bool
    ensures { result ≡ false → LikelyAfter a b c d }
{
    breaks(a, b, c, d) | is_control(d) | (c == 0xC2) & between(d, 0x80, 0x9F)
}

struct LikelyText;

impl Succession for LikelyText {
    ghost After = { LikelyAfter };

    fn broken(a: u8, b: u8, c: u8, d: u8) -> bool {
        unlikely(a, b, c, d)
    }

    ghost follows = { λ a b c d h. h.follows };
}

// The length of a likely part at the beginning of s, in blocks that grow.
fn mixed_blocks(s: &[u8]) -> usize
    ensures { LikelyRun result s.now }
{
    joined_blocks::<LikelyText>(s, 35, 32)
}

// The length of a likely part at the beginning of s: nearly all of a likely text, and nothing of one that is short. ASCII is quicker, and is tried first.
pub fn likely_start(s: &[u8]) -> usize
    ensures { LikelyRun result s.now }
{
    if s.len() <= 64 {
        return 0;
    }
    let e = shown_blocks(s);
    e + mixed_blocks(&s[e..])
}
