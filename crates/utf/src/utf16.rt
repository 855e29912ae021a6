// UTF-16, big-endian, read with one U+FFFD for each unpaired surrogate.
ghost use Rattle.std.specs.Prelude.{◌≡◌, false, cond, ℕ, ◌+◌, ◌%◌, ◌<◌, ◌≤◌, length, drop, get_or, replicate};
ghost use Rattle.buffer.specs.Buffer.{overwritten};
ghost use Rattle.buffer.specs.Filling.{Filling};
ghost use Rattle.utf.specs.Utf16Code.{unit_at, Utf16Next, Extra, starts, takes_three, unit_bytes, Counted, Laid, BlockEnd, AfterFirst};
ghost use Rattle.unicode_standard.specs.Unicode.{range, within, replacements, utf16_pieces, utf16_text};

use super::blocks::between;
use super::part::{Part, PartWritten};
use super::scalar::write_scalar;
use buffer::Written;

// A scalar value, how many bytes it takes, and how many U+FFFD it is for an unpaired surrogate, 1 or 0: a number, since the callers add it up.
#[derive(Clone, Copy)]
pub struct Next {
    pub value: u32,
    pub len: usize,
    pub replaced: usize,
}

// What an unpaired surrogate is read as.
const UNPAIRED: Next = Next {
    value: 0xFFFD,
    len: 2,
    replaced: 1,
};

// The code unit at i. By from_be_bytes a text of two units took 1.12 to 1.16 of the instructions. A text and a place, here and below, as the definitions have
// them (unit_at, Utf16Next).
fn unit_at(s: &[u8], i: usize) -> u32
    requires { i + 1 < length s.now }
    ensures { (result ≡ unit_at s.now i) × (result < 65536) }
{
    u32::from(s[i]) * 256 + u32::from(s[i + 1])
}

// The scalar value at i, where the high surrogate u stands. By a match on v a pair took 1.1 of the instructions.
fn pair_at(s: &[u8], i: usize, u: u32) -> Next
    requires { (i + 1 < length s.now) × ((u ≡ unit_at s.now i) × ((0xD800 ≤ u) × (u < 0xDC00))) }
    ensures { Utf16Next s.now i result.value result.len result.replaced }
{
    if s.len() <= i + 3 {
        return UNPAIRED;
    }
    let v = unit_at(s, i + 2);
    if v < 0xDC00 {
        return UNPAIRED;
    }
    if v > 0xDFFF {
        return UNPAIRED;
    }
    Next {
        value: 0x10000 + (u - 0xD800) * 0x400 + (v - 0xDC00),
        len: 4,
        replaced: 0,
    }
}

// The surrogate u stands at i: the scalar value there, or U+FFFD where it is unpaired; and any unit from E000 on.
fn above_at(s: &[u8], i: usize, u: u32) -> Next
    requires { (i + 1 < length s.now) × ((u ≡ unit_at s.now i) × ((0xD800 ≤ u) × (u < 0x10000))) }
    ensures { Utf16Next s.now i result.value result.len result.replaced }
{
    match u {
        0xD800..=0xDBFF => pair_at(s, i, u),
        0xDC00..=0xDFFF => UNPAIRED,
        _ => Next {
            value: u,
            len: 2,
            replaced: 0,
        },
    }
}

// How many bytes of the text the unit at i stands for. A pair has four: one for the high surrogate, and three for the low one, as if it were alone.
// No plainer by next_at: lengths alone are asked, and a step is one unit.
fn unit_len(s: &[u8], i: usize) -> usize
    requires { i + 1 < length s.now }
    ensures { (result ≤ 3) × (length (utf16_text (drop i s.now)) ≡ result + length (utf16_text (drop (i + 2) s.now))) }
{
    match unit_at(s, i) {
        0..=0x7F => 1,
        0x80..=0x7FF => 2,
        0xD800..=0xDBFF => {
            if s.len() <= i + 3 {
                return 3;
            }
            match unit_at(s, i + 2) {
                0xDC00..=0xDFFF => 1,
                _ => 3,
            }
        }
        _ => 3,
    }
}

// The length of the text of s, unit by unit.
fn units_len(s: &[u8]) -> usize
    ensures { result ≡ length (utf16_text s.now) }
{
    let mut n = 0;
    let mut i = 0;
    // By a for over the units a text took up to 1.13 of the instructions.
    while i + 1 < s.len() {
        n += unit_len(s, i);
        i += 2;
    }
    n
}

// Marks where a unit begins, in a block of 64 units: by 1 and 0, and no bool, since the definition `starts` is a list of these numbers. Every
// other place is written; array::from_fn would ask a remainder at each.
fn mark_starts(on: &mut [u8; 128])
    requires { on.old ≡ replicate 128 0 }
    ensures { on.new ≡ starts 64 }
{
    for k in 0..64usize {
        let i = 2 * k;
        on[i] = 1;
    }
}

// How many bytes of the text, beyond one, the unit of the bytes a and b stands for, where the next unit begins with c; nothing where on is 0.
fn extra(on: u8, a: u8, b: u8, c: u8) -> u8
    ensures { Extra on a b c result }
{
    let here = (on != 0) & !(between(a, 0xD8, 0xDB) & between(c, 0xDC, 0xDF));
    u8::from(here & ((a != 0) | (b >= 0x80))) + u8::from(here & (a >= 8))
}

// How many bytes of the text, beyond 64, the first 64 units of s stand for. The loop goes over all bytes, and has no way out but its end, so that it is
// compiled to vector code. By index, as any_broken of blocks: the marks are read at the same place.
fn block_extra(on: &[u8; 128], s: &[u8]) -> u8
    requires { (on.now ≡ starts 64) × (130 ≤ length s.now) }
    ensures { (result ≤ 128) × (length (utf16_text s.now) ≡ 64 + result + length (utf16_text (drop 128 s.now))) }
{
    let mut k: u8 = 0;
    for i in 0..128usize {
        k += extra(on[i], s[i], s[i + 1], s[i + 2]);
    }
    k
}

// The length of the text of s, in blocks, and then unit by unit. That `on` has the marks is a clause: two functions ask it and one makes it, and a struct would
// put a field into each clause.
fn blocks_len(on: &[u8; 128], s: &[u8]) -> usize
    requires { on.now ≡ starts 64 }
    ensures { result ≡ length (utf16_text s.now) }
{
    let mut n = 0;
    let mut i = 0;
    // Each block is looked at with the two bytes behind it. The place where they end is needed for what is left, so that windows in steps would count it beside.
    while s.len() - i >= 130 {
        let k = block_extra(on, &s[i..]);
        n += 64 + usize::from(k);
        i += 128;
    }
    n + units_len(&s[i..])
}

// The length of the text of s.
pub fn utf16_lossy_len(s: &[u8]) -> usize
    ensures { result ≡ length (utf16_text s.now) }
{
    if s.len() < 256 {
        return units_len(s);
    }
    let mut on: [u8; 128] = [0; 128];
    mark_starts(&mut on);
    blocks_len(&on, s)
}

// a where x holds, else b.
fn pick(x: bool, a: u8, b: u8) -> u8
    ensures { result ≡ cond x a b }
{
    if x { a } else { b }
}

// A unit that begins with a stands for three bytes of the text: from 800 on, but for a surrogate of a pair, which stands for two of the four.
fn takes_three(a: u8) -> bool
    ensures { result ≡ takes_three a }
{
    (a >= 8) & !between(a, 0xD8, 0xDF)
}

// What the unit of the bytes a and b, after the byte y, stands for: its first byte; its second and its third, where it has as many. Nothing here is a branch
// once it is compiled.
fn first_of(y: u8, a: u8, b: u8) -> u8
    ensures { result ≡ get_or (unit_bytes y a b) 0 0 }
{
    let two = pick((a != 0) | (b >= 0x80), 0xC0 + a % 8 * 4 + b / 64, b);
    let low = pick(
        between(a, 0xDC, 0xDF),
        0x80 + y % 4 * 16 + a % 4 * 4 + b / 64,
        two,
    );
    let high = pick(between(a, 0xD8, 0xDB), 0xF0 + a % 4 + (b / 64 + 1) / 4, low);
    pick(takes_three(a), 0xE0 + a / 16, high)
}

fn second_of(a: u8, b: u8) -> u8
    ensures { (y : ℕ) → 1 < length (unit_bytes y a b) → result ≡ get_or (unit_bytes y a b) 1 0 }
{
    let two = pick(
        between(a, 0xD8, 0xDB),
        0x80 + (b / 4 + 16) % 64,
        0x80 + b % 64,
    );
    pick(takes_three(a), 0x80 + a % 16 * 4 + b / 64, two)
}

fn third_of(b: u8) -> u8
    ensures { result ≡ 0x80 + b % 64 }
{
    0x80 + b % 64
}

// How many bytes these are, where the unit before begins with z and the next with c; 0 for an unpaired surrogate, as the loop over all bytes stores a byte for
// each: with an Option it would store two.
fn count_of(z: u8, a: u8, b: u8, c: u8) -> u8
    ensures { Counted z a b c result }
{
    let low = between(a, 0xDC, 0xDF) & !between(z, 0xD8, 0xDB);
    let high = between(a, 0xD8, 0xDB) & !between(c, 0xDC, 0xDF);
    let n = pick(takes_three(a), 3, 1 + u8::from((a != 0) | (b >= 0x80)));
    pick(low | high, 0, n)
}

// Lays out what 64 units of s stand for, from the second unit on: that of the unit at i + 2 at i. The loop goes over all bytes, and has no way out but its
// end, so that it is compiled to vector code (docs/DECISIONS.md, 35). No plainer by an iterator: three arrays are written, and five neighbouring bytes read at each
// place. s is no array of 144: the clauses, here and below, speak of the text of all that is left, which a block is the beginning of.
fn lay_out(s: &[u8], first: &mut [u8; 128], second: &mut [u8; 128], count: &mut [u8; 128])
    requires { (144 ≤ length s.now) × ((length first.old ≡ 128) × ((length second.old ≡ 128) × (length count.old ≡ 128))) }
    ensures { Laid s.now first.new second.new count.new 128 }
{
    for i in 0..128usize {
        first[i] = first_of(s[i + 1], s[i + 2], s[i + 3]);
        second[i] = second_of(s[i + 2], s[i + 3]);
        count[i] = count_of(s[i], s[i + 2], s[i + 3], s[i + 4]);
    }
}

// The length of the block of s that is written, after the first unit: no pair goes across its end.
fn block_end(s: &[u8]) -> usize
    requires { 144 ≤ length s.now }
    ensures { BlockEnd s.now result }
{
    if between(s[128], 0xD8, 0xDB) {
        return 126;
    }
    128
}

// What is written of a block, and how many of its units stand for another number of bytes than the unit before.
#[derive(Clone, Copy)]
pub struct Block {
    pub part: Part,
    pub changes: usize,
}

// Writes the text of the block of s that is laid out, as far as the first unpaired surrogate, without a branch that goes by the kind of a unit: three bytes are
// stored, and those that the unit has not are written over.
fn write_laid(
    first: &[u8; 128],
    second: &[u8; 128],
    count: &[u8; 128],
    s: &[u8],
    out: &mut [u8],
) -> Block
    requires { Laid s.now first.now second.now count.now 128 × ((144 ≤ length s.now) × ((within (get_or s.now 0 0) (range 0xD8 0xDB) ≡ false) × (length (utf16_text (drop 2 s.now)) ≤ length out.old))) }
    ensures { AfterFirst s.now out.old out.new result.part.read result.part.len × ((result.part.read ≤ 128) × (result.changes ≤ 128)) }
{
    let e = block_end(s);
    let mut changes: usize = 0;
    let mut last: u8 = 0;
    let mut o = 0;
    let mut i = 0;
    // By a for over the units a text took up to 1.06 of the instructions.
    while i < e {
        let n = count[i];
        if n == 0 {
            return Block {
                part: Part { read: i, len: o },
                changes,
            };
        }
        let p = o + 1;
        let q = o + 2;
        out[q] = third_of(s[i + 3]);
        out[p] = second[i];
        out[o] = first[i];
        o += usize::from(n);
        changes += usize::from(n != last);
        last = n;
        i += 2;
    }
    Block {
        part: Part { read: i, len: o },
        changes,
    }
}

// Writes the text of a block of s, after the first unit. Three arrays, as the definition Laid takes them: lay_out stores whole vectors into each.
fn write_block(s: &[u8], out: &mut [u8]) -> Block
    requires { (144 ≤ length s.now) × ((within (get_or s.now 0 0) (range 0xD8 0xDB) ≡ false) × (length (utf16_text (drop 2 s.now)) ≤ length out.old)) }
    ensures { AfterFirst s.now out.old out.new result.part.read result.part.len × ((result.part.read ≤ 128) × (result.changes ≤ 128)) }
{
    let mut first: [u8; 128] = [0; 128];
    let mut second: [u8; 128] = [0; 128];
    let mut count: [u8; 128] = [0; 128];
    lay_out(s, &mut first, &mut second, &mut count);
    write_laid(&first, &second, &count, s, out)
}

// Blocks are written for as long as their units change more than 24 times of 64, on the whole: what one has above that is kept for those that have less, up
// to 64. Where units change less often, a branch on their kind costs less.
fn kept(credit: usize, changes: usize) -> usize
    requires { (24 ≤ credit + changes) × ((credit ≤ 64) × (changes ≤ 128)) }
    ensures { result ≤ 64 }
{
    (credit + changes - 24).min(64)
}

// Writes the text of s in blocks, after the first unit.
fn write_blocks(s: &[u8], out: &mut [u8]) -> Part
    requires { (2 ≤ length s.now) × (length (utf16_text (drop 2 s.now)) ≤ length out.old) }
    ensures { AfterFirst s.now out.old out.new result.read result.len × (result.read + 2 ≤ length s.now) }
{
    let mut credit = 16;
    let mut o = 0;
    let mut i = 0;
    // The step is the length of the block that was written.
    while s.len() - i >= 144 {
        if between(s[i], 0xD8, 0xDB) {
            return Part { read: i, len: o };
        }
        let t = write_block(&s[i..], &mut out[o..]);
        o += t.part.len;
        i += t.part.read;
        if (t.part.read < 126) | (credit + t.changes < 24) {
            return Part { read: i, len: o };
        }
        credit = kept(credit, t.changes);
    }
    Part { read: i, len: o }
}

// The scalar value at i. The units below the surrogates, most of them, are tested first.
fn next_at(s: &[u8], i: usize) -> Next
    requires { i + 1 < length s.now }
    ensures { Utf16Next s.now i result.value result.len result.replaced }
{
    let u = unit_at(s, i);
    if u < 0xD800 {
        return Next {
            value: u,
            len: 2,
            replaced: 0,
        };
    }
    above_at(s, i, u)
}

// Writes the beginning of a long text: its first scalar value, and then blocks, for as long as the kinds of its characters alternate.
fn write_varied(s: &[u8], out: &mut [u8]) -> PartWritten
    requires { length (utf16_text s.now) ≤ length out.old }
    ensures { Filling (utf16_text s.now) out.old (utf16_text (drop result.part.read s.now)) out.new result.part.len × ((result.part.read ≤ length s.now) × (replacements (utf16_pieces s.now) ≡ result.replaced + replacements (utf16_pieces (drop result.part.read s.now)))) }
{
    if s.len() < 16384 {
        return PartWritten {
            part: Part { read: 0, len: 0 },
            replaced: 0,
        };
    }
    let t = next_at(s, 0);
    let n = write_scalar(t.value, out);
    let k = t.len - 2;
    let v = write_blocks(&s[k..], &mut out[n..]);
    PartWritten {
        part: Part {
            read: k + 2 + v.read,
            len: n + v.len,
        },
        replaced: t.replaced,
    }
}

// Writes the text of s into out, from its first byte. The units below the surrogates, most of them, go by themselves.
pub fn utf16_lossy_write(s: &[u8], out: &mut [u8]) -> Written
    requires { length (utf16_text s.now) ≤ length out.old }
    ensures count { result.len ≡ length (utf16_text s.now) }
    ensures bytes { out.new ≡ overwritten (utf16_text s.now) out.old }
    ensures replaced { result.replaced ≡ replacements (utf16_pieces s.now) }
{
    let t = write_varied(s, out);
    let mut o = t.part.len;
    let mut i = t.part.read;
    let mut replaced = t.replaced;
    // The step is the length of what is read, a unit or a pair.
    while i + 1 < s.len() {
        let u = unit_at(s, i);
        if u < 0xD800 {
            o += write_scalar(u, &mut out[o..]);
            i += 2;
            continue;
        }
        let t = above_at(s, i, u);
        o += write_scalar(t.value, &mut out[o..]);
        i += t.len;
        replaced += t.replaced;
    }
    Written { len: o, replaced }
}
