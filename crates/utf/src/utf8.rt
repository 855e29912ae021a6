// UTF-8, read: what stands at a place, and how far a text is well-formed.
ghost use Rattle.std.specs.Prelude.{◌≡◌, ◌<◌, length};
ghost use Rattle.unicode_standard.specs.Unicode.{within, trail};
ghost use Rattle.utf.specs.Utf8Code.{trail_at, fit_after, with_first, lowest_after, highest_after, Coded, PieceAt, Common, Good, Stop};

use super::ascii::{any_high, ascii_blocks, ascii_run, has_high};
use super::blocks::{between, good_blocks};

// The byte at j is there, and lies from low to high. A text and a place, here and below, as the definitions have them (trail_at, fit_after, PieceAt, Common).
#[tactic(auto, using(crate::proofs::Utf8Laws::trail_by), unfolding(crate::specs::Utf8Code::trail_at))]
pub fn trail_at(s: &[u8], j: usize, low: u8, high: u8) -> bool
    ensures { result ≡ trail_at s.now j low high }
{
    s.get(j).is_some_and(|&b| between(b, low, high))
}

// What stands at a place: a well-formed sequence of so many bytes, or a malformed part of so many. It is no Result: a malformed part is no error, and the
// reading goes on behind it.
#[derive(Clone, Copy)]
pub enum Standing {
    WellFormed(usize),
    Malformed(usize),
}

// How many bytes fit after the first of a sequence, which stands at i: of one from low to high, and so many more.
fn fit_after<const N: usize>(s: &[u8], i: usize, low: u8, high: u8) -> usize
    requires { (i < length s.now) × (N < 3) }
    ensures { result ≡ fit_after s.now i low high N }
{
    if !trail_at(s, i + 1, low, high) {
        return 0;
    }
    for n in 0..N {
        if !trail_at(s, i + 2 + n, 0x80, 0xBF) {
            return n + 1;
        }
    }
    N + 1
}

// The first byte of a sequence, with as many after it as fit.
fn with_first(fit: usize, wanted: usize) -> Standing
    requires { fit < 4 }
    ensures { result ≡ with_first fit wanted }
{
    let len = fit + 1;
    if fit == wanted {
        return Standing::WellFormed(len);
    }
    Standing::Malformed(len)
}

// The lowest and the highest byte that may follow b, which begins a sequence of three or four bytes. No plainer as one range: the definitions are
// two, and fit_after would take the range apart again.
fn lowest_after(b: u8) -> u8
    ensures { result ≡ lowest_after b }
{
    match b {
        0xE0 => 0xA0,
        0xF0 => 0x90,
        _ => 0x80,
    }
}

fn highest_after(b: u8) -> u8
    ensures { result ≡ highest_after b }
{
    match b {
        0xED => 0x9F,
        0xF4 => 0x8F,
        _ => 0xBF,
    }
}

// What stands at i.
pub fn first_at(s: &[u8], i: usize) -> Standing
    requires { i < length s.now }
    ensures { Coded (PieceAt s.now i) result }
{
    let b = s[i];
    match b {
        0..=0x7F => Standing::WellFormed(1),
        0xC2..=0xDF => with_first(fit_after::<0>(s, i, 0x80, 0xBF), 1),
        0xE0..=0xEF => with_first(fit_after::<1>(s, i, lowest_after(b), highest_after(b)), 2),
        0xF0..=0xF4 => with_first(fit_after::<2>(s, i, lowest_after(b), highest_after(b)), 3),
        _ => Standing::Malformed(1),
    }
}

fn is_trail(b: u8) -> bool
    ensures { result ≡ within b trail }
{
    between(b, 0x80, 0xBF)
}

// A quick look for the sequences that are common: how many bytes a well-formed one has, or nothing that it can tell. It is small enough to be compiled into
// the loops that call it; by a match on ranges it was not, and a sequence took 1.07 to 1.3 of the instructions.
pub fn common_at(s: &[u8], i: usize) -> Option<usize>
    requires { i < length s.now }
    ensures { Common s.now i result }
{
    if s.len() - i < 3 {
        return None;
    }
    let b = s[i];
    let second = s[i + 1];
    let third = s[i + 2];
    if !is_trail(second) {
        return None;
    }
    if b < 0xE0 {
        if b < 0xC2 {
            return None;
        }
        return Some(2);
    }
    if b >= 0xF0 {
        return None;
    }
    if b == 0xE0 {
        return None;
    }
    if b == 0xED {
        return None;
    }
    if is_trail(third) {
        return Some(3);
    }
    None
}

// What stands at i, by a quick look where that will do.
pub fn step_at(s: &[u8], i: usize) -> Standing
    requires { i < length s.now }
    ensures { Coded (PieceAt s.now i) result }
{
    match common_at(s, i) {
        Some(n) => Standing::WellFormed(n),
        None => first_at(s, i),
    }
}

// The length of a well-formed part at the beginning of s, by what is quick for a text that is not short.
fn good_start(s: &[u8]) -> usize
    ensures { Good result s.now }
{
    if s.len() <= 64 {
        return 0;
    }
    let mut e = ascii_blocks::<1024, _>(s, |block| !has_high(block));
    e += ascii_blocks::<32, _>(&s[e..], |block| !any_high(block));
    if s.len() - e < 64 {
        return e;
    }
    e + good_blocks(&s[e..], 128)
}

// The first end bytes are well-formed; after them is a malformed part of so many bytes, or nothing.
#[derive(Clone, Copy)]
pub struct Run {
    pub end: usize,
    pub bad: Option<usize>,
}

pub fn run_of(s: &[u8]) -> Run
    ensures good { Good result.end s.now }
    ensures stop { Stop result.end result.bad s.now }
{
    let mut e = good_start(s);
    // Each step is as long as what is read: a run of ASCII, a part in blocks, or a character.
    loop {
        e += ascii_run(&s[e..]);
        if s.len() <= e {
            return Run { end: e, bad: None };
        }
        match step_at(s, e) {
            Standing::WellFormed(n) => e += n,
            Standing::Malformed(n) => {
                return Run {
                    end: e,
                    bad: Some(n),
                };
            }
        }
    }
}
