// Well-formed UTF-8, block by block: for each byte a test of it and the three before it, in loops that have no way out but their end, so that they are
// compiled to vector code.
ghost use Rattle.std.specs.Prelude.{◌≡◌, ℕ, false, ◌-◌, ◌≤◌, ◌<◌, length};
ghost use Rattle.unicode_standard.specs.Unicode.{within, range};
ghost use Rattle.utf.specs.Utf8Code.{Good};
ghost use Rattle.utf.specs.Utf8Blocks.{wanted, Follows, Each, Joined, JoinedPart, Ends, led};

// By & and no range: the blocks' loops want no branch, and `(low..=high).contains(&x)` is longer.
pub fn between(x: u8, low: u8, high: u8) -> bool
    ensures { result ≡ within x (range low high) }
{
    (low <= x) & (x <= high)
}

// After a, b and c the sequence goes on. Neighbouring bytes are single numbers, here and below, as the definitions take them (wanted, Follows, and After of the
// trait).
fn wants(a: u8, b: u8, c: u8) -> bool
    ensures { result ≡ wanted a b c }
{
    (c >= 0xC0) | (b >= 0xE0) | (a >= 0xF0)
}

// d does not follow a, b and c.
pub fn breaks(a: u8, b: u8, c: u8, d: u8) -> bool
    ensures { result ≡ false → Follows a b c d }
{
    let place = between(d, 0x80, 0xBF) != wants(a, b, c);
    let none = between(d, 0xC0, 0xC1) | (d >= 0xF5);
    let low = between(d, 0x80, 0x9F);
    let three = (c == 0xE0) & low | (c == 0xED) & !low;
    let lower = between(d, 0x80, 0x8F);
    let four = (c == 0xF0) & lower | (c == 0xF4) & !lower;
    place | none | three | four
}

// A test of a byte by the three before it.
pub trait Succession {
    // d may follow a, b and c.
    ghost After: { ℕ → ℕ → ℕ → ℕ → Type 0 };

    fn broken(a: u8, b: u8, c: u8, d: u8) -> bool
        ensures { result ≡ false → After a b c d };

    // In well-formed UTF-8 it may.
    ghost follows: { (a b c d : ℕ) → After a b c d → Follows a b c d };
}

// Well-formed UTF-8.
pub struct WellFormed;

impl Succession for WellFormed {
    ghost After = { Follows };

    fn broken(a: u8, b: u8, c: u8, d: u8) -> bool {
        breaks(a, b, c, d)
    }

    ghost follows = { λ a b c d h. h };
}

// A byte of s, from the fourth on, may not follow the three before it. By index: by array_windows the loop has no number of its turn, and the proof did not
// close.
fn any_broken<T: Succession>(s: &[u8]) -> bool
    requires { 3 ≤ length s.now }
    ensures { result ≡ false → Each T.After s.now (length s.now - 3) }
{
    let n = s.len() - 3;
    let mut bad = false;
    for i in 0..n {
        bad = T::broken(s[i], s[i + 1], s[i + 2], s[i + 3]) | bad;
    }
    bad
}

// The first i bytes each follow those before them: where the last whole sequence among them ends. No plainer as one expression: one test for each
// length that goes on.
pub fn last_end(s: &[u8], i: usize) -> usize
    requires { (3 ≤ i) × (i ≤ length s.now) × Joined (led s.now) i }
    ensures { (result ≤ i) × Ends (led s.now) result }
{
    if s[i - 1] >= 0xC0 {
        return i - 1;
    }
    if s[i - 2] >= 0xE0 {
        return i - 2;
    }
    if s[i - 3] >= 0xF0 {
        return i - 3;
    }
    i
}

// The length of the next block: k, or what is left of it in whole thirty-twos, so that vector code takes all of it. That k is not
// 0 is a clause: no plainer with NonZeroUsize, since block_len and longer would take out and make anew what their callers give as 32 and 128.
pub fn block_len(rest: usize, k: usize) -> usize
    requires { (32 ≤ rest) × (0 < k) }
    ensures { (0 < result) × (result ≤ rest) }
{
    if rest < k {
        return rest / 32 * 32;
    }
    k
}

pub fn longer(k: usize) -> usize
    requires { 0 < k }
    ensures { 0 < result }
{
    if k < 1024 {
        return k * 2;
    }
    k
}

// The length of a part at the beginning of s whose bytes follow one another and which no sequence goes on after: nearly all of a text of such bytes, and nothing
// of one that is shorter than least. The blocks grow, so that little is read in vain where it breaks off; the first is so long.
pub fn joined_blocks<T: Succession>(s: &[u8], least: usize, first: usize) -> usize
    requires { (3 ≤ least) × (0 < first) }
    ensures { JoinedPart T.After s.now result }
{
    if s.len() < least {
        return 0;
    }
    if T::broken(0, 0, 0, s[0]) | T::broken(0, 0, s[0], s[1]) | T::broken(0, s[0], s[1], s[2]) {
        return 0;
    }
    let mut i = 3;
    let mut k = first;
    // The blocks grow: no iterator of the library gives them.
    loop {
        let rest = s.len() - i;
        if rest < 32 {
            return last_end(s, i);
        }
        let a = i - 3;
        let e = i + block_len(rest, k);
        if any_broken::<T>(&s[a..e]) {
            return last_end(s, i);
        }
        i = e;
        k = longer(k);
    }
}

// The length of a well-formed part at the beginning of s.
pub fn good_blocks(s: &[u8], first: usize) -> usize
    requires { 0 < first }
    ensures { Good result s.now }
{
    joined_blocks::<WellFormed>(s, 64, first)
}
