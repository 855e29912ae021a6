// Which characters of a text are shown as they are. Those that can't be seen, or that change what stands beside them, are not: a reader would take the
// text for another. They are those of the general categories Cc, Cf, Zl and Zp, of Zs all but the blank, and those that the Unicode Character Database
// calls Default_Ignorable_Code_Point (version 15).

ghost use Rattle.std.specs.Prelude.{◌≡◌, ◌≤◌, ◌<◌, true, false, length, IfSome};

// In the order of their numbers: the alphabets, up to U+1FFF; punctuation and signs, from U+2000 on; and the planes above.
pub fn is_hidden(c: char) -> bool
    ensures controls { c < 32 → result ≡ true }
    ensures letters { 32 ≤ c → c ≤ 126 → result ≡ false }
{
    matches!(
        c,
        '\0'..='\u{1F}'
            | '\u{7F}'..='\u{A0}'
            | '\u{AD}'
            | '\u{34F}'
            | '\u{600}'..='\u{605}'
            | '\u{61C}'
            | '\u{6DD}'
            | '\u{70F}'
            | '\u{890}'..='\u{891}'
            | '\u{8E2}'
            | '\u{115F}'..='\u{1160}'
            | '\u{1680}'
            | '\u{17B4}'..='\u{17B5}'
            | '\u{180B}'..='\u{180F}'
            | '\u{2000}'..='\u{200F}'
            | '\u{2028}'..='\u{202F}'
            | '\u{205F}'..='\u{206F}'
            | '\u{3000}'
            | '\u{3164}'
            | '\u{FE00}'..='\u{FE0F}'
            | '\u{FEFF}'
            | '\u{FFA0}'
            | '\u{FFF0}'..='\u{FFFB}'
            | '\u{110BD}'
            | '\u{110CD}'
            | '\u{13430}'..='\u{1343F}'
            | '\u{1BCA0}'..='\u{1BCA3}'
            | '\u{1D173}'..='\u{1D17A}'
            | '\u{E0000}'..='\u{E0FFF}'
    )
}

// Whether a quoted text shows a character in another form.
pub(crate) fn is_escaped(c: char) -> bool {
    is_hidden(c) || matches!(c, '"' | '\\')
}

// A character by the bits of its bytes, be they UTF-8 or not: its number, and how many bytes it has.
#[derive(Clone, Copy)]
pub struct Character {
    pub code: u32,
    pub len: usize,
}

// The six bits of a byte behind the first.
fn low_bits(b: u8) -> u32
    ensures { result < 64 }
{
    u32::from(b % 64)
}

// The character that a text begins with. Where it is cut off, or a byte begins none, a byte by itself.
pub fn first_character(s: &[u8]) -> Option<Character>
    ensures { IfSome result (λ c. (0 < c.len) × (c.len ≤ length s.now)) }
{
    let (code, len) = match *s {
        [] => return None,
        [a @ 0xC0..=0xDF, b, ..] => (u32::from(a % 32) * 0x40 + low_bits(b), 2),
        [a @ 0xE0..=0xEF, b, c, ..] => (
            u32::from(a % 16) * 0x1000 + low_bits(b) * 0x40 + low_bits(c),
            3,
        ),
        [a @ 0xF0..=0xF7, b, c, d, ..] => (
            u32::from(a % 8) * 0x4_0000 + low_bits(b) * 0x1000 + low_bits(c) * 0x40 + low_bits(d),
            4,
        ),
        [a, ..] => (u32::from(a), 1),
    };
    Some(Character { code, len })
}
