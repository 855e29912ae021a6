// What a column's part of a row says that a warning goes by: its indicator, where it has one, and its value.
use crate::column_concerns::{Texts, is_named, is_utf16, texts_of};
use crate::parts::Part;
use types::Db2Type;
use utf::ascii::has_high;
use utf::likely::bytes_are_likely_text;

// How many bytes of a value say how long it is.
fn length_bytes(t: Db2Type) -> usize {
    match t {
        Db2Type::VarChar(_)
        | Db2Type::LongVarChar
        | Db2Type::VarGraphic(_)
        | Db2Type::VarBinary(_) => 2,
        _ => 0,
    }
}

fn is_all_40(s: &[u8]) -> bool {
    s.iter().all(|&b| b == 0x40)
}

// Those of the CCSIDs that a conversion is known for in which 40 is `@`. In EBCDIC it is a blank, and in UTF-16 half a character.
fn has_at(ccsid: u16) -> bool {
    matches!(ccsid, 819 | 1208)
}

// The most bytes, or characters, that a varying type says. With bit 8000 a header stands there, whatever its length.
fn most_of(t: Db2Type) -> Option<usize> {
    let most = match t {
        Db2Type::VarChar(n) | Db2Type::VarBinary(n) => usize::from(n),
        Db2Type::VarGraphic(n) => 2 * usize::from(n),
        _ => return None,
    };
    Some(most).filter(|&most| most < 0x8000)
}

// A host may count the characters of UTF-8, and not its bytes: those bytes that begin one.
fn count_of(ccsid: u16, s: &[u8]) -> usize {
    if ccsid == 1208 {
        return s.iter().filter(|&b| !matches!(b, 0x80..=0xBF)).count();
    }
    s.len()
}

fn is_digit(nibble: u8) -> bool {
    nibble <= 9
}

fn is_sign(nibble: u8) -> bool {
    matches!(nibble, 0xA | 0xC | 0xD | 0xE | 0xF)
}

// Whether the bytes are digits and a sign that says plus or minus to the architecture and to the row's text alike.
fn is_packed(s: &[u8]) -> bool {
    match s.split_last() {
        Some((last, pairs)) => {
            pairs.iter().all(|&b| is_digit(b / 16) && is_digit(b % 16))
                && is_digit(last / 16)
                && is_sign(last % 16)
        }
        None => true,
    }
}

impl Part<'_> {
    pub fn is_odd_indicator(&self) -> bool {
        self.column.nullable && self.bytes.first().is_some_and(|&b| b != 0 && b != 0xFF)
    }

    // The value's bytes, behind the indicator; none of a Null.
    fn value(&self) -> &[u8] {
        match self.bytes {
            [0xFF, ..] if self.column.nullable => &[],
            [_, value @ ..] if self.column.nullable => value,
            bytes => bytes,
        }
    }

    // The value's bytes behind those that say how long it is.
    fn body(&self) -> &[u8] {
        self.value()
            .get(length_bytes(self.column.db2_type)..)
            .unwrap_or_default()
    }

    // The bytes that a text is read from. Bytes that are no likely text come as bytes.
    fn text(&self) -> &[u8] {
        let body = self.body();
        match self.column.db2_type {
            Db2Type::LobBytes(_) if !bytes_are_likely_text(body) => &[],
            _ => body,
        }
    }

    // Whether a text has a CCSID that no conversion is known for. An empty text is the same in every code page; an odd number of bytes is no UTF-16.
    pub fn is_unnamed_text(&self) -> bool {
        let text = self.text();
        let ccsid = self.column.ccsid;
        if text.is_empty() || is_named(ccsid) {
            return false;
        }
        match texts_of(self.column.db2_type) {
            Some(Texts::Characters) => true,
            Some(Texts::Graphics) => !is_utf16(ccsid) || text.len() % 2 == 1,
            None => false,
        }
    }

    // Whether a text is guessed at, and has a byte from 80 on or has none. Of two methods the second would differ by a `!` alone.
    pub fn is_guessed_as(&self, is_high: bool) -> bool {
        self.is_unnamed_text() && has_high(self.text()) == is_high
    }

    // Whether a text is guessed at, and is nothing but 40.
    pub fn is_guessed_at(&self) -> bool {
        self.is_unnamed_text() && is_all_40(self.text())
    }

    pub fn is_all_at(&self) -> bool {
        let text = self.text();
        has_at(self.column.ccsid)
            && texts_of(self.column.db2_type).is_some()
            && !text.is_empty()
            && is_all_40(text)
    }

    pub fn is_longer(&self) -> bool {
        let count = count_of(self.column.ccsid, self.body());
        most_of(self.column.db2_type).is_some_and(|most| most < count)
    }

    pub fn is_odd_decimal(&self) -> bool {
        matches!(self.column.db2_type, Db2Type::Decimal { .. }) && !is_packed(self.value())
    }
}
