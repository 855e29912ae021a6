// A status (SQLCA), by its look: 00, a code of four bytes, and an SQLSTATE of five characters.
use std::fmt;

// An SQLSTATE: two digits, and three digits or capitals.
#[derive(Clone, Copy)]
pub struct State([u8; 5]);

// A digit or a capital in ASCII, which may be sent in EBCDIC: by ranges, since the table of `codepage` has all characters, and this crate does not rest on it.
fn state_character(b: u8) -> Option<u8> {
    match b {
        b'0'..=b'9' | b'A'..=b'Z' => Some(b),
        0xF0..=0xF9 => Some(b - 0xC0),
        0xC1..=0xC9 => Some(b - 0x80),
        0xD1..=0xD9 => Some(b - 0x87),
        0xE2..=0xE9 => Some(b - 0x8F),
        _ => None,
    }
}

fn state_digit(b: u8) -> Option<u8> {
    state_character(b).filter(u8::is_ascii_digit)
}

// The SQLSTATE of a status, where one stands here.
pub fn state_of(row: &[u8]) -> Option<State> {
    let &[0, _, _, _, _, a, b, c, d, e, ..] = row else {
        return None;
    };
    Some(State([
        state_digit(a)?,
        state_digit(b)?,
        state_character(c)?,
        state_character(d)?,
        state_character(e)?,
    ]))
}

impl fmt::Display for State {
    fn fmt<W: fmt::Write>(&self, f: &mut fmt::Formatter<W>) -> fmt::Result {
        for &b in &self.0 {
            f.write_char(char::from(b))?;
        }
        Ok(())
    }
}
