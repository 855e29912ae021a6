// Lines on their way out. Up to ROOM bytes are kept and written together. What the system does not take is passed over, and what comes behind it is tried all
// the same: so a table ends with its last line, whatever was lost of it.
ghost use Rattle.std.specs.Prelude.{◌≡◌, ℕ, List, [], ◌++◌, ◌∷◌, IsOk};
ghost use Rattle.printing.specs.Lines.{with_byte, with_bytes};

use crate::Escaped;
use crate::characters::{first_character, is_escaped};
use arrayvec::ArrayVec;
use std::fmt;
use std::fmt::Write;
use std::io::Print;

// How many bytes are kept before they are written out.
const ROOM: usize = 512;

// What is kept, and where it is written to: standard output or standard error.
#[derive(Drop)]
pub struct Line<P> {
    to: P,
    kept: ArrayVec<u8, ROOM>,
}

impl<P: Print> Line<P> {
    pub fn new(to: P) -> Self
        ensures { result.kept.items ≡ [] }
    {
        Line {
            to,
            kept: ArrayVec::new(),
        }
    }

    // Writes out what is kept.
    pub fn flush(&mut self)
        ensures { self.new.kept.items ≡ [] }
    {
        let _ = self.to.write_all(self.kept.as_slice());
        self.kept.clear();
    }

    pub fn byte(&mut self, b: u8)
        ensures { self.new.kept.items ≡ with_byte self.old.kept.items b }
    {
        if self.kept.is_full() {
            self.flush();
        }
        self.kept.push(b);
    }

    // Bytes as they are, also such as are no UTF-8.
    pub fn text(&mut self, s: &[u8])
        ensures { self.new.kept.items ≡ with_bytes self.old.kept.items s.now }
    {
        for &b in s {
            self.byte(b);
        }
    }

    // A text within quotation marks, as `Quoted` has it. Bytes that are no UTF-8 are characters by their bits, and stand as they are where such a one is shown.
    pub fn quoted(&mut self, s: &[u8])
        ensures { (before : List ℕ) × (self.new.kept.items ≡ before ++ 34 ∷ []) }
    {
        self.text(b"\"");
        let mut rest = s;
        while let Some(character) = first_character(rest) {
            let (bytes, behind) = rest.split_at(character.len);
            match char::from_u32(character.code) {
                Some(c) if is_escaped(c) => {
                    let _ = write!(self, "{}", Escaped(c));
                }
                _ => self.text(bytes),
            }
            rest = behind;
        }
        self.byte(b'"');
    }
}

// What is printed into a line never fails.
impl<P: Print> fmt::Write for Line<P> {
    ghost write_str_gives = { λ before bytes after. after.kept.items ≡ with_bytes before.kept.items bytes };

    fn write_str(&mut self, s: &str) -> fmt::Result
        ensures ok { IsOk result → self.new.kept.items ≡ with_bytes self.old.kept.items s.now }
        ensures passes { IsOk result }
    {
        self.text(s.as_bytes());
        Ok(())
    }
}
