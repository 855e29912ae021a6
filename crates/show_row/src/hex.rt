// Hexadecimal text, a byte of it at a time: two digits together are a byte; between bytes stand white space, `,` or `:`; `0x` may stand before them; from
// `#` to the end of its line is a comment; a byte order mark may stand first. So what `xxd -p` prints is read. Offsets are not taken for bytes: a `:` stands
// behind one byte, no digit stands alone, and a line does not begin with four to eight digits and go on with two.

ghost use Rattle.std.specs.Prelude.{◌≡◌};

use std::fmt;

// What can be wrong.
#[derive(Clone, Copy)]
pub enum Fault {
    // This byte is no digit, and nothing that may stand between bytes.
    NoDigit(u8),
    // The second digit of a byte is not there.
    OneDigit,
    // What looks like the place of a line's bytes, and is no byte itself.
    Offset,
}

impl fmt::Display for Fault {
    fn fmt<W: fmt::Write>(&self, f: &mut fmt::Formatter<W>) -> fmt::Result {
        match *self {
            Fault::NoDigit(b @ 0x21..=0x7E) => {
                write!(f, "no hexadecimal digit: {}", char::from(b))
            }
            Fault::NoDigit(b) => write!(
                f,
                "no hexadecimal digit: byte {b:02X} (raw bytes are read without -x)"
            ),
            Fault::OneDigit => {
                f.write_str("a byte has two hexadecimal digits, the second is missing")
            }
            Fault::Offset => {
                f.write_str("this looks like an offset; -x reads bytes alone, as of xxd -p")
            }
        }
    }
}

// What waits for a digit: a byte's first digit for its second one, or `0x` for a byte.
#[derive(Clone, Copy)]
enum Waiting {
    High(u8),
    Prefix,
}

// Where the reading stands: what waits for a digit; how many digits stand together before this place, and did at the line's beginning (at most MANY are
// counted); which run of digits of its line that is (at most 3 are counted); whether a comment is read; and the place as people count it, from 1.
#[derive(Clone, Copy)]
pub struct Reading {
    waiting: Option<Waiting>,
    run: u8,
    first: u8,
    runs: u8,
    is_comment: bool,
    pub line: u64,
    pub column: u64,
}

// More digits than an offset has.
const MANY: u8 = 9;

// Whether so many digits may be an offset.
fn is_offset(digits: u8) -> bool {
    (4..MANY).contains(&digits)
}

// The bytes of a byte order mark in UTF-8, which stand first.
fn is_mark(line: u64, column: u64, b: u8) -> bool {
    matches!(
        (line, column, b),
        (1, 1, 0xEF) | (1, 2, 0xBB) | (1, 3, 0xBF)
    )
}

impl Reading {
    pub fn new() -> Self
        ensures { (result.line ≡ 1) × (result.column ≡ 1) }
    {
        Reading {
            waiting: None,
            run: 0,
            first: 0,
            runs: 0,
            is_comment: false,
            line: 1,
            column: 1,
        }
    }

    // The place behind a byte of the text. A line has fewer bytes than 2 to the 64.
    fn pass(&mut self) {
        self.column = self.column.wrapping_add(1);
    }

    // The beginning of the next line: nothing waits for a digit at a line's end, or in a comment.
    fn pass_line_end(&mut self) {
        *self = Reading {
            line: self.line.wrapping_add(1),
            ..Reading::new()
        };
    }

    // The first digit of a byte, or its second, with which the byte is made.
    fn take_digit(&mut self, digit: u8) -> Option<u8> {
        self.pass();
        if self.run == 0 {
            self.runs = self.runs.saturating_add(1).min(3);
        }
        self.run = self.run.saturating_add(1).min(MANY);
        if self.runs == 1 {
            self.first = self.run;
        }
        match self.waiting {
            Some(Waiting::High(high)) => {
                self.waiting = None;
                Some((high << 4) | digit)
            }
            _ => {
                self.waiting = Some(Waiting::High(digit));
                None
            }
        }
    }

    // What the digits before this place are, at their end.
    fn end_run(&self) -> Result<(), Fault> {
        match self.waiting {
            Some(Waiting::High(_)) if self.runs == 1 && is_offset(self.run) => {
                Err(Fault::Offset)
            }
            Some(_) => Err(Fault::OneDigit),
            None if self.runs == 2 && self.run == 2 && is_offset(self.first) => {
                Err(Fault::Offset)
            }
            None => Ok(()),
        }
    }

    // What stands between bytes.
    fn take_separator(&mut self) -> Result<(), Fault> {
        self.end_run()?;
        self.pass();
        self.run = 0;
        Ok(())
    }

    // The x of `0x`: a 0 waits, and no digit stands before that. The digits behind it are the line's first.
    fn take_x(&mut self, x: u8) -> Result<(), Fault> {
        match (self.waiting, self.run) {
            (Some(Waiting::High(0)), 1) => {
                self.pass();
                self.waiting = Some(Waiting::Prefix);
                self.run = 0;
                self.runs = 0;
                Ok(())
            }
            _ => Err(Fault::NoDigit(x)),
        }
    }

    // Goes on behind one more byte of the text, and answers the byte that it makes, if it makes one. A fault is at the place where the reading stands.
    pub fn step(&mut self, b: u8) -> Result<Option<u8>, Fault> {
        match b {
            b'\n' if self.is_comment => self.pass_line_end(),
            _ if self.is_comment => self.pass(),
            // Three ranges: `to_digit` answers 32 bits, of which a byte would have to be made again.
            b'0'..=b'9' => return Ok(self.take_digit(b - b'0')),
            b'A'..=b'F' => return Ok(self.take_digit(b - b'A' + 10)),
            b'a'..=b'f' => return Ok(self.take_digit(b - b'a' + 10)),
            b' ' | b'\t' | b'\r' | 0x0B | 0x0C | b',' => self.take_separator()?,
            b'\n' => {
                self.end_run()?;
                self.pass_line_end();
            }
            b':' if 2 < self.run => return Err(Fault::Offset),
            b':' => self.take_separator()?,
            b'#' => {
                self.take_separator()?;
                self.is_comment = true;
            }
            b'x' | b'X' => self.take_x(b)?,
            _ if is_mark(self.line, self.column, b) => self.pass(),
            _ => return Err(Fault::NoDigit(b)),
        }
        Ok(None)
    }

    // At the end of the text.
    pub fn finish(&self) -> Result<(), Fault> {
        self.end_run()
    }
}

// Whether a file's bytes are hexadecimal text of at least two bytes: whoever takes them for raw bytes has most likely forgotten to say so.
pub fn looks_like_hex(s: &[u8]) -> bool {
    let mut reading = Reading::new();
    let mut count: usize = 0;
    for &b in s {
        let Ok(made) = reading.step(b) else {
            return false;
        };
        count = count.saturating_add(usize::from(made.is_some()));
    }
    reading.finish().is_ok() && 2 <= count
}
