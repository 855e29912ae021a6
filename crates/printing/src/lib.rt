// Inner. How the programs print: here bytes in hexadecimal, their number and where they lie, and texts with what can't be seen in them escaped. In
// `lines`: what keeps lines and writes them out; in `type_names`: the types by their names; in `characters`: which characters of a text are shown as they are.
// Floats are printed by the library.
#![tactic(auto)]

ghost use Rattle.std.specs.Prelude.{Some, codes};
ghost use Rattle.printing.specs.Counts.{counted, or_dash};

mod characters;
mod lines;
pub mod type_names;

use arrayvec::ArrayString;
use characters::is_escaped;
pub use lines::Line;
use std::fmt;
use std::fmt::Write;

// More bytes than a text has that fills a column of a table. An ArrayString: `pad` takes one text, and a String of the parts would have to be allocated.
const WIDEST: usize = 48;

// Bytes in hexadecimal, two digits each.
#[derive(Clone, Copy)]
pub struct Hex<'a>(pub &'a [u8]);

impl fmt::Display for Hex<'_> {
    fn fmt<W: fmt::Write>(&self, f: &mut fmt::Formatter<W>) -> fmt::Result {
        for b in self.0 {
            write!(f, "{b:02X}")?;
        }
        Ok(())
    }
}

// How many there are of something, by the words for one of them and for any other number.
#[derive(Clone, Copy)]
pub struct Counted<'a> {
    pub count: usize,
    pub one: &'a str,
    pub others: &'a str,
}

impl fmt::Display for Counted<'_> {
    ghost output = { λ c. Some (counted c.count c.one.now c.others.now) };

    fn fmt<W: fmt::Write>(&self, f: &mut fmt::Formatter<W>) -> fmt::Result {
        let count = self.count;
        let what = if count == 1 { self.one } else { self.others };
        write!(f, "{count} {what}")
    }
}

// A number of bytes.
#[derive(Clone, Copy)]
pub struct ByteCount(pub usize);

impl fmt::Display for ByteCount {
    ghost output = { λ c. Some (counted c.0 (codes "byte") (codes "bytes")) };

    fn fmt<W: fmt::Write>(&self, f: &mut fmt::Formatter<W>) -> fmt::Result {
        let counted = Counted {
            count: self.0,
            one: "byte",
            others: "bytes",
        };
        write!(f, "{counted}")
    }
}

// A number, and `-` where there is none.
#[derive(Clone, Copy)]
pub struct OrDash(pub Option<u16>);

impl fmt::Display for OrDash {
    ghost output = { λ o. Some (or_dash o.0) };

    fn fmt<W: fmt::Write>(&self, f: &mut fmt::Formatter<W>) -> fmt::Result {
        match self.0 {
            Some(n) => write!(f, "{n}"),
            None => f.write_str("-"),
        }
    }
}

// Where bytes lie: the first, and the one behind the last. Its fields are a Place's, which is of `types`: a Display of it here would need a wrapper, and each
// Span would be Span(Place { .. }).
#[derive(Clone, Copy)]
pub struct Span {
    pub start: usize,
    pub len: usize,
}

impl fmt::Display for Span {
    fn fmt<W: fmt::Write>(&self, f: &mut fmt::Formatter<W>) -> fmt::Result {
        let start = self.start;
        let end = start.saturating_add(self.len);
        write_padded(f, format_args!("{start}..{end}"))
    }
}

// A text within quotation marks: what can't be seen in it, quotation marks and backslashes are escaped.
#[derive(Clone, Copy)]
pub struct Quoted<'a>(pub &'a str);

impl fmt::Display for Quoted<'_> {
    fn fmt<W: fmt::Write>(&self, f: &mut fmt::Formatter<W>) -> fmt::Result {
        f.write_str("\"")?;
        for c in self.0.chars() {
            write!(f, "{}", Escaped(c))?;
        }
        f.write_str("\"")
    }
}

// A character of a quoted text. What is hidden is shown by its number: two, four or six hexadecimal digits.
#[derive(Clone, Copy)]
struct Escaped(char);

impl fmt::Display for Escaped {
    fn fmt<W: fmt::Write>(&self, f: &mut fmt::Formatter<W>) -> fmt::Result {
        match self.0 {
            '\n' => f.write_str("\\n"),
            '\r' => f.write_str("\\r"),
            '\t' => f.write_str("\\t"),
            c @ ('"' | '\\') => write!(f, "\\{c}"),
            c if !is_escaped(c) => f.write_char(c),
            c => match u32::from(c) {
                code @ 0..=0xFF => write!(f, "\\u{{{code:02X}}}"),
                code @ 0x100..=0xFFFF => write!(f, "\\u{{{code:04X}}}"),
                code => write!(f, "\\u{{{code:06X}}}"),
            },
        }
    }
}

// Writes what is made of several parts with the width that is asked for, as a text is written.
fn write_padded<W: fmt::Write, D: fmt::Display + Drop>(
    f: &mut fmt::Formatter<W>,
    parts: D,
) -> fmt::Result {
    let mut text = ArrayString::<WIDEST>::new();
    write!(text, "{parts}")?;
    f.pad(text.as_str())
}
