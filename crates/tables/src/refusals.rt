// A refusal as a line: its number, its meaning, its numbers and, where a column is to blame, which.
use crate::parts::{Given, Part};
use printing::ByteCount;
use printing::type_names::TypeName;
use refusal::Refusal;
use std::fmt;
use std::io::Stdout;
use types::{Columns, Db2Type};

// A refusal by its number and its meaning.
#[derive(Clone, Copy)]
struct Meaning(Refusal);

impl fmt::Display for Meaning {
    fn fmt<W: fmt::Write>(&self, f: &mut fmt::Formatter<W>) -> fmt::Result {
        let number = self.0.number();
        let meaning = match self.0 {
            Refusal::QrydscTooLong => "the description is longer than 65,536 bytes",
            Refusal::TooManyColumns => "the description has more than 128 columns",
            Refusal::CountTooLarge => "the column count is above 128",
            Refusal::InputTooLong => "the row is longer than 1,048,576 bytes",
            Refusal::DecFloatColumn => "the row has a DecFloat column, which is not read",
            Refusal::DecimalEmpty => "the packed decimal has no bytes",
            Refusal::DecimalTooLong => "the packed decimal has more than 128 bytes",
            Refusal::BufferTooShort { .. } => "the row is too short",
            Refusal::TextBufferTooShort { .. } => "the text buffer is too short",
            Refusal::DecimalDigit => "the packed decimal has a digit above 9",
            Refusal::DecimalSign => "the packed decimal has a sign below A",
            Refusal::DecimalOutOfRange => "the packed decimal is no signed 64-bit number",
            Refusal::QrydscBrokenOff => "the description breaks off",
            Refusal::UnknownRelease => "the host's release is neither 2 nor 3",
        };
        write!(f, "refusal {number}: {meaning}")
    }
}

pub fn show_refused_description(out: Stdout, refusal: Refusal) {
    let _ = println!(out; "{}", Meaning(refusal));
}

// A column by its number and its type.
#[derive(Clone, Copy)]
struct Named {
    index: usize,
    db2_type: Db2Type,
}

impl fmt::Display for Named {
    fn fmt<W: fmt::Write>(&self, f: &mut fmt::Formatter<W>) -> fmt::Result {
        let index = self.index;
        let name = TypeName(self.db2_type);
        write!(f, "column {index}, {name}")
    }
}

// The first DecFloat column.
fn dec_float_column(columns: &Columns) -> Option<Named> {
    let (index, column) = columns
        .list()
        .iter()
        .enumerate()
        .find(|(_, column)| column.is_dec_float())?;
    Some(Named {
        index,
        db2_type: column.db2_type,
    })
}

// Where a row ends too early: the column, and the bytes where it begins and where the row ends.
#[derive(Clone, Copy)]
struct End {
    column: Named,
    start: usize,
    end: usize,
}

impl fmt::Display for End {
    fn fmt<W: fmt::Write>(&self, f: &mut fmt::Formatter<W>) -> fmt::Result {
        let column = self.column;
        let start = self.start;
        let end = self.end;
        if start == end {
            return write!(f, "it ends at byte {end}, where {column}, begins");
        }
        write!(
            f,
            "it ends at byte {end}, within {column}, which begins at byte {start}"
        )
    }
}

fn is_short(part: &Part<'_>) -> bool {
    part.bytes.len() < part.need
}

// The column in which the row ends too early.
fn end_of(given: Given<'_>) -> Option<End> {
    let (index, part) = given.parts().enumerate().find(|(_, part)| is_short(part))?;
    Some(End {
        column: Named {
            index,
            db2_type: part.column.db2_type,
        },
        start: part.start,
        end: given.row.len(),
    })
}

// What a refusal says beside its meaning. The library refuses only rows in which the column to blame is found.
#[derive(Clone, Copy)]
enum Detail {
    Column(Named),
    // The Rust's two numbers. They count from the value's first byte; of an indicator that is not there, from the body's.
    Short {
        end: End,
        expected: usize,
        actual: usize,
    },
    Needed(usize),
}

fn detail_of(refusal: Refusal, given: Given<'_>) -> Option<Detail> {
    match refusal {
        Refusal::DecFloatColumn => dec_float_column(given.columns).map(Detail::Column),
        Refusal::BufferTooShort { expected, actual } => Some(Detail::Short {
            end: end_of(given)?,
            expected,
            actual,
        }),
        Refusal::TextBufferTooShort { needed } => Some(Detail::Needed(needed)),
        _ => None,
    }
}

impl fmt::Display for Detail {
    fn fmt<W: fmt::Write>(&self, f: &mut fmt::Formatter<W>) -> fmt::Result {
        match *self {
            Detail::Column(column) => write!(f, "{column}"),
            Detail::Short {
                end,
                expected,
                actual,
            } => write!(
                f,
                "{end}: expected {}, actual {actual}",
                ByteCount(expected)
            ),
            Detail::Needed(needed) => write!(f, "needed {}", ByteCount(needed)),
        }
    }
}

pub fn show_refused_row(out: Stdout, refusal: Refusal, given: Given<'_>) {
    let meaning = Meaning(refusal);
    let _ = match detail_of(refusal, given) {
        Some(detail) => println!(out; "{meaning}: {detail}"),
        None => println!(out; "{meaning}"),
    };
}
