// A value in the table: where the column's bytes lie in the row, whether it is external, and the value itself.
use crate::columns::{Common, yes_or_no};
use crate::parts::Given;
use piece::skip_of;
use printing::{ByteCount, Hex, Line, Quoted, Span};
use std::fmt;
use std::fmt::Write;
use std::io::Stdout;
use std::num::{f32_to_bits_with_nan, f64_to_bits_with_nan};
use std::str::from_utf8;
use types::{Db2Value, Row};

// How many bytes of a Binary or Blob are shown.
const SHOWN: usize = 32;

// Bytes of the row, in hexadecimal.
#[derive(Clone, Copy)]
struct Bytes<'a>(&'a [u8]);

impl fmt::Display for Bytes<'_> {
    fn fmt<W: fmt::Write>(&self, f: &mut fmt::Formatter<W>) -> fmt::Result {
        let count = self.0.len();
        match self.0.get(..SHOWN) {
            Some(shown) if SHOWN < count => {
                write!(f, "X'{}' (the first {SHOWN} of {count} bytes)", Hex(shown))
            }
            _ => write!(f, "X'{}'", Hex(self.0)),
        }
    }
}

// A value, and the bytes that value_bytes shows of it; as `answers` has them for a line of its list, which neither crate prints as the other does.
#[derive(Clone, Copy)]
struct Shown<'a> {
    value: Db2Value,
    bytes: &'a [u8],
}

impl fmt::Display for Shown<'_> {
    fn fmt<W: fmt::Write>(&self, f: &mut fmt::Formatter<W>) -> fmt::Result {
        match self.value {
            Db2Value::Null => f.write_str("null"),
            Db2Value::SmallInt(n) => write!(f, "{n}"),
            Db2Value::Integer(n) => write!(f, "{n}"),
            Db2Value::BigInt(n) => write!(f, "{n}"),
            Db2Value::Real(x) => write!(f, "{x:?} (bits {:08X})", f32_to_bits_with_nan(x)),
            Db2Value::RealNan(bits) => write!(f, "NaN (bits {bits:08X})"),
            Db2Value::Double(x) => write!(f, "{x:?} (bits {:016X})", f64_to_bits_with_nan(x)),
            Db2Value::DoubleNan(bits) => write!(f, "NaN (bits {bits:016X})"),
            Db2Value::Boolean(is_true) => write!(f, "{is_true}"),
            Db2Value::Binary(_) | Db2Value::Blob(_) => write!(f, "{}", Bytes(self.bytes)),
            // The library's texts are UTF-8.
            _ => match (self.value, from_utf8(self.bytes)) {
                (Db2Value::Decimal(_), Ok(digits)) => f.write_str(digits),
                (_, Ok(text)) => write!(f, "{}", Quoted(text)),
                (_, Err(_)) => write!(f, "{}", Bytes(self.bytes)),
            },
        }
    }
}

// The values of an accepted row, and the bytes used and left. The two bytes before the values that are skipped have a line of their own.
pub fn show_values(out: Stdout, given: Given<'_>, answer: &Row, text: &[u8]) {
    let row = given.row;
    let mut table = Line::new(out);
    let _ = writeln!(
        table,
        " no  type               null  ccsid  order   origin      bytes of the row  external  value"
    );
    let skipped = row.get(..skip_of(row)).unwrap_or_default();
    if !skipped.is_empty() {
        let span = Span {
            start: 0,
            len: skipped.len(),
        };
        let _ = writeln!(table, "{:<57}{span:<28}{}", "  -  skipped", Bytes(skipped));
    }
    for (part, place) in given.parts().zip(&answer.places) {
        let common = Common(part.column);
        let span = Span {
            start: part.start,
            len: part.need,
        };
        let external = yes_or_no(place.external);
        let shown = Shown {
            value: place.value,
            // `value_bytes`, which README has, takes the row and the text apart.
            bytes: row::value_bytes(place.value, row, text),
        };
        let _ = writeln!(table, "{common}{span:<18}{external:<10}{shown}");
    }
    let used = ByteCount(answer.used);
    let left = row.len().saturating_sub(answer.used);
    let _ = writeln!(table, "used {used}, left {left}");
    table.flush();
}
