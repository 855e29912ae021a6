// The answer of the row call, as a line says it.
use conversion::hex::hex_digit;
use refusal::Refusal;
use row::value_bytes;
use std::fmt;
use std::num::{f32_to_bits_with_nan, f64_to_bits_with_nan};
use std::str::from_utf8;
use types::{Db2Value, Row, ValuePlace};

// So many bytes are written at once, and so many digits, two a byte.
const BLOCK: usize = 64;

const DIGITS: usize = 128;

// The bytes of a field, `-` for none. By blocks, and not by printing::Hex, which writes byte by byte: texts have thousands of bytes.
#[derive(Clone, Copy)]
struct BytesField<'a>(&'a [u8]);

impl fmt::Display for BytesField<'_> {
    fn fmt<W: fmt::Write>(&self, f: &mut fmt::Formatter<W>) -> fmt::Result {
        if self.0.is_empty() {
            return f.write_str("-");
        }
        for block in self.0.chunks(BLOCK) {
            let mut digits = [0u8; DIGITS];
            // (take and get: of a chunk's length the check knows nothing. It is no more than BLOCK.)
            for (i, b) in block.iter().take(BLOCK).enumerate() {
                digits[2 * i] = hex_digit(b / 16);
                digits[2 * i + 1] = hex_digit(b % 16);
            }
            let written = digits.get(..2 * block.len()).ok_or(fmt::Error)?;
            f.write_str(from_utf8(written).map_err(|_| fmt::Error)?)?;
        }
        Ok(())
    }
}

// A value: its mark, and a number in decimal, a float's bits in hexadecimal, or a text's bytes; of bytes of the row, their place before them. The marks stand
// in the arms: a function of them would match the same kinds a second time.
#[derive(Clone, Copy)]
struct ValueField<'a> {
    value: Db2Value,
    bytes: &'a [u8],
}

impl fmt::Display for ValueField<'_> {
    fn fmt<W: fmt::Write>(&self, f: &mut fmt::Formatter<W>) -> fmt::Result {
        let bytes = BytesField(self.bytes);
        match self.value {
            Db2Value::Null => f.write_str("N"),
            Db2Value::SmallInt(n) => write!(f, "S:{n}"),
            Db2Value::Integer(n) => write!(f, "I:{n}"),
            Db2Value::BigInt(n) => write!(f, "L:{n}"),
            Db2Value::Real(x) => write!(f, "F:{:08X}", f32_to_bits_with_nan(x)),
            Db2Value::RealNan(bits) => write!(f, "F:{bits:08X}"),
            Db2Value::Double(x) => write!(f, "G:{:016X}", f64_to_bits_with_nan(x)),
            Db2Value::DoubleNan(bits) => write!(f, "G:{bits:016X}"),
            Db2Value::Boolean(is_true) => write!(f, "b:{}", u8::from(is_true)),
            Db2Value::Decimal(_) => write!(f, "D:{bytes}"),
            Db2Value::Char(_) => write!(f, "C:{bytes}"),
            Db2Value::VarChar(_) => write!(f, "V:{bytes}"),
            Db2Value::Binary(place) => write!(f, "B:{}:{bytes}", place.start),
            Db2Value::Blob(place) => write!(f, "O:{}:{bytes}", place.start),
            Db2Value::Clob(_) => write!(f, "K:{bytes}"),
            Db2Value::RowId(_) => write!(f, "R:{bytes}"),
            Db2Value::Date(_) => write!(f, "d:{bytes}"),
            Db2Value::Time(_) => write!(f, "t:{bytes}"),
            Db2Value::Timestamp(_) => write!(f, "s:{bytes}"),
            Db2Value::Xml(_) => write!(f, "X:{bytes}"),
        }
    }
}

// The external columns, by commas, or `-` where there are none.
#[derive(Clone, Copy)]
struct Externals<'a>(&'a [ValuePlace]);

impl fmt::Display for Externals<'_> {
    fn fmt<W: fmt::Write>(&self, f: &mut fmt::Formatter<W>) -> fmt::Result {
        let mut externals = self
            .0
            .iter()
            .enumerate()
            .filter(|(_, place)| place.external);
        let Some((first, _)) = externals.next() else {
            return f.write_str("-");
        };
        write!(f, "{first}")?;
        for (i, _) in externals {
            write!(f, ",{i}")?;
        }
        Ok(())
    }
}

// An answer of the row call, made with so many columns; where it is accepted, `text` holds the texts and nothing else. In a full line the characters replaced
// stand behind their length.
#[derive(Clone, Copy)]
pub struct AnswerLine<'a> {
    pub answer: &'a Result<Row, Refusal>,
    pub full: bool,
    pub count: usize,
    // Apart, as `value_bytes`, which README has, takes them.
    pub row: &'a [u8],
    pub text: &'a [u8],
}

impl AnswerLine<'_> {
    // OK <used> <external> <text> <value>*n; in a full line <replaced> behind <text>.
    fn write_accepted<W: fmt::Write>(
        &self,
        f: &mut fmt::Formatter<W>,
        accepted: &Row,
    ) -> fmt::Result {
        let places = accepted.places.get(..self.count).unwrap_or_default();
        let used = accepted.used;
        let externals = Externals(places);
        let len = self.text.len();
        write!(f, "OK {used} {externals} {len}")?;
        if self.full {
            write!(f, " {}", accepted.replaced)?;
        }
        for place in places {
            let value = place.value;
            let bytes = value_bytes(value, self.row, self.text);
            write!(f, " {}", ValueField { value, bytes })?;
        }
        Ok(())
    }
}

impl fmt::Display for AnswerLine<'_> {
    fn fmt<W: fmt::Write>(&self, f: &mut fmt::Formatter<W>) -> fmt::Result {
        match self.answer {
            Ok(accepted) => self.write_accepted(f, accepted),
            Err(Refusal::BufferTooShort { expected, actual }) => {
                write!(f, "SHORT {expected} {actual}")
            }
            Err(refusal) => write!(f, "REFUSE{}", refusal.number()),
        }
    }
}
