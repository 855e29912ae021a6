// Types and columns as the list writes them, in a line that is full where its kind is written in lower case, and reading them.
ghost use Rattle.std.specs.Prelude.{◌≡◌, ◌++◌, true, ℕ, ◌<◌, List, length, IfSome, get_or, decimal};
ghost use Rattle.types.specs.Places.{blank_column, max_columns};

use crate::lines::{behind_parts, cut, field, hex_pair, number, part};
use crate::rest::{Rest, read, says};
use printing::OrDash;
use printing::type_names::{Numbers, name_of_type, numbers_of};
use std::fmt;
use std::fmt::Write;
use types::{ByteOrder, ColumnDescriptor, Columns, Db2Type, MAX_COLUMNS, Origin};

// A type by its name, and each of its numbers behind a point.
#[derive(Clone, Copy)]
struct TypeField(Db2Type);

impl fmt::Display for TypeField {
    fn fmt<W: fmt::Write>(&self, f: &mut fmt::Formatter<W>) -> fmt::Result {
        let name = name_of_type(self.0);
        match numbers_of(self.0) {
            Numbers::None => f.write_str(name),
            Numbers::One(n) => write!(f, "{name}.{n}"),
            Numbers::Two(m, n) => write!(f, "{name}.{m}.{n}"),
        }
    }
}

// A column: type:code:length:precision:scale:nullable:ccsid:reference:order, and in a full line :origin
#[derive(Clone, Copy)]
struct ColumnField {
    column: ColumnDescriptor,
    // No plainer: an enum of the two forms would be matched where `if self.full` stands; replay has one place that knows it, Stated.
    full: bool,
}

impl fmt::Display for ColumnField {
    fn fmt<W: fmt::Write>(&self, f: &mut fmt::Formatter<W>) -> fmt::Result {
        let c = self.column;
        let name = TypeField(c.db2_type);
        let code = c.drda_type;
        let length = c.length;
        let precision = c.precision;
        let scale = c.scale;
        let nullable = u8::from(c.nullable);
        let ccsid = c.ccsid;
        let reference = OrDash(c.extdta_reference_length);
        write!(
            f,
            "{name}:{code:02X}:{length}:{precision}:{scale}:{nullable}:{ccsid}:{reference}"
        )?;
        f.write_str(match c.byte_order {
            ByteOrder::BigEndian => ":B",
            ByteOrder::LittleEndian => ":L",
        })?;
        if !self.full {
            return Ok(());
        }
        f.write_str(match c.origin {
            Origin::Sda => ":S",
            Origin::UndeclaredLid => ":U",
            Origin::DeclaredLid => ":D",
        })
    }
}

// Whether each column of a list has the number of its place.
fn are_numbered(columns: &Columns) -> bool
    ensures { result ≡ true → (k : ℕ) → k < columns.now.count → k < max_columns → (get_or columns.now.columns k blank_column).column_index ≡ k }
{
    // By hand: tried with `columns.list()`, and `search` did not close it.
    columns.columns[..columns.count.min(MAX_COLUMNS)]
        .iter()
        .enumerate()
        .all(|(i, column)| usize::from(column.column_index) == i)
}

// What stands behind these columns, where the text begins with them: their number, and each behind a space; a column's number is its place. A count above
// 128, for which the row call has a refusal, says more columns than a list has places for: those are passed over.
#[tactic(auto, using(crate::proofs::Behind::first_said))]
pub fn behind_columns<'a>(text: &'a [u8], full: bool, columns: &Columns) -> Option<&'a [u8]>
    ensures counted { IfSome result (λ _. (rest : List ℕ) × (text.now ≡ decimal columns.now.count ++ rest)) }
    ensures numbered { IfSome result (λ _. (k : ℕ) → k < columns.now.count → k < max_columns → (get_or columns.now.columns k blank_column).column_index ≡ k) }
{
    if !are_numbered(columns) {
        return None;
    }
    let mut rest = Rest(text);
    write!(rest, "{}", columns.count).ok()?;
    for &column in columns.list() {
        write!(rest, " {}", ColumnField { column, full }).ok()?;
    }
    let behind = rest.0;
    match columns.count.checked_sub(MAX_COLUMNS) {
        None | Some(0) => Some(behind),
        Some(more) => Some(cut(behind_parts(behind, more, b' '), b' ').1),
    }
}

// How a description ends, and the space before it, in a full line; nothing in another.
#[derive(Clone, Copy)]
pub struct Ending {
    pub full: bool,
    pub broken_off: bool,
}

impl fmt::Display for Ending {
    fn fmt<W: fmt::Write>(&self, f: &mut fmt::Formatter<W>) -> fmt::Result {
        f.write_str(match (self.full, self.broken_off) {
            (false, _) => "",
            (true, true) => " broken",
            (true, false) => " whole",
        })
    }
}

// The type that a field writes. Each is tried, with the field's numbers: the names stand nowhere but in `printing::type_names`.
// A number that is not there is tried as 0: `says` refuses it where the type prints a number.
pub fn type_of(s: &[u8]) -> Option<Db2Type> {
    let n = read(part(s, 1, b'.')).unwrap_or(0);
    let precision = read(part(s, 1, b'.')).unwrap_or(0);
    let scale = read(part(s, 2, b'.')).unwrap_or(0);
    let types = [
        Db2Type::SmallInt,
        Db2Type::Integer,
        Db2Type::BigInt,
        Db2Type::Real,
        Db2Type::Double,
        Db2Type::Decimal { precision, scale },
        Db2Type::DecFloat(precision),
        Db2Type::Char(n),
        Db2Type::VarChar(n),
        Db2Type::LongVarChar,
        Db2Type::Clob,
        Db2Type::Binary(n),
        Db2Type::VarBinary(n),
        Db2Type::Blob,
        Db2Type::BlobLocator,
        Db2Type::Date,
        Db2Type::Time,
        Db2Type::Timestamp,
        Db2Type::Graphic(n),
        Db2Type::VarGraphic(n),
        Db2Type::DbClob,
        Db2Type::ClobLocator,
        Db2Type::DbClobLocator,
        Db2Type::LobBytes(n),
        Db2Type::LobChar(n),
        Db2Type::RowId(n),
        Db2Type::Boolean,
        Db2Type::Xml,
        Db2Type::Null,
    ];
    types.iter().copied().find(|&t| says(s, TypeField(t)))
}

fn code_of(s: &[u8]) -> Option<u8> {
    let &[high, low] = s else {
        return None;
    };
    hex_pair(high, low)
}

fn reference_of(s: &[u8]) -> Option<Option<u16>> {
    match s {
        b"-" => Some(None),
        _ => read(s).map(Some),
    }
}

fn order_of(s: &[u8]) -> Option<ByteOrder> {
    match s {
        b"B" => Some(ByteOrder::BigEndian),
        b"L" => Some(ByteOrder::LittleEndian),
        _ => None,
    }
}

// The origin that a column of a full line writes. A column of another line writes none, and is an SDA's.
fn origin_of(s: &[u8]) -> Option<Origin> {
    match s {
        b"" | b"S" => Some(Origin::Sda),
        b"U" => Some(Origin::UndeclaredLid),
        b"D" => Some(Origin::DeclaredLid),
        _ => None,
    }
}

// The column that a field writes, if it writes one: behind_columns tells whether it writes just that.
pub fn read_column(s: &[u8], column_index: u8) -> Option<ColumnDescriptor>
    ensures { IfSome result (λ column. column.column_index ≡ column_index) }
{
    Some(ColumnDescriptor {
        column_index,
        drda_type: code_of(part(s, 1, b':'))?,
        length: read(part(s, 2, b':'))?,
        precision: read(part(s, 3, b':'))?,
        scale: read(part(s, 4, b':'))?,
        nullable: number(part(s, 5, b':'), 1)? == 1,
        origin: origin_of(part(s, 9, b':'))?,
        ccsid: read(part(s, 6, b':'))?,
        db2_type: type_of(part(s, 0, b':'))?,
        byte_order: order_of(part(s, 8, b':'))?,
        extdta_reference_length: reference_of(part(s, 7, b':'))?,
    })
}

// The same, with 0, false, no type, an SDA's and big-endian in the place of each part that is none.
pub fn column_of(s: &[u8], index: u8) -> ColumnDescriptor
    ensures { result.column_index ≡ index }
{
    ColumnDescriptor {
        column_index: index,
        drda_type: code_of(part(s, 1, b':')).unwrap_or(0),
        length: read(part(s, 2, b':')).unwrap_or(0),
        precision: read(part(s, 3, b':')).unwrap_or(0),
        scale: read(part(s, 4, b':')).unwrap_or(0),
        nullable: number(part(s, 5, b':'), 1) == Some(1),
        origin: origin_of(part(s, 9, b':')).unwrap_or(Origin::Sda),
        ccsid: read(part(s, 6, b':')).unwrap_or(0),
        db2_type: type_of(part(s, 0, b':')).unwrap_or(Db2Type::Null),
        byte_order: order_of(part(s, 8, b':')).unwrap_or(ByteOrder::BigEndian),
        extdta_reference_length: reference_of(part(s, 7, b':')).unwrap_or(Some(0)),
    }
}

// The columns that stand in a line from its field 2 on, as many as field 1 says and a list has places for, if each is one: behind_columns tells whether they
// are written so.
pub fn read_columns(line: &[u8]) -> Option<Columns>
    ensures numbered { IfSome result (λ list. (k : ℕ) → k < list.count → k < max_columns → (get_or list.columns k blank_column).column_index ≡ k) }
{
    let count = usize::from(read::<u16>(field(line, 1))?);
    let mut columns = [ColumnDescriptor::default(); MAX_COLUMNS];
    for i in 0..count.min(MAX_COLUMNS) {
        columns[i] = read_column(field(line, i + 2), i as u8)?;
    }
    Some(Columns { columns, count })
}

// The same of a line that may write none, with no columns where field 1 is no number, and each column as column_of has it.
pub fn columns_of(line: &[u8]) -> Columns
    ensures count { result.count < 65536 }
    ensures numbered { (k : ℕ) → k < result.count → k < max_columns → (get_or result.columns k blank_column).column_index ≡ k }
{
    let count = usize::from(read(field(line, 1)).unwrap_or(0u16));
    let mut columns = [column_of(b"", 0); MAX_COLUMNS];
    for i in 0..count.min(MAX_COLUMNS) {
        columns[i] = column_of(field(line, i + 2), i as u8);
    }
    Columns { columns, count }
}
