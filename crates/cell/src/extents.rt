// How many bytes a column's value takes: its kind of extent, and the number that the bytes at hand make of it (the Rust: decode_column_value).
ghost use Rattle.std.specs.Prelude.{◌≡◌, false, cond, ◌+◌, ◌<◌, ◌≤◌, length, eqb};
ghost use Rattle.rules.specs.declared.Extent.{Extent};
ghost use Rattle.rules.specs.Extent.{is_reference, hex_digits, is_short_reference, says_header, lob_need, need};
ghost use Rattle.rules.specs.Extent.{varying_extent, lob_extent, length_extent, extent_of};
ghost use Rattle.types.specs.FixedLength.{packed_length};
ghost use Rattle.refusal.specs.Refusal.{most_bytes};
ghost use Rattle.cell.specs.Cell.{is_number};
ghost use Rattle.cell.specs.Inner.{WidthOf, unit_size, size_of, most_size, most_need};

use numbers::{u16_of, u32_of};
use rules::Extent;
use types::{ByteOrder, ColumnDescriptor, Db2Type};

// How many bytes values of these types take. The row call goes by these and by the column, and not by Db2Type::fixed_length: as the Rust has both.
pub const SMALL_INT: usize = 2;

pub const INTEGER: usize = 4;

pub const BIG_INT: usize = 8;

pub const REAL: usize = 4;

pub const DOUBLE: usize = 8;

pub const DATE: usize = 10;

pub const TIME: usize = 8;

fn hex_digits(s: &[u8]) -> usize
    ensures { result ≡ hex_digits s.now }
{
    s.iter().filter(|b| b.is_ascii_hexdigit()).count()
}

// The Rust: is_short_externalized_lob_reference.
#[tactic(auto, unfolding(rules::specs::Extent::is_short_reference))]
pub fn is_short_reference(declared: usize, s: &[u8]) -> bool
    ensures { result ≡ is_short_reference declared s.now }
{
    1024 <= declared && 16 <= s.len() && s.len() < declared && 16 <= hex_digits(s)
}

// The Rust: externalized_lob_reference_len.
#[tactic(auto, unfolding(rules::specs::Extent::is_reference))]
pub fn is_reference(s: &[u8]) -> bool
    ensures { result ≡ is_reference s.now }
{
    9 <= s.len() && s[0] == 0x02
}

// Whether two bytes say how long the header behind them is.
#[tactic(auto, unfolding(rules::specs::Extent::says_header))]
pub fn says_header(s: &[u8]) -> bool
    ensures { result ≡ says_header s.now }
{
    2 <= s.len() && 0x8000 <= u16_of(s, ByteOrder::BigEndian)
}

// A LOB without reference length, which takes `whole` where no reference begins.
#[tactic(auto, unfolding(rules::specs::Extent::lob_need))]
fn lob_need(whole: usize, s: &[u8]) -> usize
    ensures { result ≡ lob_need whole s.now }
{
    if s.len() < 4 {
        return 4;
    }
    if is_reference(s) { 9 } else { whole }
}

pub fn counted_need(unit: usize, s: &[u8]) -> usize
    requires { unit ≤ 2 }
    ensures { (result ≡ need (Extent.Counted unit) s.now) × ((2 ≤ result) × (result ≤ most_size + 2)) }
{
    if s.len() < 2 {
        return 2;
    }
    2 + unit * usize::from(u16_of(s, ByteOrder::BigEndian))
}

#[tactic(auto, using(crate::proofs::ExtentLaws::says_two), unfolding(rules::specs::Extent::need))]
fn header_need(n: usize, s: &[u8]) -> usize
    ensures { result ≡ need (Extent.Header n) s.now }
{
    if says_header(s) {
        2 + usize::from(u16_of(s, ByteOrder::BigEndian) % 0x8000)
    } else {
        n
    }
}

#[tactic(auto, unfolding(rules::specs::Extent::need, rules::specs::Extent::lob_need))]
fn inline_need(s: &[u8]) -> usize
    ensures { result ≡ need Extent.Inline s.now }
{
    if s.len() < 4 {
        return 4;
    }
    lob_need(4 + u32_of(s, ByteOrder::BigEndian) as usize, s)
}

#[tactic(auto, unfolding(rules::specs::Extent::need))]
fn materialized_need(n: usize, s: &[u8]) -> usize
    ensures { result ≡ need (Extent.Materialized n) s.now }
{
    if is_short_reference(n, s) { s.len() } else { n }
}

// How many bytes a value of this extent takes, where s is the rest of the row: it is there where that is at most their number.
#[tactic(auto, unfolding(rules::specs::Extent::need))]
fn extent_need(extent: Extent, s: &[u8]) -> usize
    requires { unit_size extent ≤ 2 }
    ensures { result ≡ need extent s.now }
{
    match extent {
        Extent::Fixed(n) => n,
        Extent::Counted(unit) => counted_need(unit, s),
        Extent::Header(n) => header_need(n, s),
        Extent::Inline => inline_need(s),
        Extent::Locator => lob_need(4, s),
        Extent::Materialized(n) => materialized_need(n, s),
    }
}

// Bit 8000 is asked for here and elsewhere by `0x8000 <= n` and taken off by `n % 0x8000`: a call would be as long.
fn varying_extent(n: u16, unit: usize) -> Extent
    ensures { (result ≡ varying_extent n unit) × (size_of result ≤ most_size) }
{
    if 0x8000 <= n {
        Extent::Header(usize::from(n % 0x8000))
    } else {
        Extent::Counted(unit)
    }
}

fn length_extent(n: u16) -> Extent
    ensures { result ≡ length_extent n }
{
    if n == 0 {
        Extent::Locator
    } else {
        Extent::Inline
    }
}

fn lob_extent(reference: Option<u16>, other: Extent) -> Extent
    ensures { (result ≡ lob_extent reference other) × (size_of result ≤ size_of other + 65535) }
{
    match reference {
        Some(w) => Extent::Fixed(usize::from(w)),
        None => other,
    }
}

// The one expression stands in types too, which has no bounds of it.
pub fn decimal_need(precision: u8) -> usize
    ensures { (result ≡ packed_length precision) × ((0 < result) × (result ≤ most_bytes)) }
{
    (usize::from(precision) + 2) / 2
}

// A column's length, or another where it is 0.
fn length_or(n: u16, other: usize) -> usize
    ensures { (result ≡ cond (eqb n 0) other n) × (result ≤ other + 65535) }
{
    if n == 0 { other } else { usize::from(n) }
}

pub fn timestamp_need(length: u16) -> usize
    ensures { (result ≡ cond (eqb length 0) 26 length) × (result ≤ most_size) }
{
    length_or(length, 26)
}

// Of a type that is no number.
fn extent_of(column: ColumnDescriptor) -> Extent
    requires { is_number column.db2_type ≡ false }
    ensures { (result ≡ extent_of column) × (size_of result ≤ most_size) }
{
    let length = column.length;
    match column.db2_type {
        Db2Type::Decimal { precision, .. } => Extent::Fixed(decimal_need(precision)),
        Db2Type::DecFloat(digits) => {
            if 34 <= digits {
                Extent::Fixed(16)
            } else {
                Extent::Fixed(8)
            }
        }
        Db2Type::Char(n) => Extent::Fixed(usize::from(n)),
        Db2Type::VarChar(n) => varying_extent(n, 1),
        Db2Type::LongVarChar => Extent::Counted(1),
        Db2Type::Blob | Db2Type::Clob | Db2Type::DbClob => {
            lob_extent(column.extdta_reference_length, length_extent(length))
        }
        Db2Type::Binary(n) => Extent::Fixed(usize::from(n)),
        Db2Type::VarBinary(_) => Extent::Counted(1),
        Db2Type::BlobLocator | Db2Type::ClobLocator | Db2Type::DbClobLocator => Extent::Fixed(4),
        Db2Type::Date => Extent::Fixed(DATE),
        Db2Type::Time => Extent::Fixed(TIME),
        Db2Type::Timestamp => Extent::Fixed(timestamp_need(length)),
        Db2Type::Graphic(n) => Extent::Fixed(column.graphic_unit() * usize::from(n)),
        Db2Type::VarGraphic(n) => varying_extent(n, column.graphic_unit()),
        Db2Type::LobBytes(n) | Db2Type::LobChar(n) => {
            Extent::Materialized(usize::from(n % 0x8000))
        }
        Db2Type::RowId(n) => Extent::Fixed(usize::from(n)),
        Db2Type::Boolean => Extent::Fixed(length_or(length, 1)),
        Db2Type::Xml => lob_extent(column.extdta_reference_length, Extent::Inline),
        _ => Extent::Fixed(0),
    }
}

// How many bytes a value takes of the rest of the row that is no number. The rest and the column stay two parameters here and in what decodes a value: rule G8 has a
// value depend on these two alone.
pub fn other_need(rest: &[u8], column: ColumnDescriptor) -> usize
    requires { is_number column.db2_type ≡ false }
    ensures { (result ≡ need (extent_of column) rest.now) × (result ≤ most_need) }
{
    extent_need(extent_of(column), rest)
}

// How many bytes values of a type take where they are numbers.
#[tactic(auto, unfolding(rules::specs::Row::item_text))]
pub fn number_width(t: Db2Type) -> Option<usize>
    ensures { WidthOf result t }
{
    match t {
        Db2Type::SmallInt => Some(SMALL_INT),
        Db2Type::Integer => Some(INTEGER),
        Db2Type::BigInt => Some(BIG_INT),
        Db2Type::Real => Some(REAL),
        Db2Type::Double => Some(DOUBLE),
        _ => None,
    }
}

// How many bytes the column's value takes of the rest of the row.
pub fn column_need(rest: &[u8], column: ColumnDescriptor) -> usize
    ensures { (result ≡ need (extent_of column) rest.now) × (result ≤ most_need) }
{
    match number_width(column.db2_type) {
        Some(n) => n,
        None => other_need(rest, column),
    }
}
