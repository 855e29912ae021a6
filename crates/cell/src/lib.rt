// Inner. A column's value from the rest of the row, from its first byte on: how many bytes it takes, what they mean, and whether they refer to data
// outside the row. The answer depends on that part of the row only. It writes no text, and knows nothing of indicators and of where the part stands.
#![tactic(auto)]

pub mod extents;
pub mod refers;

ghost use Rattle.std.specs.Prelude.{◌≡◌, false, List, [], ℕ, ◌<◌, ◌≤◌, ◌-◌, length, drop, None};
ghost use Rattle.types.specs.Names.{bit8000};
ghost use Rattle.rules.specs.Meaning.{Item, Lob, lob_empty, lob_reference, lob_inline, declared_lob, undeclared_lob, lob_item, header_in, header_item, lob_bytes_item, lob_char_item, varying_item, item_in};
ghost use Rattle.rules.specs.Extent.{need, extent_of};
ghost use Rattle.rules.specs.Conversions.{conversions_of};
ghost use Rattle.buffer.specs.Buffer.{unreplaced};
ghost use Rattle.conversion.specs.Conversion.{characters_by};
ghost use Rattle.refusal.specs.Refusal.{most_bytes};
ghost use Rattle.types.specs.declared.Db2Type.{Db2Type};
ghost use Rattle.cell.specs.declared.TextSort.{TextSort};
ghost use Rattle.cell.specs.Cell.{byte_sort, text_sort, lob_sort, lob_of, decoded, Holds, Means, MeansBy, is_number, OtherIs, ValueIs};

use extents::{
    BIG_INT, DOUBLE, INTEGER, REAL, SMALL_INT, is_reference, is_short_reference, other_need,
    says_header,
};
use numbers::{big_int, double, integer, real, small_int};
use refers::{all_zero, is_empty_header, is_empty_reference};
use types::{ColumnDescriptor, Db2Type, Db2Value};
use utf::likely::bytes_are_likely_text;

// The sorts of value that are a part of the row, and those that are a text.
#[derive(Clone, Copy)]
pub enum ByteSort {
    Binary,
    Blob,
}

#[derive(Clone, Copy)]
pub enum TextSort {
    Decimal,
    Char,
    VarChar,
    Clob,
    RowId,
    Date,
    Time,
    Timestamp,
    Xml,
}

// What the bytes of a text are: characters or graphics of a CCSID, UTF-8, or bytes that are shown in hexadecimal. Which conversion that asks for is
// picked where the text is measured or written.
#[derive(Clone, Copy)]
pub enum Encoding {
    Characters(u16),
    Graphics(u16),
    Utf8,
    Locator,
    RowId,
}

// How the bytes of a text are read: by their encoding, or as a packed decimal of this scale.
#[derive(Clone, Copy)]
pub enum Reading {
    By(Encoding),
    Packed(u8),
}

// The kinds of LOB column: a Blob is a part, and the others are texts, Clob and DbClob alike.
#[derive(Clone, Copy)]
pub enum LobKind {
    Blob,
    Text(LobText),
}

#[derive(Clone, Copy)]
pub enum LobText {
    Clob,
    Xml,
}

impl LobText {
    fn sort(self) -> TextSort
        ensures { result ≡ lob_sort self }
    {
        match self {
            LobText::Clob => TextSort::Clob,
            LobText::Xml => TextSort::Xml,
        }
    }
}

// What a value is that is no number. Parts and texts are given by where they begin among the value's own bytes, and by their length: no Place, which is one of
// the row or of the text buffer.
#[derive(Clone, Copy)]
pub enum CellItem {
    Nothing,
    Boolean(bool),
    Part {
        sort: ByteSort,
        from: usize,
        len: usize,
    },
    Text {
        sort: TextSort,
        reading: Reading,
        from: usize,
        len: usize,
    },
}

// A value that is no number, how many bytes it takes, and whether it refers to data outside the row.
#[derive(Clone, Copy)]
pub struct OtherValue {
    pub item: CellItem,
    pub used: usize,
    pub external: bool,
}

// A number, and how many bytes it takes.
#[derive(Clone, Copy)]
pub struct NumberValue {
    pub value: Db2Value,
    pub used: usize,
}

// A column's value: a number, or another.
#[derive(Clone, Copy)]
pub enum ColumnValue {
    Number(NumberValue),
    Other(OtherValue),
}

// The text, or the part, that all bytes from a place on are. Texts are made here, in characters, decimal_item and empty_text: each promises of them what its
// callers ask, and a function below the four would be the variant's constructor again.
fn text_from(sort: TextSort, encoding: Encoding, bytes: &[u8], from: usize) -> CellItem
    requires { from ≤ length bytes.now }
    ensures { (release : ℕ) → Holds release result bytes.now (Item.text (text_sort sort) (decoded release encoding (drop from bytes.now))) }
{
    CellItem::Text {
        sort,
        reading: Reading::By(encoding),
        from,
        len: bytes.len() - from,
    }
}

fn part_from(sort: ByteSort, bytes: &[u8], from: usize) -> CellItem
    requires { from ≤ length bytes.now }
    ensures { (release : ℕ) → Holds release result bytes.now (Item.part (byte_sort sort) from (length bytes.now - from)) }
{
    CellItem::Part {
        sort,
        from,
        len: bytes.len() - from,
    }
}

// What `count` bytes mean that are a value of a type whose text is by the CCSID: all from byte `from` on, which is 2 in a VarChar within the row, behind the two
// bytes that count. The row call on words knows the type by its words, and makes no column for these.
#[tactic(auto, unfolding(rules::specs::Meaning::varying_item))]
pub fn characters(sort: TextSort, ccsid: u16, from: usize, count: usize) -> CellItem
    requires { from ≤ count }
    ensures text { (release : ℕ) (s : List ℕ) → length s ≡ count → Holds release result s (Item.text (text_sort sort) (characters_by release ccsid (drop from s))) }
    ensures char { (n : ℕ) → sort ≡ TextSort.Char → from ≡ 0 → MeansBy ccsid result (Db2Type.Char n) count }
    ensures var_char { (n : ℕ) → bit8000 n ≡ false → sort ≡ TextSort.VarChar → from ≡ 2 → MeansBy ccsid result (Db2Type.VarChar n) count }
    ensures date { sort ≡ TextSort.Date → from ≡ 0 → MeansBy ccsid result Db2Type.Date count }
    ensures time { sort ≡ TextSort.Time → from ≡ 0 → MeansBy ccsid result Db2Type.Time count }
    ensures timestamp { sort ≡ TextSort.Timestamp → from ≡ 0 → MeansBy ccsid result Db2Type.Timestamp count }
{
    CellItem::Text {
        sort,
        reading: Reading::By(Encoding::Characters(ccsid)),
        from,
        len: count - from,
    }
}

// The same of a Decimal.
pub fn decimal_item(scale: u8, count: usize) -> CellItem
    requires { (0 < count) × (count ≤ most_bytes) }
    ensures { (precision : ℕ) → Means result (Db2Type.Decimal precision scale) count }
{
    CellItem::Text {
        sort: TextSort::Decimal,
        reading: Reading::Packed(scale),
        from: 0,
        len: count,
    }
}

// An empty text, whatever the bytes.
fn empty_text(sort: TextSort) -> CellItem
    ensures { (release : ℕ) (s : List ℕ) → Holds release result s (Item.text (text_sort sort) (unreplaced [])) }
{
    CellItem::Text {
        sort,
        reading: Reading::By(Encoding::Utf8),
        from: 0,
        len: 0,
    }
}

// The Rust: empty_lob_value.
#[tactic(auto, using(crate::proofs::ItemLaws::text_empty), unfolding(rules::specs::Meaning::lob_empty))]
fn lob_empty(kind: LobKind) -> CellItem
    ensures { (release : ℕ) (s : List ℕ) → Holds release result s (lob_empty (lob_of kind)) }
{
    match kind {
        LobKind::Blob => CellItem::Part {
            sort: ByteSort::Blob,
            from: 0,
            len: 0,
        },
        LobKind::Text(text) => empty_text(text.sort()),
    }
}

#[tactic(auto, unfolding(rules::specs::Meaning::lob_reference))]
fn first_four(bytes: &[u8]) -> CellItem
    ensures { (release : ℕ) → Holds release result bytes.now (lob_reference (conversions_of release) Lob.blobs bytes.now) }
{
    CellItem::Part {
        sort: ByteSort::Blob,
        from: 0,
        len: bytes.len().min(4),
    }
}

// A reference or a locator: a Blob shows its first four bytes, the others a text.
#[tactic(auto, using(crate::proofs::ItemLaws::text_reference), unfolding(rules::specs::Meaning::lob_reference))]
fn lob_reference(kind: LobKind, bytes: &[u8]) -> CellItem
    ensures { (release : ℕ) → Holds release result bytes.now (lob_reference (conversions_of release) (lob_of kind) bytes.now) }
{
    match kind {
        LobKind::Blob => first_four(bytes),
        LobKind::Text(text) => text_from(text.sort(), Encoding::Locator, bytes, 0),
    }
}

// A LOB within the row: what stands behind its four bytes of length.
#[tactic(auto, using(crate::proofs::ItemLaws::text_inline), unfolding(rules::specs::Meaning::lob_inline))]
fn lob_inline(kind: LobKind, bytes: &[u8]) -> CellItem
    requires { 4 ≤ length bytes.now }
    ensures { (release : ℕ) → Holds release result bytes.now (lob_inline (conversions_of release) (lob_of kind) bytes.now) }
{
    match kind {
        LobKind::Blob => part_from(ByteSort::Blob, bytes, 4),
        LobKind::Text(text) => text_from(text.sort(), Encoding::Utf8, bytes, 4),
    }
}

// A LOB with a reference length is a reference, empty also where all its bytes are zero.
fn declared_lob(kind: LobKind, bytes: &[u8]) -> CellItem
    ensures { (release : ℕ) → Holds release result bytes.now (declared_lob (conversions_of release) (lob_of kind) bytes.now) }
{
    if all_zero(bytes) || is_empty_reference(bytes) {
        return lob_empty(kind);
    }
    lob_reference(kind, bytes)
}

// One without is a reference of nine bytes, or a locator of four, or within the row.
fn undeclared_lob(kind: LobKind, located: bool, bytes: &[u8]) -> CellItem
    requires { 4 ≤ length bytes.now }
    ensures { (release : ℕ) → Holds release result bytes.now (undeclared_lob (conversions_of release) located (lob_of kind) bytes.now) }
{
    if is_reference(bytes) {
        if all_zero(&bytes[1..]) {
            return lob_empty(kind);
        }
        return lob_reference(kind, bytes);
    }
    if located {
        return lob_reference(kind, bytes);
    }
    lob_inline(kind, bytes)
}

fn header_from(bytes: &[u8], from: usize) -> CellItem
    requires { from ≤ length bytes.now }
    ensures { (release : ℕ) → Holds release result bytes.now (header_in (conversions_of release) (drop from bytes.now)) }
{
    if is_empty_header(&bytes[from..]) {
        return empty_text(TextSort::Clob);
    }
    text_from(TextSort::Clob, Encoding::Locator, bytes, from)
}

// The Rust: decode_externalized_lob_header.
fn header_item(bytes: &[u8]) -> CellItem
    ensures { (release : ℕ) → Holds release result bytes.now (header_item (conversions_of release) bytes.now) }
{
    if says_header(bytes) {
        return header_from(bytes, 2);
    }
    header_from(bytes, 0)
}

// A reference in hexadecimal is a Blob; else likely text is a VarChar, and other bytes are a Blob.
#[tactic(auto, unfolding(rules::specs::Meaning::lob_bytes_item))]
fn lob_bytes_item(declared: usize, ccsid: u16, bytes: &[u8]) -> CellItem
    ensures { (release : ℕ) → Holds release result bytes.now (lob_bytes_item (conversions_of release) declared ccsid bytes.now) }
{
    if is_short_reference(declared, bytes) {
        return part_from(ByteSort::Blob, bytes, 0);
    }
    if bytes_are_likely_text(bytes) {
        return text_from(TextSort::VarChar, Encoding::Characters(ccsid), bytes, 0);
    }
    part_from(ByteSort::Blob, bytes, 0)
}

#[tactic(auto, unfolding(rules::specs::Meaning::lob_char_item))]
fn lob_char_item(declared: usize, ccsid: u16, bytes: &[u8]) -> CellItem
    ensures { (release : ℕ) → Holds release result bytes.now (lob_char_item (conversions_of release) declared ccsid bytes.now) }
{
    if is_short_reference(declared, bytes) {
        return text_from(TextSort::Clob, Encoding::Locator, bytes, 0);
    }
    text_from(TextSort::Clob, Encoding::Characters(ccsid), bytes, 0)
}

// `located`: a Blob, Clob or DbClob of length 0.
#[tactic(auto, unfolding(rules::specs::Meaning::lob_item))]
fn lob_item(kind: LobKind, reference: Option<u16>, located: bool, bytes: &[u8]) -> CellItem
    requires { reference ≡ None → 4 ≤ length bytes.now }
    ensures { (release : ℕ) → Holds release result bytes.now (lob_item (conversions_of release) reference located (lob_of kind) bytes.now) }
{
    match reference {
        Some(_) => declared_lob(kind, bytes),
        None => undeclared_lob(kind, located, bytes),
    }
}

// A VarChar or a VarGraphic: a header where bit 8000 of its number is set, and else the text behind the two bytes that count.
#[tactic(auto, unfolding(rules::specs::Meaning::varying_item))]
fn varying_item(n: u16, encoding: Encoding, bytes: &[u8]) -> CellItem
    requires { bit8000 n ≡ false → 2 ≤ length bytes.now }
    ensures { (release : ℕ) → Holds release result bytes.now (varying_item (conversions_of release) n (decoded release encoding (drop 2 bytes.now)) bytes.now) }
{
    if 0x8000 <= n {
        return header_item(bytes);
    }
    text_from(TextSort::VarChar, encoding, bytes, 2)
}

// What the bytes of a value mean that is no number, where they are all that it takes. A DecFloat is never read: refusal 5.
// An arm says of its type the sort, the encoding and where the text begins; LobBytes and LobChar call functions of their own. An arm for several such types
// would match the type again for what differs.
#[tactic(auto, using(crate::proofs::ItemLaws::holds_by, crate::proofs::ItemLaws::need_by, crate::proofs::ItemLaws::packed_there, crate::proofs::ItemLaws::counted_there, crate::proofs::ItemLaws::absent_there, crate::proofs::ItemLaws::absent_xml, crate::proofs::ItemLaws::whole_part_lem))]
fn item_of(bytes: &[u8], column: ColumnDescriptor) -> CellItem
    requires there { need (extent_of column) bytes.now ≡ length bytes.now }
    requires other { is_number column.db2_type ≡ false }
    ensures { (release : ℕ) → Holds release result bytes.now (item_in (conversions_of release) column bytes.now) }
{
    let length = column.length;
    let ccsid = column.ccsid;
    let reference = column.extdta_reference_length;
    match column.db2_type {
        Db2Type::Decimal { scale, .. } => decimal_item(scale, bytes.len()),
        Db2Type::Char(_) => characters(TextSort::Char, ccsid, 0, bytes.len()),
        Db2Type::VarChar(n) => varying_item(n, Encoding::Characters(ccsid), bytes),
        Db2Type::LongVarChar => text_from(TextSort::VarChar, Encoding::Characters(ccsid), bytes, 2),
        Db2Type::Clob | Db2Type::DbClob => {
            lob_item(LobKind::Text(LobText::Clob), reference, length == 0, bytes)
        }
        Db2Type::Binary(_) => part_from(ByteSort::Binary, bytes, 0),
        Db2Type::VarBinary(_) => part_from(ByteSort::Binary, bytes, 2),
        Db2Type::Blob => lob_item(LobKind::Blob, reference, length == 0, bytes),
        Db2Type::BlobLocator => lob_reference(LobKind::Blob, bytes),
        Db2Type::Date => characters(TextSort::Date, ccsid, 0, bytes.len()),
        Db2Type::Time => characters(TextSort::Time, ccsid, 0, bytes.len()),
        Db2Type::Timestamp => characters(TextSort::Timestamp, ccsid, 0, bytes.len()),
        Db2Type::Graphic(_) => text_from(TextSort::Char, Encoding::Graphics(ccsid), bytes, 0),
        Db2Type::VarGraphic(n) => varying_item(n, Encoding::Graphics(ccsid), bytes),
        Db2Type::ClobLocator | Db2Type::DbClobLocator => lob_reference(
            LobKind::Text(LobText::Clob),
            bytes,
        ),
        Db2Type::LobBytes(n) => lob_bytes_item(usize::from(n % 0x8000), ccsid, bytes),
        Db2Type::LobChar(n) => lob_char_item(usize::from(n % 0x8000), ccsid, bytes),
        Db2Type::RowId(_) => text_from(TextSort::RowId, Encoding::RowId, bytes, 0),
        Db2Type::Boolean => CellItem::Boolean(!all_zero(bytes)),
        Db2Type::Xml => lob_item(LobKind::Text(LobText::Xml), reference, false, bytes),
        _ => CellItem::Nothing,
    }
}

// The value of a column that is no number's.
pub fn decode_other_value(rest: &[u8], column: ColumnDescriptor) -> OtherValue
    requires there { need (extent_of column) rest.now ≤ length rest.now }
    requires other { is_number column.db2_type ≡ false }
    ensures { (release : ℕ) → OtherIs release result column rest.now }
{
    let used = other_need(rest, column);
    let bytes = &rest[..used];
    OtherValue {
        item: item_of(bytes, column),
        used,
        external: refers::refers(bytes, column),
    }
}

// The column's value at the beginning of the rest of the row, where its bytes are there (the Rust: decode_column_value). It is compiled into the loops
// over columns. So a column is handed on in a copy made in the one arm that needs it: the numbers wait for no store. The five numbers stand in extents::number_width and
// twice in row_words too, there by tags: an enum of the five would be made by one match only to be taken apart by the next.
#[tactic(auto, using(crate::proofs::NumberLaws::number_need))]
pub fn decode_column_value(rest: &[u8], column: ColumnDescriptor) -> ColumnValue
    requires { need (extent_of column) rest.now ≤ length rest.now }
    ensures { (release : ℕ) → ValueIs release result column rest.now }
{
    let order = column.byte_order;
    match column.db2_type {
        Db2Type::SmallInt => ColumnValue::Number(NumberValue {
            value: small_int(rest, order),
            used: SMALL_INT,
        }),
        Db2Type::Integer => ColumnValue::Number(NumberValue {
            value: integer(rest, order),
            used: INTEGER,
        }),
        Db2Type::BigInt => ColumnValue::Number(NumberValue {
            value: big_int(rest, order),
            used: BIG_INT,
        }),
        Db2Type::Real => ColumnValue::Number(NumberValue {
            value: real(rest, order),
            used: REAL,
        }),
        Db2Type::Double => ColumnValue::Number(NumberValue {
            value: double(rest, order),
            used: DOUBLE,
        }),
        _ => {
            let other = column;
            ColumnValue::Other(decode_other_value(rest, other))
        }
    }
}
