// An item of the column decoder: the length of its text, its value with its place, and its text written.
ghost use Rattle.std.specs.Prelude.{◌≡◌, true, ◌+◌, ◌<◌, ◌≤◌, length, drop};
ghost use Rattle.refusal.specs.Refusal.{input_limit};
ghost use Rattle.buffer.specs.Buffer.{unreplaced, overwritten};
ghost use Rattle.rules.specs.Row.{place, start_of, part_value, text_value};
ghost use Rattle.conversion.specs.declared.Conversion.{Conversion};
ghost use Rattle.conversion.specs.Picked.{converted_in};
ghost use Rattle.cell.specs.Cell.{byte_sort, text_sort, decoded, read_by, Readable};
ghost use Rattle.piece.specs.Marks.{mark_at};
ghost use Rattle.piece.specs.Piece.{LiesWithin, made_of, text_held, replaced_held, item_value, text_start};

use crate::marks::{WORDS, is_marked};
use buffer::Written;
use cell::{ByteSort, CellItem, Encoding, Reading, TextSort};
use conversion::{Conversion, character_conversion, graphic_conversion, text_measure, text_write};
use packed::{decimal_len, decimal_write};
use types::{Db2Type, Db2Value, Place};

// A value, how many bytes of text were written, and how many U+FFFD among them were put in. No Written within it, here and in PieceWritten: the loops over columns
// add each of the two numbers to a sum of its own.
#[derive(Clone, Copy)]
pub struct ItemWritten {
    pub value: Db2Value,
    pub written: usize,
    pub replaced: usize,
}

// The length of a text, and whether it is the bytes that it is read from, with none replaced. Both are always meant, here and in PieceLength, so neither is an Option.
#[derive(Clone, Copy)]
pub struct TextLength {
    pub len: usize,
    pub plain: bool,
}

fn is_plain(conversion: Conversion) -> bool
    ensures { result ≡ true → conversion ≡ Conversion.Plain }
{
    matches!(conversion, Conversion::Plain)
}

// The conversion that an encoding asks for at a host release.
fn conversion_of(encoding: Encoding, release: u32, s: &[u8]) -> Conversion
    ensures { converted_in result s.now ≡ decoded release encoding s.now }
{
    match encoding {
        Encoding::Characters(ccsid) => character_conversion(ccsid, release, s),
        Encoding::Graphics(ccsid) => graphic_conversion(ccsid, release, s),
        Encoding::Utf8 => Conversion::Utf8,
        Encoding::Locator => Conversion::Locator,
        Encoding::RowId => Conversion::RowId,
    }
}

// The length of a text, and its writing into out from its first byte.
fn reading_len(reading: Reading, release: u32, s: &[u8]) -> TextLength
    requires { (length s.now ≤ input_limit) × Readable reading (length s.now) }
    ensures len { result.len ≡ length (read_by release reading s.now).text_bytes }
    ensures plain { result.plain ≡ true → read_by release reading s.now ≡ unreplaced s.now }
{
    match reading {
        Reading::By(encoding) => {
            let conversion = conversion_of(encoding, release, s);
            let m = text_measure(conversion, s);
            TextLength {
                len: m.len,
                plain: is_plain(m.conversion),
            }
        }
        Reading::Packed(scale) => {
            TextLength {
                len: decimal_len(s, scale),
                plain: false,
            }
        }
    }
}

// `plain` says that the text is the bytes themselves: then nothing is asked of them.
fn reading_write(reading: Reading, release: u32, plain: bool, s: &[u8], out: &mut [u8]) -> Written
    requires { Readable reading (length s.now) × ((plain ≡ true → read_by release reading s.now ≡ unreplaced s.now) × (length (read_by release reading s.now).text_bytes ≤ length out.old)) }
    ensures count { result.len ≡ length (read_by release reading s.now).text_bytes }
    ensures bytes { out.new ≡ overwritten (read_by release reading s.now).text_bytes out.old }
    ensures replaced { result.replaced ≡ (read_by release reading s.now).replaced }
{
    match reading {
        Reading::By(encoding) => {
            if plain {
                return text_write(Conversion::Plain, s, out);
            }
            text_write(conversion_of(encoding, release, s), s, out)
        }
        Reading::Packed(scale) => {
            let len = decimal_write(s, scale, out);
            Written { len, replaced: 0 }
        }
    }
}

// Whether a part of `count` bytes, which begins with byte `start` and has `len` bytes, is all of them from byte `from` on.
fn is_all_from(start: usize, len: usize, from: usize, count: usize) -> bool
    ensures { result ≡ true → (start ≡ from) × (start + len ≡ count) }
{
    start == from && start <= count && count - start == len
}

// Where the text of a value of type t within the row begins among the value's bytes.
pub fn text_start(t: Db2Type) -> usize
    ensures { result ≡ text_start t }
{
    match t {
        Db2Type::VarChar(_) | Db2Type::LongVarChar | Db2Type::VarGraphic(_) => 2,
        Db2Type::Clob | Db2Type::DbClob | Db2Type::Xml => 4,
        _ => 0,
    }
}

// The length of an item's text, and whether the text is the bytes themselves, all from byte `from` on.
pub fn item_len(item: CellItem, release: u32, bytes: &[u8], from: usize) -> TextLength
    requires { (length bytes.now ≤ input_limit) × LiesWithin item bytes.now }
    ensures len { result.len ≡ length (text_held release item bytes.now) }
    ensures plain { result.plain ≡ true → made_of release item bytes.now ≡ unreplaced (drop from bytes.now) }
{
    match item {
        CellItem::Text {
            reading,
            from: start,
            len,
            ..
        } => {
            let l = reading_len(reading, release, &bytes[start..start + len]);
            TextLength {
                plain: l.plain && is_all_from(start, len, from, bytes.len()),
                ..l
            }
        }
        _ => TextLength {
            len: 0,
            plain: false,
        },
    }
}

// Whether a text is copied: column k is marked, and the text is all of the value's `count` bytes from byte `from` on.
fn is_copied(
    marks: &[u64; WORDS],
    k: usize,
    start: usize,
    len: usize,
    from: usize,
    count: usize,
) -> bool
    requires { k < 768 }
    ensures { result ≡ true → (mark_at marks.now k ≡ true) × ((start ≡ from) × (start + len ≡ count)) }
{
    is_marked(marks, k) && is_all_from(start, len, from, count)
}

fn text_value(sort: TextSort, p: Place) -> Db2Value
    ensures { result ≡ text_value (text_sort sort) p }
{
    match sort {
        TextSort::Decimal => Db2Value::Decimal(p),
        TextSort::Char => Db2Value::Char(p),
        TextSort::VarChar => Db2Value::VarChar(p),
        TextSort::Clob => Db2Value::Clob(p),
        TextSort::RowId => Db2Value::RowId(p),
        TextSort::Date => Db2Value::Date(p),
        TextSort::Time => Db2Value::Time(p),
        TextSort::Timestamp => Db2Value::Timestamp(p),
        TextSort::Xml => Db2Value::Xml(p),
    }
}

// An empty part names place 0.
#[tactic(auto, unfolding(rules::specs::Row::start_of))]
fn start_of(len: usize, at: usize) -> usize
    ensures { result ≡ start_of len at }
{
    if len == 0 { 0 } else { at }
}

fn part_value(sort: ByteSort, at: usize, len: usize) -> Db2Value
    ensures { result ≡ part_value (byte_sort sort) (place (start_of len at) len) }
{
    let p = Place {
        start: start_of(len, at),
        len,
    };
    match sort {
        ByteSort::Binary => Db2Value::Binary(p),
        ByteSort::Blob => Db2Value::Blob(p),
    }
}

// A value without a text.
fn bare_item(value: Db2Value) -> ItemWritten
    ensures { (result.value ≡ value) × ((result.written ≡ 0) × (result.replaced ≡ 0)) }
{
    ItemWritten {
        value,
        written: 0,
        replaced: 0,
    }
}

// The release, the mark and the places stay parameters of their own, here and in the functions that hand them on: a struct of them was tried, by value. It is
// built for each column, and rows took 1.7 % more instructions, other_write 7 %. Nor is the mark itself handed on in the place of marks and k: that was tried
// too. The loops then look at it for each number, and the loop over words took 6 % more.
// The value of an item, where its bytes begin at place `at` of the input; its text is written into out. Only for a text it is looked at whether
// column k is marked: then the text is the bytes themselves, all from byte `from` on.
pub fn item_write(
    item: CellItem,
    release: u32,
    from: usize,
    marks: &[u64; WORDS],
    k: usize,
    bytes: &[u8],
    at: usize,
    next: usize,
    out: &mut [u8],
) -> ItemWritten
    requires bytes_bound { (at + length bytes.now ≤ input_limit) × (LiesWithin item bytes.now × (length (text_held release item bytes.now) ≤ length out.old)) }
    requires plain { (k < 768) × (mark_at marks.now k ≡ true → made_of release item bytes.now ≡ unreplaced (drop from bytes.now)) }
    ensures value { result.value ≡ item_value release item bytes.now at next }
    ensures count { result.written ≡ length (text_held release item bytes.now) }
    ensures bytes { out.new ≡ overwritten (text_held release item bytes.now) out.old }
    ensures replaced { result.replaced ≡ replaced_held release item bytes.now }
{
    match item {
        CellItem::Nothing => bare_item(Db2Value::Null),
        CellItem::Boolean(b) => bare_item(Db2Value::Boolean(b)),
        CellItem::Part {
            sort,
            from: start,
            len,
        } => bare_item(part_value(sort, at + start, len)),
        CellItem::Text {
            sort,
            reading,
            from: start,
            len,
        } => {
            let plain = is_copied(marks, k, start, len, from, bytes.len());
            let w = reading_write(reading, release, plain, &bytes[start..start + len], out);
            let p = Place {
                start: next,
                len: w.len,
            };
            ItemWritten {
                value: text_value(sort, p),
                written: w.len,
                replaced: w.replaced,
            }
        }
    }
}
