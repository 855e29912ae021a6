// Inner. A column's part of a row: its indicator, how many bytes it takes, its value with its place, and its text written into the unwritten rest
// of the text buffer. It goes through no columns: the row calls do, for columns by value and for columns in words.
#![tactic(auto)]

pub mod items;
pub mod marks;

ghost use Rattle.std.specs.Prelude.{◌≡◌, true, false, cond, ℕ, ◌+◌, ◌<◌, ◌≤◌, length, take, drop};
ghost use Rattle.refusal.specs.Refusal.{input_limit};
ghost use Rattle.refusal.specs.declared.Refusal.TheVariants.{BufferTooShort};
ghost use Rattle.types.specs.Places.{blank_value};
ghost use Rattle.buffer.specs.Buffer.{unreplaced, overwritten};
ghost use Rattle.rules.specs.Extent.{need, extent_of};
ghost use Rattle.rules.specs.Walk.{short, skip_of, column_need, cell_short};
ghost use Rattle.rules.specs.Row.{cell_value};
ghost use Rattle.rules.specs.Conversions.{conversions_of};
ghost use Rattle.cell.specs.Cell.{is_number};
ghost use Rattle.piece.specs.Piece.{is_null, number_place, place_of, value_in, value_text, value_replaced, cell_in, cell_text, cell_replaced, text_start, made_of, text_held, replaced_held, LiesWithin, PlainCell};
ghost use Rattle.piece.specs.Marks.{mark_at};

use cell::extents::{column_need, number_width};
use cell::{ColumnValue, OtherValue, decode_column_value, decode_other_value};
use items::{item_len, item_write, text_start};
use marks::WORDS;
use refusal::Refusal;
use types::{ColumnDescriptor, Db2Type, Db2Value, ValuePlace};

// The Rust's two numbers of a row that is too short.
#[derive(Clone, Copy)]
pub struct Lacking {
    pub expected: usize,
    pub actual: usize,
}

impl From<Lacking> for Refusal {
    ghost from_gives = { λ l r. r ≡ BufferTooShort l.expected l.actual };

    fn from(l: Lacking) -> Refusal {
        Refusal::BufferTooShort {
            expected: l.expected,
            actual: l.actual,
        }
    }
}

// How long a column's text is, how many bytes of the row the column takes, and whether the text is the value's own bytes, with none replaced.
#[derive(Clone, Copy)]
pub struct PieceLength {
    pub used: usize,
    pub len: usize,
    pub plain: bool,
}

// A column's value, how many bytes of the row the column takes, how many bytes of text were written, and how many U+FFFD among them were put in.
#[derive(Clone, Copy)]
pub struct PieceWritten {
    pub place: ValuePlace,
    pub used: usize,
    pub written: usize,
    pub replaced: usize,
}

// Where a row's body begins: an FF and the byte after it are skipped; that byte is not looked at.
#[tactic(auto, unfolding(rules::specs::Walk::skip_of))]
pub fn skip_of(data: &[u8]) -> usize
    ensures { result ≡ skip_of «data».now }
{
    if 2 <= data.len() && data[0] == 0xFF {
        2
    } else {
        0
    }
}

// Whether a nullable column's indicator says Null. A row that ends before it has no value either.
pub fn is_null(rest: &[u8], nullable: bool) -> bool
    ensures { result ≡ is_null nullable rest.now }
{
    nullable && rest.first().is_none_or(|&b| b == 0xFF)
}

// How many bytes stand before a value: its indicator, where the column has one. What asks is_null and then lead, here and in row_words, adds the lead to what the
// value takes: one call for both questions would answer the rest behind the indicator and that number, in an Option, and be no shorter at its callers.
pub fn lead(nullable: bool) -> usize
    ensures { (result ≡ cond nullable 1 0) × (result ≤ 1) }
{
    usize::from(nullable)
}

// How many bytes the column takes of the rest of the row. It is there where that is at most their number.
pub fn piece_need(rest: &[u8], column: ColumnDescriptor) -> usize
    ensures { result ≡ column_need column rest.now }
{
    if is_null(rest, column.nullable) {
        return 1;
    }
    let from = lead(column.nullable);
    from + column_need(&rest[from..], column)
}

// What is lacking where the column takes more bytes than there are. `offset` bytes of the body are read.
pub fn shortage(rest: &[u8], offset: usize, column: ColumnDescriptor) -> Lacking
    requires { offset ≤ input_limit }
    ensures { cell_short column.nullable (extent_of column) offset rest.now ≡ short result.expected result.actual }
{
    if !column.nullable {
        return Lacking {
            expected: column_need(rest, column),
            actual: rest.len(),
        };
    }
    if rest.is_empty() {
        return Lacking {
            expected: offset + 1,
            actual: offset,
        };
    }
    Lacking {
        expected: column_need(&rest[1..], column),
        actual: rest.len() - 1,
    }
}

// The text of a value that is no number. That the rest of a row is within the limit stands at each function on one, and no type holds it: one would be made anew
// behind each indicator and for each column, with the proof that now stands at the call.
fn other_length(rest: &[u8], column: ColumnDescriptor, release: u32) -> PieceLength
    requires there { need (extent_of column) rest.now ≤ length rest.now }
    requires limit { length rest.now ≤ input_limit }
    requires other { is_number column.db2_type ≡ false }
    ensures used { result.used ≡ need (extent_of column) rest.now }
    ensures len { result.len ≡ length (value_text release column rest.now) }
    ensures plain { result.plain ≡ true → PlainCell release (value_in column 0 rest.now) }
{
    let d = decode_other_value(rest, column);
    let l = item_len(
        d.item,
        release,
        &rest[..d.used],
        text_start(column.db2_type),
    );
    PieceLength {
        used: d.used,
        len: l.len,
        plain: l.plain,
    }
}

// A column's text where a value is there, which begins with the first byte. A number has none, and is not decoded for that.
fn value_length(rest: &[u8], column: ColumnDescriptor, release: u32) -> PieceLength
    requires there { need (extent_of column) rest.now ≤ length rest.now }
    requires limit { length rest.now ≤ input_limit }
    ensures used { result.used ≡ need (extent_of column) rest.now }
    ensures len { result.len ≡ length (value_text release column rest.now) }
    ensures plain { result.plain ≡ true → PlainCell release (value_in column 0 rest.now) }
{
    match number_width(column.db2_type) {
        Some(n) => PieceLength {
            used: n,
            len: 0,
            plain: false,
        },
        None => other_length(rest, column, release),
    }
}

// The length of the column's text at a host release.
pub fn piece_length(rest: &[u8], column: ColumnDescriptor, release: u32) -> PieceLength
    requires there { column_need column rest.now ≤ length rest.now }
    requires limit { length rest.now ≤ input_limit }
    ensures used { result.used ≡ column_need column rest.now }
    ensures len { result.len ≡ length (cell_text release column rest.now) }
    ensures plain { (at : ℕ) → result.plain ≡ true → PlainCell release (cell_in column at rest.now) }
{
    if is_null(rest, column.nullable) {
        return PieceLength {
            used: 1,
            len: 0,
            plain: false,
        };
    }
    let from = lead(column.nullable);
    let v = value_length(&rest[from..], column, release);
    PieceLength {
        used: from + v.used,
        ..v
    }
}

// A number, or Null, which is its indicator alone: it has no text, and refers to nothing.
fn bare_piece(value: Db2Value, used: usize) -> PieceWritten
    ensures { (result.place ≡ number_place value) × ((result.used ≡ used) × ((result.written ≡ 0) × (result.replaced ≡ 0))) }
{
    PieceWritten {
        place: ValuePlace {
            value,
            external: false,
        },
        used,
        written: 0,
        replaced: 0,
    }
}

// A value that is no number, as the column decoder found it at place `at` of the input. The mark of column k says that its text is the value's own
// bytes, all from byte `from` on, as measuring found. Parameters as item_write has them, here and in the two functions below.
pub fn other_write(
    d: OtherValue,
    release: u32,
    from: usize,
    rest: &[u8],
    at: usize,
    marks: &[u64; WORDS],
    k: usize,
    next: usize,
    out: &mut [u8],
) -> PieceWritten
    requires there { d.used ≤ length rest.now }
    requires limit { at + length rest.now ≤ input_limit }
    requires within { LiesWithin d.item (take d.used rest.now) }
    requires room { length (text_held release d.item (take d.used rest.now)) ≤ length out.old }
    requires plain { (k < 768) × (mark_at marks.now k ≡ true → made_of release d.item (take d.used rest.now) ≡ unreplaced (drop from (take d.used rest.now))) }
    ensures place { result.place ≡ place_of release d at next rest.now }
    ensures used { result.used ≡ d.used }
    ensures count { result.written ≡ length (text_held release d.item (take d.used rest.now)) }
    ensures bytes { out.new ≡ overwritten (text_held release d.item (take d.used rest.now)) out.old }
    ensures replaced { result.replaced ≡ replaced_held release d.item (take d.used rest.now) }
{
    let bytes = &rest[..d.used];
    let w = item_write(d.item, release, from, marks, k, bytes, at, next, out);
    PieceWritten {
        place: ValuePlace {
            value: w.value,
            external: d.external,
        },
        used: d.used,
        written: w.written,
        replaced: w.replaced,
    }
}

// A column's value where it is there, which begins with the first byte, at place `at` of the input.
fn value_write(
    rest: &[u8],
    at: usize,
    column: ColumnDescriptor,
    release: u32,
    marks: &[u64; WORDS],
    k: usize,
    next: usize,
    out: &mut [u8],
) -> PieceWritten
    requires there { need (extent_of column) rest.now ≤ length rest.now }
    requires limit { at + length rest.now ≤ input_limit }
    requires room { length (value_text release column rest.now) ≤ length out.old }
    requires plain { (k < 768) × (mark_at marks.now k ≡ true → PlainCell release (value_in column at rest.now)) }
    ensures place { result.place ≡ cell_value (conversions_of release) (value_in column at rest.now) next }
    ensures used { result.used ≡ need (extent_of column) rest.now }
    ensures count { result.written ≡ length (value_text release column rest.now) }
    ensures bytes { out.new ≡ overwritten (value_text release column rest.now) out.old }
    ensures replaced { result.replaced ≡ value_replaced release column rest.now }
{
    match decode_column_value(rest, column) {
        ColumnValue::Number(n) => bare_piece(n.value, n.used),
        ColumnValue::Other(d) => {
            let from = text_start(column.db2_type);
            other_write(d, release, from, rest, at, marks, k, next, out)
        }
    }
}

// The column's value at a host release, where the rest of the row begins at place `at` of the input; its text is written into out, whose first byte is the next unwritten
// one of the text buffer, at place `next` of it. The marks are looked at only for a value that is no number.
pub fn piece_write(
    rest: &[u8],
    at: usize,
    column: ColumnDescriptor,
    release: u32,
    marks: &[u64; WORDS],
    k: usize,
    next: usize,
    out: &mut [u8],
) -> PieceWritten
    requires there { column_need column rest.now ≤ length rest.now }
    requires limit { at + length rest.now ≤ input_limit }
    requires room { length (cell_text release column rest.now) ≤ length out.old }
    requires plain { (k < 768) × (mark_at marks.now k ≡ true → PlainCell release (cell_in column at rest.now)) }
    ensures place { result.place ≡ cell_value (conversions_of release) (cell_in column at rest.now) next }
    ensures used { result.used ≡ column_need column rest.now }
    ensures count { result.written ≡ length (cell_text release column rest.now) }
    ensures bytes { out.new ≡ overwritten (cell_text release column rest.now) out.old }
    ensures replaced { result.replaced ≡ cell_replaced release column rest.now }
{
    if is_null(rest, column.nullable) {
        return bare_piece(Db2Value::Null, 1);
    }
    let from = lead(column.nullable);
    let v = value_write(
        &rest[from..],
        at + from,
        column,
        release,
        marks,
        k,
        next,
        out,
    );
    PieceWritten {
        used: from + v.used,
        ..v
    }
}
