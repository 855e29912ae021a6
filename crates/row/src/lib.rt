// Face. decode_row: the values of a row, by its columns and the host's release, with their texts in a lent buffer; and value_bytes, which shows a value's bytes. It reads no
// description.
#![tactic(auto)]

ghost use Rattle.std.specs.Prelude.{◌≡◌, ℕ, ◌≤◌, length};
ghost use Rattle.refusal.specs.Refusal.{input_limit};
ghost use Rattle.types.specs.Places.{max_columns};
ghost use Rattle.rules.specs.Walk.{walk_body};
ghost use Rattle.rules.specs.Row.{told_row, body_decision, answer_of, text_after};
ghost use Rattle.rules.specs.Conversions.{conversions_of, row_answer, row_text};
ghost use Rattle.rules.specs.Value.{bytes_at, value_bytes};
ghost use Rattle.piece.specs.Marks.{PlainMarks};
ghost use Rattle.piece.specs.Texts.{texts_of, needed_beyond};
ghost use Rattle.piece.proofs.Bound.{AllScaled};
ghost use Rattle.row.specs.Whole.{Whole};

use conversion::is_release;
use piece::marks::{NONE, WORDS, mark};
use piece::{piece_length, piece_need, piece_write, shortage, skip_of};
use refusal::{INPUT_LIMIT, Refusal};
use types::{ColumnDescriptor, Columns, Db2Value, MAX_COLUMNS, Place, Row, ValuePlace};

// The input, where the body begins, the columns and the release go to two functions of one caller each, here and in row_words: a struct of them would be made there and
// taken apart at once.
// How long the texts of a row are together, where a text buffer of `room` bytes is too short for them. Every column has its bytes. A column whose text
// is copied is marked.
fn text_needed(
    data: &[u8],
    start: usize,
    columns: &[ColumnDescriptor],
    release: u32,
    room: usize,
    marks: &mut [u64; WORDS],
) -> Option<usize>
    requires count { length columns.now ≤ max_columns }
    requires scales { AllScaled columns.now }
    requires start { start ≤ length «data».now }
    requires limit { length «data».now ≤ input_limit }
    requires whole { (end : ℕ) × Whole (walk_body columns.now start «data».now) end }
    requires marks { PlainMarks release marks.old (walk_body columns.now start «data».now) }
    ensures needed { result ≡ needed_beyond room (texts_of release (walk_body columns.now start «data».now)) }
    ensures marks { PlainMarks release marks.new (walk_body columns.now start «data».now) }
{
    let mut at = start;
    let mut total: usize = 0;
    for (i, &column) in columns.iter().enumerate() {
        let p = piece_length(&data[at..], column, release);
        mark(marks, i, p.plain);
        at += p.used;
        total += p.len;
    }
    if total <= room {
        return None;
    }
    Some(total)
}

// The body of a row that begins at a place of the input. Nothing is written before it is known that every column has its bytes and that the texts
// fit, which is measured only for a text buffer that may be too short.
fn decode_row_body(
    data: &[u8],
    start: usize,
    columns: &[ColumnDescriptor],
    release: u32,
    text: &mut [u8],
) -> Result<Row, Refusal>
    requires count { length columns.now ≤ max_columns }
    requires scales { AllScaled columns.now }
    requires start { start ≤ length «data».now }
    requires limit { length «data».now ≤ input_limit }
    ensures answer { told_row result ≡ answer_of (conversions_of release) (body_decision (conversions_of release) columns.now start «data».now text.old) }
    ensures text { text.new ≡ text_after (conversions_of release) (body_decision (conversions_of release) columns.now start «data».now text.old) text.old }
{
    let mut end = start;
    for &column in columns {
        let rest = &data[end..];
        let n = piece_need(rest, column);
        if rest.len() < n {
            return Err(shortage(rest, end - start, column).into());
        }
        end += n;
    }
    // no column of n bytes has a text longer than 3 n + 258
    let room = text.len();
    let mut marks: [u64; WORDS] = [NONE; WORDS];
    if room < 3 * (end - start) + 258 * columns.len() {
        if let Some(needed) = text_needed(data, start, columns, release, room, &mut marks) {
            return Err(Refusal::TextBufferTooShort { needed });
        }
    }
    let mut places = [ValuePlace::default(); MAX_COLUMNS];
    let mut at = start;
    let mut next: usize = 0;
    let mut replaced: usize = 0;
    for (k, &column) in columns.iter().enumerate() {
        let p = piece_write(
            &data[at..],
            at,
            column,
            release,
            &marks,
            k,
            next,
            &mut text[next..],
        );
        places[k] = p.place;
        at += p.used;
        next += p.written;
        replaced += p.replaced;
    }
    Ok(Row {
        places,
        used: at,
        replaced,
    })
}

// The row's values, its external columns, the bytes used, and how many U+FFFD its texts' conversions put in.
#[tactic(auto, unfolding(rules::specs::Conversions::row_answer, rules::specs::Conversions::row_text, rules::specs::Row::row_decision, rules::specs::Row::answer_of, rules::specs::Row::text_after))]
pub fn decode_row(
    data: &[u8],
    columns: Columns,
    release: u32,
    text: &mut [u8],
) -> Result<Row, Refusal>
    ensures answer { told_row result ≡ row_answer release columns «data».now text.old }
    ensures text { text.new ≡ row_text release columns «data».now text.old }
{
    if !is_release(release) {
        return Err(Refusal::UnknownRelease);
    }
    let count = columns.count;
    if MAX_COLUMNS < count {
        return Err(Refusal::CountTooLarge);
    }
    if INPUT_LIMIT < data.len() {
        return Err(Refusal::InputTooLong);
    }
    let list = &columns.columns[..count];
    if list.iter().any(|c| c.is_dec_float()) {
        return Err(Refusal::DecFloatColumn);
    }
    decode_row_body(data, skip_of(data), list, release, text)
}

// The part of s at a place, and none where the place doesn't fit.
#[tactic(auto, unfolding(rules::specs::Value::bytes_at))]
fn part<'a>(s: &'a [u8], p: Place) -> &'a [u8]
    ensures { result.now ≡ bytes_at p s.now }
{
    s.get(p.start..)
        .and_then(|t| t.get(..p.len))
        .unwrap_or(&s[..0])
}

// The bytes of a value, in the row or in the text buffer (H6). The promise is on the bytes. It leaves free which of the two the part is of where
// both would show the same bytes, and so wherever the part is empty. By a match of its own, which asks in which of the two a value's place is.
#[tactic(auto, unfolding(rules::specs::Value::value_bytes))]
pub fn value_bytes<'a>(value: Db2Value, row: &'a [u8], text: &'a [u8]) -> &'a [u8]
    ensures { result.now ≡ value_bytes value row.now text.now }
{
    match value {
        Db2Value::Binary(p) | Db2Value::Blob(p) => part(row, p),
        Db2Value::Decimal(p)
        | Db2Value::Char(p)
        | Db2Value::VarChar(p)
        | Db2Value::Clob(p)
        | Db2Value::RowId(p)
        | Db2Value::Date(p)
        | Db2Value::Time(p)
        | Db2Value::Timestamp(p)
        | Db2Value::Xml(p) => part(text, p),
        _ => &row[0..0],
    }
}
