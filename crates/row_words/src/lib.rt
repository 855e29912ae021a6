// Inner. The row call on plain words, for C and Rust: columns are read from lent words, values are written into lent words, texts into a lent
// buffer. What it costs grows with the columns used: no list of 128 places is made. crates/vejupa has the refusals before the body.
#![tactic(auto)]

mod needs;
mod puts;
mod tags;
mod values;

ghost use Rattle.std.specs.Prelude.{◌≡◌, ℕ, ◌+◌, ◌*◌, ◌/◌, ◌%◌, ◌<◌, ◌≤◌, ◌^◌, ◌||◌, eqb, length, get_or, Ok};
ghost use Rattle.refusal.specs.Refusal.{input_limit};
ghost use Rattle.types.specs.Places.{max_columns};
ghost use Rattle.rules.specs.Walk.{skip_of, walk_body};
ghost use Rattle.rules.specs.Row.{body_decision, text_after};
ghost use Rattle.rules.specs.Conversions.{conversions_of};
ghost use Rattle.words.specs.Reading.{read_columns};
ghost use Rattle.row_words.specs.Rows.{values_after};
ghost use Rattle.row_words.specs.Passes.{checked_of, columns_named, outline, Says};
ghost use Rattle.row_words.specs.declared.RowError.TheVariants.{TooShort};
ghost use Rattle.piece.specs.Marks.{PlainMarks};
ghost use Rattle.piece.specs.Texts.{texts_of, replaced_of, needed_beyond};

use buffer::Written;
use needs::need_named;
use piece::marks::{NONE, WORDS, mark};
use piece::{Lacking, piece_length, shortage, skip_of};
use puts::put_column;
use words::ColumnWords;

// How many bytes of the row a column took, or all of them, how many bytes of text were written, and how many U+FFFD among them were put in.
#[derive(Clone, Copy)]
pub struct Taken {
    pub used: usize,
    pub written: usize,
    pub replaced: usize,
}

// Why a row's body is refused: no Refusal, whose other cases the caller would have to tell from these two.
#[derive(Clone, Copy, Debug, PartialEq, Eq)]
pub enum RowError {
    TooShort { expected: usize, actual: usize },
    TextTooShort { needed: usize },
}

impl From<Lacking> for RowError {
    ghost from_gives = { λ l e. e ≡ TooShort l.expected l.actual };

    fn from(l: Lacking) -> RowError {
        RowError::TooShort {
            expected: l.expected,
            actual: l.actual,
        }
    }
}

// The two words of column i, in the four loops below. By its number and not by as_chunks: in two of them marks and values are found by it too, and in the others
// pairs would be a second way to the same words. By as_chunks and enumerate each loop would make the struct of its pair itself.
fn words_at(columns: &[u64], i: usize) -> ColumnWords
    requires { i < length columns.now / 2 }
    ensures { (result.first ≡ get_or columns.now (2 * i) 0) × (result.second ≡ get_or columns.now (2 * i + 1) 0) }
{
    ColumnWords {
        first: columns[2 * i],
        second: columns[2 * i + 1],
    }
}

// Whether a column was of type DecFloat, or the one of these words is. In the loop the two ways of || would join before the next words.
fn is_dec_float(before: bool, words: ColumnWords) -> bool
    ensures { result ≡ (before || eqb 6 (words.first % 2 ^ 8)) }
{
    before || words.first % 0x100 == tags::DEC_FLOAT
}

// Whether a column is of type DecFloat, where every two words are a column's and none is left over; None where they are not. One pass answers both questions.
pub fn check_columns(columns: &[u64]) -> Option<bool>
    ensures { result ≡ checked_of (read_columns columns.now) }
{
    let mut dec_float = false;
    for i in 0..columns.len() / 2 {
        let words = words_at(columns, i);
        if !words.is_column() {
            return None;
        }
        dec_float = is_dec_float(dec_float, words);
    }
    (columns.len() % 2 == 0).then_some(dec_float)
}

// The end of the last column in the input, where every column has its bytes. Nothing is written before that is known.
fn walk_columns(columns: &[u64], data: &[u8], start: usize) -> Result<usize, Lacking>
    requires start { start ≤ length «data».now }
    requires limit { length «data».now ≤ input_limit }
    ensures { result ≡ outline (walk_body (columns_named columns.now) start «data».now) }
{
    let mut at = start;
    for i in 0..columns.len() / 2 {
        let words = words_at(columns, i);
        let rest = &data[at..];
        let n = need_named(rest, words);
        if rest.len() < n {
            return Err(shortage(rest, at - start, words.column()));
        }
        at += n;
    }
    Ok(at)
}

// How long the texts of a row are together, where a text buffer of `room` bytes is too short for them. Every column has its bytes, the
// last of them before place `end` of the input. Where the texts are measured, a column is marked whose text is copied. row has the same of columns by value:
// one for both would take a closure or a trait that makes a column of a number, with a clause on each that it makes, and would be longer than the loop. So would one
// for the walks, which here go by the words of a column and make none.
fn text_needed(
    columns: &[u64],
    data: &[u8],
    release: u32,
    start: usize,
    end: usize,
    room: usize,
    marks: &mut [u64; WORDS],
) -> Option<usize>
    requires count { length columns.now / 2 ≤ max_columns }
    requires start { start ≤ length «data».now }
    requires limit { length «data».now ≤ input_limit }
    requires whole { Ok end ≡ outline (walk_body (columns_named columns.now) start «data».now) }
    requires marks { PlainMarks release marks.old (walk_body (columns_named columns.now) start «data».now) }
    ensures needed { result ≡ needed_beyond room (texts_of release (walk_body (columns_named columns.now) start «data».now)) }
    ensures marks { PlainMarks release marks.new (walk_body (columns_named columns.now) start «data».now) }
{
    let count = columns.len() / 2;
    // no text of n bytes is longer than 3 n + 258
    if 3 * (end - start) + 258 * count <= room {
        return None;
    }
    let mut at = start;
    let mut total: usize = 0;
    for i in 0..count {
        let column = words_at(columns, i).column();
        let p = piece_length(&data[at..], column, release);
        mark(marks, i, p.plain);
        at += p.used;
        total += p.len;
    }
    (room < total).then_some(total)
}

// Writes the values, and their texts one after the other: how many bytes of text they are, and how many U+FFFD among them were put in.
fn write_columns(
    columns: &[u64],
    data: &[u8],
    release: u32,
    start: usize,
    marks: &[u64; WORDS],
    values: &mut [u64],
    text: &mut [u8],
) -> Written
    requires start { start ≤ length «data».now }
    requires limit { length «data».now ≤ input_limit }
    requires whole { (end : ℕ) × (Ok end ≡ outline (walk_body (columns_named columns.now) start «data».now)) }
    requires words { 3 * (length columns.now / 2) ≤ length values.old }
    requires room { length (texts_of release (walk_body (columns_named columns.now) start «data».now)) ≤ length text.old }
    requires count { length columns.now / 2 ≤ max_columns }
    requires marks { PlainMarks release marks.now (walk_body (columns_named columns.now) start «data».now) }
    ensures count { result.len ≡ length (texts_of release (walk_body (columns_named columns.now) start «data».now)) }
    ensures values { values.new ≡ values_after release (body_decision (conversions_of release) (columns_named columns.now) start «data».now text.old) values.old }
    ensures text { text.new ≡ text_after (conversions_of release) (body_decision (conversions_of release) (columns_named columns.now) start «data».now text.old) text.old }
    ensures replaced { result.replaced ≡ replaced_of release (walk_body (columns_named columns.now) start «data».now) }
{
    let mut at = start;
    let mut next: usize = 0;
    let mut replaced: usize = 0;
    for i in 0..columns.len() / 2 {
        let p = put_column(
            &data[at..],
            at,
            words_at(columns, i),
            release,
            marks,
            i,
            next,
            &mut text[next..],
            values,
            3 * i,
        );
        at += p.used;
        next += p.written;
        replaced += p.replaced;
    }
    Written {
        len: next,
        replaced,
    }
}

// The row after the tests of its columns and its length: an FF is skipped, and the body decoded.
pub fn decode_row(
    columns: &[u64],
    data: &[u8],
    release: u32,
    values: &mut [u64],
    text: &mut [u8],
) -> Result<Taken, RowError>
    requires count { length columns.now / 2 ≤ max_columns }
    requires limit { length «data».now ≤ input_limit }
    requires words { 3 * (length columns.now / 2) ≤ length values.old }
    ensures outcome { Says release result (body_decision (conversions_of release) (columns_named columns.now) (skip_of «data».now) «data».now text.old) }
    ensures values { values.new ≡ values_after release (body_decision (conversions_of release) (columns_named columns.now) (skip_of «data».now) «data».now text.old) values.old }
    ensures text { text.new ≡ text_after (conversions_of release) (body_decision (conversions_of release) (columns_named columns.now) (skip_of «data».now) «data».now text.old) text.old }
{
    let start = skip_of(data);
    let end = walk_columns(columns, data, start)?;
    let mut marks: [u64; WORDS] = [NONE; WORDS];
    if let Some(needed) = text_needed(columns, data, release, start, end, text.len(), &mut marks) {
        return Err(RowError::TextTooShort { needed });
    }
    let w = write_columns(columns, data, release, start, &marks, values, text);
    Ok(Taken {
        used: end,
        written: w.len,
        replaced: w.replaced,
    })
}
