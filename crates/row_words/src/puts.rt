// A column's value written into its three words, and its text into the unwritten rest of the text buffer, by the column's two words.
// What is handed on is what piece's other_write takes, and the place of the three words: parameters of their own, for the reason at piece's item_write.
// The three words are given by all words and a place: an array of three would be cut out by a method that answers an Option.
ghost use Rattle.std.specs.Prelude.{◌≡◌, true, ◌+◌, ◌<◌, ◌≤◌, length};
ghost use Rattle.refusal.specs.Refusal.{input_limit};
ghost use Rattle.buffer.specs.Buffer.{overwritten};
ghost use Rattle.rules.specs.Extent.{need, extent_of};
ghost use Rattle.rules.specs.Walk.{column_need};
ghost use Rattle.rules.specs.Row.{cell_value};
ghost use Rattle.rules.specs.Conversions.{conversions_of};
ghost use Rattle.piece.specs.Marks.{mark_at};
ghost use Rattle.piece.specs.Piece.{value_in, value_text, value_replaced, cell_in, cell_text, cell_replaced, PlainCell};
ghost use Rattle.words.specs.Reading.{column_named};
ghost use Rattle.row_words.specs.Passes.{words_set, three_set};

use crate::needs::is_nullable;
use crate::values::{decode_number, decode_other};
use crate::{Taken, tags};
use piece::items::text_start;
use piece::marks::WORDS;
use piece::{is_null, lead, other_write};
use types::ValuePlace;
use words::{ColumnWords, ValueWords, value_words};

fn put_words(values: &mut [u64], at: usize, words: ValueWords)
    requires { at + 2 < length values.old }
    ensures { values.new ≡ words_set values.old at words.kind words.number words.len }
{
    values[at] = words.kind;
    values[at + 1] = words.number;
    values[at + 2] = words.len;
}

// Writes a value into its three words.
fn put_value(values: &mut [u64], at: usize, place: ValuePlace)
    requires { at + 2 < length values.old }
    ensures { values.new ≡ three_set values.old at place }
{
    put_words(values, at, value_words(place));
}

// Writes a value that is there, whose first byte is at place `at` of the input.
fn put_there(
    rest: &[u8],
    at: usize,
    words: ColumnWords,
    release: u32,
    marks: &[u64; WORDS],
    k: usize,
    next: usize,
    out: &mut [u8],
    values: &mut [u64],
    place: usize,
) -> Taken
    requires there { need (extent_of (column_named words.first words.second)) rest.now ≤ length rest.now }
    requires limit { at + length rest.now ≤ input_limit }
    requires room { length (value_text release (column_named words.first words.second) rest.now) ≤ length out.old }
    requires words { place + 2 < length values.old }
    requires plain { (k < 768) × (mark_at marks.now k ≡ true → PlainCell release (value_in (column_named words.first words.second) at rest.now)) }
    ensures used { result.used ≡ need (extent_of (column_named words.first words.second)) rest.now }
    ensures count { result.written ≡ length (value_text release (column_named words.first words.second) rest.now) }
    ensures bytes { out.new ≡ overwritten (value_text release (column_named words.first words.second) rest.now) out.old }
    ensures values { values.new ≡ three_set values.old place (cell_value (conversions_of release) (value_in (column_named words.first words.second) at rest.now) next) }
    ensures replaced { result.replaced ≡ value_replaced release (column_named words.first words.second) rest.now }
{
    if words.first % 0x100 < tags::DECIMAL {
        let v = decode_number(rest, words);
        put_value(
            values,
            place,
            ValuePlace {
                value: v.value,
                external: false,
            },
        );
        // Without a text, as Null below: written out twice, since a function for both would take one number.
        return Taken {
            used: v.used,
            written: 0,
            replaced: 0,
        };
    }
    let from = text_start(words.db2_type());
    let d = decode_other(rest, words);
    let p = other_write(d, release, from, rest, at, marks, k, next, out);
    put_value(values, place, p.place);
    Taken {
        used: p.used,
        written: p.written,
        replaced: p.replaced,
    }
}

// Writes a column's value into its three words and its text into out, as piece_write does. The rest of the row begins at place `at` of the input;
// out's first byte is at place `next` of the text buffer. The mark of column k says that the text is the value's own bytes, as measuring
// found; it is looked at only for texts.
pub fn put_column(
    rest: &[u8],
    at: usize,
    words: ColumnWords,
    release: u32,
    marks: &[u64; WORDS],
    k: usize,
    next: usize,
    out: &mut [u8],
    values: &mut [u64],
    place: usize,
) -> Taken
    requires there { column_need (column_named words.first words.second) rest.now ≤ length rest.now }
    requires limit { at + length rest.now ≤ input_limit }
    requires room { length (cell_text release (column_named words.first words.second) rest.now) ≤ length out.old }
    requires words { place + 2 < length values.old }
    requires plain { (k < 768) × (mark_at marks.now k ≡ true → PlainCell release (cell_in (column_named words.first words.second) at rest.now)) }
    ensures used { result.used ≡ column_need (column_named words.first words.second) rest.now }
    ensures count { result.written ≡ length (cell_text release (column_named words.first words.second) rest.now) }
    ensures bytes { out.new ≡ overwritten (cell_text release (column_named words.first words.second) rest.now) out.old }
    ensures values { values.new ≡ three_set values.old place (cell_value (conversions_of release) (cell_in (column_named words.first words.second) at rest.now) next) }
    ensures replaced { result.replaced ≡ cell_replaced release (column_named words.first words.second) rest.now }
{
    let nullable = is_nullable(words);
    if is_null(rest, nullable) {
        let null = ValueWords {
            kind: 0,
            number: 0,
            len: 0,
        };
        put_words(values, place, null);
        return Taken {
            used: 1,
            written: 0,
            replaced: 0,
        };
    }
    let from = lead(nullable);
    let t = put_there(
        &rest[from..],
        at + from,
        words,
        release,
        marks,
        k,
        next,
        out,
        values,
        place,
    );
    Taken {
        used: from + t.used,
        written: t.written,
        replaced: t.replaced,
    }
}
