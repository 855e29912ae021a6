// Face, for C and Rust: the library's calls as functions on numbers and slices of numbers, which `vejupa_c` exports. There a slice is a pointer and a
// length; what is written overlaps nothing else. Each function that can refuse answers a refusal's number, or 0; each number beside it has a place of its
// own and one meaning. A column is two words, a value three and a type one: crates/words has the layout. This crate has no
// rules of its own but 101 and 102, of lent words: each promise cites what the call within promises, or what the call that it stands for does.
#![tactic(auto)]

ghost use Rattle.std.specs.Prelude.{◌≡◌, cond, ◌≤◌, length};
ghost use Rattle.refusal.specs.Refusal.{told, told_number};
ghost use Rattle.buffer.specs.Buffer.{unreplaced, told_text};
ghost use Rattle.unicode_standard.specs.Likely.{likely_text};
ghost use Rattle.conversion.specs.Conversion.{characters_by, graphics_by, locator_text, row_id_text};
ghost use Rattle.text.specs.Text.{conversion_answer, conversion_buffer, release_answer, release_buffer};
ghost use Rattle.decimal.specs.Decimal.{decimal_answer, decimal_buffer};
ghost use Rattle.decimal.specs.Whole.{whole_answer};
ghost use Rattle.qrydsc.specs.Qrydsc.{max_qrydsc, description, whole_description};
ghost use Rattle.qrydsc.specs.Entries.{entry_answer};
ghost use Rattle.description_words.specs.Counted.{Counted};
ghost use Rattle.words.specs.Words.{read_type};
ghost use Rattle.vejupa.specs.Answers.{length_told};
ghost use Rattle.vejupa.specs.Rows.{words_decision, row_numbers, words_left, text_left, words_bytes};
ghost use Rattle.vejupa.specs.Descriptions.{description_number, description_words, broken_off_number, type_number, length_of, flag_of, bytes_of};

use buffer::Written;
use conversion::is_release;
use qrydsc::MAX_QRYDSC;
use refusal::{
    BUFFER_TOO_SHORT, COUNT_TOO_LARGE, DEC_FLOAT_COLUMN, INPUT_LIMIT, INPUT_TOO_LONG,
    QRYDSC_TOO_LONG, Refusal, TEXT_BUFFER_TOO_SHORT, UNKNOWN_RELEASE,
};
use row::value_bytes;
use row_words::RowError;
use types::MAX_COLUMNS;
use words::ValueWords;

// What a function answers beside the refusals (D1): the lent words are too few; a word is no type's; words are no column's.
const TOO_FEW_WORDS: u32 = 101;

const NO_TYPE_WORD: u32 = 102;

const NO_COLUMN: u32 = 102;

// The version of these calls, 0.6.0 as 10000 * 0 + 100 * 6 + 0. The number stands in the name, which include/vejupa.h and bindings/rust refer to: what was
// compiled for another version does not link.
pub fn vejupa_version_0_6_0() -> u32
    ensures { result ≡ 600 }
{
    600
}

// A Boolean as 1 and 0, as C is told it. A function, since three wrong programs are refused in it.
fn flag(b: bool) -> u32
    ensures { result ≡ cond b 1 0 }
{
    u32::from(b)
}

// Hands out an answer: its number returned, in text_length how long the text is, written or needed.
fn report(a: Result<Written, Refusal>, text_length: &mut usize) -> u32
    ensures number { result ≡ told_number (told_text a).outcome }
    ensures length { text_length.new ≡ length_told (told_text a) }
{
    match a {
        Ok(w) => {
            *text_length = w.len;
            0
        }
        Err(r) => {
            *text_length = r.first_value();
            r.number()
        }
    }
}

// The same with a third number: in replaced how many U+FFFD were put in for what was malformed.
fn report_replaced(
    a: Result<Written, Refusal>,
    text_length: &mut usize,
    replaced: &mut usize,
) -> u32
    ensures number { result ≡ told_number (told_text a).outcome }
    ensures length { text_length.new ≡ length_told (told_text a) }
    ensures replaced { replaced.new ≡ (told_text a).replaced }
{
    *replaced = match a {
        Ok(w) => w.replaced,
        Err(_) => 0,
    };
    report(a, text_length)
}

// The text of a character value, by its CCSID and the host's release; in replaced how many U+FFFD were put in for what was malformed.
pub fn vejupa_raw_decode_character_bytes(
    data: &[u8],
    ccsid: u16,
    release: u32,
    text: &mut [u8],
    text_length: &mut usize,
    replaced: &mut usize,
) -> u32
    ensures number { result ≡ told_number (release_answer release «data».now (characters_by release ccsid «data».now) text.old).outcome }
    ensures length { text_length.new ≡ length_told (release_answer release «data».now (characters_by release ccsid «data».now) text.old) }
    ensures buffer { text.new ≡ release_buffer release «data».now (characters_by release ccsid «data».now).text_bytes text.old }
    ensures replaced { replaced.new ≡ (release_answer release «data».now (characters_by release ccsid «data».now) text.old).replaced }
{
    let a = text::decode_character_bytes(data, ccsid, release, text);
    report_replaced(a, text_length, replaced)
}

// The same for a graphic value.
pub fn vejupa_raw_decode_graphic_bytes(
    data: &[u8],
    ccsid: u16,
    release: u32,
    text: &mut [u8],
    text_length: &mut usize,
    replaced: &mut usize,
) -> u32
    ensures number { result ≡ told_number (release_answer release «data».now (graphics_by release ccsid «data».now) text.old).outcome }
    ensures length { text_length.new ≡ length_told (release_answer release «data».now (graphics_by release ccsid «data».now) text.old) }
    ensures buffer { text.new ≡ release_buffer release «data».now (graphics_by release ccsid «data».now).text_bytes text.old }
    ensures replaced { replaced.new ≡ (release_answer release «data».now (graphics_by release ccsid «data».now) text.old).replaced }
{
    let a = text::decode_graphic_bytes(data, ccsid, release, text);
    report_replaced(a, text_length, replaced)
}

// `LOB locator 0x` and the bytes in hexadecimal.
pub fn vejupa_raw_format_lob_locator(bytes: &[u8], text: &mut [u8], text_length: &mut usize) -> u32
    ensures number { result ≡ told_number (conversion_answer bytes.now (unreplaced (locator_text bytes.now)) text.old).outcome }
    ensures length { text_length.new ≡ length_told (conversion_answer bytes.now (unreplaced (locator_text bytes.now)) text.old) }
    ensures buffer { text.new ≡ conversion_buffer bytes.now (locator_text bytes.now) text.old }
{
    let a = text::format_lob_locator(bytes, text);
    report(a, text_length)
}

// `0x` and the bytes in hexadecimal.
pub fn vejupa_raw_format_rowid(bytes: &[u8], text: &mut [u8], text_length: &mut usize) -> u32
    ensures number { result ≡ told_number (conversion_answer bytes.now (unreplaced (row_id_text bytes.now)) text.old).outcome }
    ensures length { text_length.new ≡ length_told (conversion_answer bytes.now (unreplaced (row_id_text bytes.now)) text.old) }
    ensures buffer { text.new ≡ conversion_buffer bytes.now (row_id_text bytes.now) text.old }
{
    let a = text::format_rowid(bytes, text);
    report(a, text_length)
}

// The text of a packed decimal. The precision has no part in it.
pub fn vejupa_raw_decode_packed_decimal(
    data: &[u8],
    precision: u8,
    scale: u8,
    text: &mut [u8],
    text_length: &mut usize,
) -> u32
    ensures number { result ≡ told_number (decimal_answer scale «data».now text.old).outcome }
    ensures length { text_length.new ≡ length_told (decimal_answer scale «data».now text.old) }
    ensures buffer { text.new ≡ decimal_buffer scale «data».now text.old }
{
    let a = decimal::decode_packed_decimal(data, precision, scale, text);
    report(a, text_length)
}

// The packed decimal as a whole number, by z/Architecture, in whole, and in whole_scale the scale that was handed in; 0 in both after a refusal.
pub fn vejupa_raw_decode_packed_whole(
    data: &[u8],
    scale: u8,
    whole: &mut i64,
    whole_scale: &mut u8,
) -> u32
    ensures number { result ≡ told_number (whole_answer scale «data».now).outcome }
    ensures whole { whole.new ≡ (whole_answer scale «data».now).number }
    ensures scale { whole_scale.new ≡ (whole_answer scale «data».now).scale }
{
    match decimal::decode_packed_whole(data, scale) {
        Ok(w) => {
            *whole = w.number;
            *whole_scale = w.scale;
            0
        }
        Err(r) => {
            *whole = 0;
            *whole_scale = 0;
            r.number()
        }
    }
}

// 1 where bytes are likely text, else 0.
pub fn vejupa_raw_bytes_are_likely_text(bytes: &[u8]) -> u32
    ensures { result ≡ cond (likely_text bytes.now) 1 0 }
{
    flag(text::bytes_are_likely_text(bytes))
}

// Whether a description within the length limit is taken, whose columns are counted.
fn refusal_of(data: &[u8], columns: usize, end: usize, whole: bool) -> Result<(), Refusal>
    requires { (length «data».now ≤ max_qrydsc) × Counted «data».now columns end }
    ensures { told_number (told result) ≡ told_number (entry_answer whole «data».now).outcome }
{
    if MAX_COLUMNS < columns {
        return Err(triplets::too_many(data, end, whole));
    }
    if whole && end < data.len() {
        return Err(Refusal::QrydscBrokenOff);
    }
    Ok(())
}

// Numbers, and no Result within: C's places are set on every way, and an inner answer would be matched once, to set the same places.
// Both description calls in one, with the places of C. It reads the description twice, to count and to write (once where it has no columns), and makes no column list.
fn parse(
    data: &[u8],
    column_words: &mut [u64],
    count: &mut usize,
    broken_off: &mut u32,
    whole: bool,
) -> u32
    ensures number { result ≡ description_number (entry_answer whole «data».now) column_words.old }
    ensures count { count.new ≡ (entry_answer whole «data».now).columns.count }
    ensures broken_off { broken_off.new ≡ broken_off_number (entry_answer whole «data».now) column_words.old }
    ensures words { column_words.new ≡ description_words (entry_answer whole «data».now) column_words.old }
{
    *count = 0;
    *broken_off = 0;
    if MAX_QRYDSC < data.len() {
        return QRYDSC_TOO_LONG;
    }
    // Two numbers, as the definition Counted takes them: each is also used alone below.
    let counted = description_words::count_columns(data);
    let n = counted.columns;
    let end = counted.end;
    if let Err(r) = refusal_of(data, n, end, whole) {
        return r.number();
    }
    *count = n;
    if column_words.len() < 2 * n {
        return TOO_FEW_WORDS;
    }
    *broken_off = flag(end < data.len());
    description_words::write_columns(data, n, column_words);
    0
}

// The columns that a description describes, in order: two words for each, how many they are, and whether the description breaks off.
pub fn vejupa_raw_parse_qrydsc(
    data: &[u8],
    column_words: &mut [u64],
    count: &mut usize,
    broken_off: &mut u32,
) -> u32
    ensures number { result ≡ description_number (description «data».now) column_words.old }
    ensures count { count.new ≡ (description «data».now).columns.count }
    ensures broken_off { broken_off.new ≡ broken_off_number (description «data».now) column_words.old }
    ensures words { column_words.new ≡ description_words (description «data».now) column_words.old }
{
    parse(data, column_words, count, broken_off, false)
}

// The same, save that a description that breaks off is refused: 15, behind 1 and before 2, and both before 101.
pub fn vejupa_raw_parse_whole_qrydsc(
    data: &[u8],
    column_words: &mut [u64],
    count: &mut usize,
) -> u32
    ensures number { result ≡ description_number (whole_description «data».now) column_words.old }
    ensures count { count.new ≡ (whole_description «data».now).columns.count }
    ensures words { column_words.new ≡ description_words (whole_description «data».now) column_words.old }
{
    let mut broken_off: u32 = 0;
    parse(data, column_words, count, &mut broken_off, true)
}

// The byte count of a type's values, where the type alone tells it: fixed is 1, and 0 where it varies.
pub fn vejupa_raw_fixed_length(type_word: u64, fixed: &mut u32, length: &mut usize) -> u32
    ensures number { result ≡ type_number (read_type type_word) }
    ensures fixed { fixed.new ≡ flag_of (length_of (read_type type_word)) }
    ensures length { length.new ≡ bytes_of (length_of (read_type type_word)) }
{
    *fixed = 0;
    *length = 0;
    let Some(t) = words::read_type_word(type_word) else {
        return NO_TYPE_WORD;
    };
    if let Some(n) = t.fixed_length() {
        *fixed = 1;
        *length = n;
    }
    0
}

// A row's values by columns that stand in words, two words a column, and the host's release: three words a value, texts in the text buffer. used are the bytes used,
// text_length the bytes of the row's texts, written or with 9 needed; replaced are the U+FFFD that were put in for what was malformed; expected and actual are
// 8's values. A number that does not apply is 0. It makes no list of 128 places.
pub fn vejupa_raw_decode_row(
    column_words: &[u64],
    data: &[u8],
    release: u32,
    value_words: &mut [u64],
    text: &mut [u8],
    used: &mut usize,
    text_length: &mut usize,
    replaced: &mut usize,
    expected: &mut usize,
    actual: &mut usize,
) -> u32
    ensures number { result ≡ (row_numbers release (words_decision release column_words.now «data».now value_words.old text.old)).returned }
    ensures used { used.new ≡ (row_numbers release (words_decision release column_words.now «data».now value_words.old text.old)).used }
    ensures length { text_length.new ≡ (row_numbers release (words_decision release column_words.now «data».now value_words.old text.old)).text_length }
    ensures expected { expected.new ≡ (row_numbers release (words_decision release column_words.now «data».now value_words.old text.old)).expected }
    ensures actual { actual.new ≡ (row_numbers release (words_decision release column_words.now «data».now value_words.old text.old)).actual }
    ensures values { value_words.new ≡ words_left release (words_decision release column_words.now «data».now value_words.old text.old) value_words.old }
    ensures text { text.new ≡ text_left release (words_decision release column_words.now «data».now value_words.old text.old) text.old }
    ensures replaced { replaced.new ≡ (row_numbers release (words_decision release column_words.now «data».now value_words.old text.old)).replaced }
{
    *used = 0;
    *text_length = 0;
    *replaced = 0;
    *expected = 0;
    *actual = 0;
    if !is_release(release) {
        return UNKNOWN_RELEASE;
    }
    let count = column_words.len() / 2;
    if MAX_COLUMNS < count {
        return COUNT_TOO_LARGE;
    }
    if value_words.len() < 3 * count {
        return TOO_FEW_WORDS;
    }
    let Some(dec_float) = row_words::check_columns(column_words) else {
        return NO_COLUMN;
    };
    if INPUT_LIMIT < data.len() {
        return INPUT_TOO_LONG;
    }
    if dec_float {
        return DEC_FLOAT_COLUMN;
    }
    match row_words::decode_row(column_words, data, release, value_words, text) {
        Ok(t) => {
            *used = t.used;
            *text_length = t.written;
            *replaced = t.replaced;
            0
        }
        Err(
            RowError::TooShort {
                expected: wanted,
                actual: there,
            },
        ) => {
            *expected = wanted;
            *actual = there;
            BUFFER_TOO_SHORT
        }
        Err(RowError::TextTooShort { needed }) => {
            *text_length = needed;
            TEXT_BUFFER_TOO_SHORT
        }
    }
}

// The bytes of the value that three words say, in the row or in the text buffer (H6). There are none for a number, a Boolean, Null and a place that
// does not fit, nor where the words are fewer than three. Nothing is refused. As of value_bytes, the promise is on the bytes.
pub fn vejupa_raw_value_bytes<'a>(
    value_words: &[u64],
    data: &'a [u8],
    text: &'a [u8],
    bytes: &mut &'a [u8],
)
    ensures { bytes.new.now ≡ words_bytes value_words.now «data».now text.now }
{
    let &[kind, number, len, ..] = value_words else {
        // a part of the row, where an empty literal would be one of neither
        *bytes = &data[..0];
        return;
    };
    let place = ValueWords { kind, number, len }.value_place();
    *bytes = value_bytes(place.value, data, text);
}
