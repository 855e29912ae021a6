// Inner. The calls of `vejupa` under their names for C, in the static library libvejupa.a. Each does what the function of the same name does, and promises
// the same; a slice is a pointer and a length.
#![tactic(auto)]

ghost use Rattle.std.specs.Prelude.{◌≡◌, cond, length};
ghost use Rattle.refusal.specs.Refusal.{told_number};
ghost use Rattle.buffer.specs.Buffer.{unreplaced};
ghost use Rattle.unicode_standard.specs.Likely.{likely_text};
ghost use Rattle.conversion.specs.Conversion.{characters_by, graphics_by, locator_text, row_id_text};
ghost use Rattle.text.specs.Text.{conversion_answer, conversion_buffer, release_answer, release_buffer};
ghost use Rattle.decimal.specs.Decimal.{decimal_answer, decimal_buffer};
ghost use Rattle.decimal.specs.Whole.{whole_answer};
ghost use Rattle.qrydsc.specs.Qrydsc.{description, whole_description};
ghost use Rattle.words.specs.Words.{read_type};
ghost use Rattle.vejupa.specs.Answers.{length_told};
ghost use Rattle.vejupa.specs.Rows.{words_decision, row_numbers, words_left, text_left, words_bytes};
ghost use Rattle.vejupa.specs.Descriptions.{description_number, description_words, broken_off_number, type_number, length_of, flag_of, bytes_of};

// The version of these calls, 0.6.0 as 10000 * 0 + 100 * 6 + 0. The number stands in the name, which include/vejupa.h and bindings/rust refer to: what was
// compiled for another version does not link.
#[unsafe(no_mangle)]
pub extern "C" fn vejupa_version_0_6_0() -> u32
    ensures { result ≡ 600 }
{
    vejupa::vejupa_version_0_6_0()
}

// The text of a character value, by its CCSID and the host's release; in replaced how many U+FFFD were put in for what was malformed.
#[unsafe(no_mangle)]
pub extern "C" fn vejupa_raw_decode_character_bytes(
    data: &[u8],
    ccsid: u16,
    release: u32,
    text: &mut [u8],
    text_length: &mut usize,
    replaced: &mut usize,
) -> u32
    ensures number { result ≡ told_number (release_answer release «data».now (characters_by release ccsid «data».now) text.old).outcome }
    ensures length { text_length.new ≡ length_told (release_answer release «data».now (characters_by release ccsid «data».now) text.old) }
    ensures buffer { text.new ≡ release_buffer release «data».now (characters_by release ccsid «data».now).text_bytes text.old }
    ensures replaced { replaced.new ≡ (release_answer release «data».now (characters_by release ccsid «data».now) text.old).replaced }
{
    vejupa::vejupa_raw_decode_character_bytes(data, ccsid, release, text, text_length, replaced)
}

// The same for a graphic value.
#[unsafe(no_mangle)]
pub extern "C" fn vejupa_raw_decode_graphic_bytes(
    data: &[u8],
    ccsid: u16,
    release: u32,
    text: &mut [u8],
    text_length: &mut usize,
    replaced: &mut usize,
) -> u32
    ensures number { result ≡ told_number (release_answer release «data».now (graphics_by release ccsid «data».now) text.old).outcome }
    ensures length { text_length.new ≡ length_told (release_answer release «data».now (graphics_by release ccsid «data».now) text.old) }
    ensures buffer { text.new ≡ release_buffer release «data».now (graphics_by release ccsid «data».now).text_bytes text.old }
    ensures replaced { replaced.new ≡ (release_answer release «data».now (graphics_by release ccsid «data».now) text.old).replaced }
{
    vejupa::vejupa_raw_decode_graphic_bytes(data, ccsid, release, text, text_length, replaced)
}

// `LOB locator 0x` and the bytes in hexadecimal.
#[unsafe(no_mangle)]
pub extern "C" fn vejupa_raw_format_lob_locator(
    bytes: &[u8],
    text: &mut [u8],
    text_length: &mut usize,
) -> u32
    ensures number { result ≡ told_number (conversion_answer bytes.now (unreplaced (locator_text bytes.now)) text.old).outcome }
    ensures length { text_length.new ≡ length_told (conversion_answer bytes.now (unreplaced (locator_text bytes.now)) text.old) }
    ensures buffer { text.new ≡ conversion_buffer bytes.now (locator_text bytes.now) text.old }
{
    vejupa::vejupa_raw_format_lob_locator(bytes, text, text_length)
}

// `0x` and the bytes in hexadecimal.
#[unsafe(no_mangle)]
pub extern "C" fn vejupa_raw_format_rowid(
    bytes: &[u8],
    text: &mut [u8],
    text_length: &mut usize,
) -> u32
    ensures number { result ≡ told_number (conversion_answer bytes.now (unreplaced (row_id_text bytes.now)) text.old).outcome }
    ensures length { text_length.new ≡ length_told (conversion_answer bytes.now (unreplaced (row_id_text bytes.now)) text.old) }
    ensures buffer { text.new ≡ conversion_buffer bytes.now (row_id_text bytes.now) text.old }
{
    vejupa::vejupa_raw_format_rowid(bytes, text, text_length)
}

// The text of a packed decimal. The precision has no part in it.
#[unsafe(no_mangle)]
pub extern "C" fn vejupa_raw_decode_packed_decimal(
    data: &[u8],
    precision: u8,
    scale: u8,
    text: &mut [u8],
    text_length: &mut usize,
) -> u32
    ensures number { result ≡ told_number (decimal_answer scale «data».now text.old).outcome }
    ensures length { text_length.new ≡ length_told (decimal_answer scale «data».now text.old) }
    ensures buffer { text.new ≡ decimal_buffer scale «data».now text.old }
{
    vejupa::vejupa_raw_decode_packed_decimal(data, precision, scale, text, text_length)
}

// The packed decimal as a whole number, by z/Architecture, in whole, and in whole_scale the scale that was handed in; 0 in both after a refusal.
#[unsafe(no_mangle)]
pub extern "C" fn vejupa_raw_decode_packed_whole(
    data: &[u8],
    scale: u8,
    whole: &mut i64,
    whole_scale: &mut u8,
) -> u32
    ensures number { result ≡ told_number (whole_answer scale «data».now).outcome }
    ensures whole { whole.new ≡ (whole_answer scale «data».now).number }
    ensures scale { whole_scale.new ≡ (whole_answer scale «data».now).scale }
{
    vejupa::vejupa_raw_decode_packed_whole(data, scale, whole, whole_scale)
}

// 1 where bytes are likely text, else 0.
#[unsafe(no_mangle)]
pub extern "C" fn vejupa_raw_bytes_are_likely_text(bytes: &[u8]) -> u32
    ensures { result ≡ cond (likely_text bytes.now) 1 0 }
{
    vejupa::vejupa_raw_bytes_are_likely_text(bytes)
}

// The columns that a description describes, in order: two words for each, how many they are, and whether the description breaks off.
#[unsafe(no_mangle)]
pub extern "C" fn vejupa_raw_parse_qrydsc(
    data: &[u8],
    column_words: &mut [u64],
    count: &mut usize,
    broken_off: &mut u32,
) -> u32
    ensures number { result ≡ description_number (description «data».now) column_words.old }
    ensures count { count.new ≡ (description «data».now).columns.count }
    ensures broken_off { broken_off.new ≡ broken_off_number (description «data».now) column_words.old }
    ensures words { column_words.new ≡ description_words (description «data».now) column_words.old }
{
    vejupa::vejupa_raw_parse_qrydsc(data, column_words, count, broken_off)
}

// The same, save that a description that breaks off is refused: 15, behind 1 and before 2, and both before 101.
#[unsafe(no_mangle)]
pub extern "C" fn vejupa_raw_parse_whole_qrydsc(
    data: &[u8],
    column_words: &mut [u64],
    count: &mut usize,
) -> u32
    ensures number { result ≡ description_number (whole_description «data».now) column_words.old }
    ensures count { count.new ≡ (whole_description «data».now).columns.count }
    ensures words { column_words.new ≡ description_words (whole_description «data».now) column_words.old }
{
    vejupa::vejupa_raw_parse_whole_qrydsc(data, column_words, count)
}

// The byte count of a type's values, where the type alone tells it: fixed is 1, and 0 where it varies.
#[unsafe(no_mangle)]
pub extern "C" fn vejupa_raw_fixed_length(
    type_word: u64,
    fixed: &mut u32,
    length: &mut usize,
) -> u32
    ensures number { result ≡ type_number (read_type type_word) }
    ensures fixed { fixed.new ≡ flag_of (length_of (read_type type_word)) }
    ensures length { length.new ≡ bytes_of (length_of (read_type type_word)) }
{
    vejupa::vejupa_raw_fixed_length(type_word, fixed, length)
}

// A row's values by columns that stand in words, two words a column, and the host's release: three words a value, texts in the text buffer. used are the bytes used,
// text_length the bytes of the row's texts, written or with 9 needed; replaced are the U+FFFD that were put in for what was malformed; expected and actual are
// 8's values. A number that does not apply is 0. It makes no list of 128 places.
#[unsafe(no_mangle)]
pub extern "C" fn vejupa_raw_decode_row(
    column_words: &[u64],
    data: &[u8],
    release: u32,
    value_words: &mut [u64],
    text: &mut [u8],
    used: &mut usize,
    text_length: &mut usize,
    replaced: &mut usize,
    expected: &mut usize,
    actual: &mut usize,
) -> u32
    ensures number { result ≡ (row_numbers release (words_decision release column_words.now «data».now value_words.old text.old)).returned }
    ensures used { used.new ≡ (row_numbers release (words_decision release column_words.now «data».now value_words.old text.old)).used }
    ensures length { text_length.new ≡ (row_numbers release (words_decision release column_words.now «data».now value_words.old text.old)).text_length }
    ensures expected { expected.new ≡ (row_numbers release (words_decision release column_words.now «data».now value_words.old text.old)).expected }
    ensures actual { actual.new ≡ (row_numbers release (words_decision release column_words.now «data».now value_words.old text.old)).actual }
    ensures values { value_words.new ≡ words_left release (words_decision release column_words.now «data».now value_words.old text.old) value_words.old }
    ensures text { text.new ≡ text_left release (words_decision release column_words.now «data».now value_words.old text.old) text.old }
    ensures replaced { replaced.new ≡ (row_numbers release (words_decision release column_words.now «data».now value_words.old text.old)).replaced }
{
    vejupa::vejupa_raw_decode_row(
        column_words,
        data,
        release,
        value_words,
        text,
        used,
        text_length,
        replaced,
        expected,
        actual,
    )
}

// The bytes of the value that three words say, in the row or in the text buffer (H6). There are none for a number, a Boolean, Null and a place that
// does not fit, nor where the words are fewer than three. Nothing is refused. As of value_bytes, the promise is on the bytes.
#[unsafe(no_mangle)]
pub extern "C" fn vejupa_raw_value_bytes<'a>(
    value_words: &[u64],
    data: &'a [u8],
    text: &'a [u8],
    bytes: &mut &'a [u8],
)
    ensures { bytes.new.now ≡ words_bytes value_words.now «data».now text.now }
{
    vejupa::vejupa_raw_value_bytes(value_words, data, text, bytes);
}
