// Program. Runs the cases A to P of docs/RULES.md, "At the edges", and prints a line for each: its letter, and `same` where the whole outcome is the
// one in the table, else `differs`. The outcomes are proved in the crate `edges`; here the compiled calls are run on the same bytes: the description's
// outcome, the row call's outcome with its values, all 128 value places with their flags, the bytes used, the characters replaced (none in any case), every
// byte of the text buffer, and the bytes of each column's value; of a refusal its two numbers, and every byte of the text buffer. What a case is given, and what is expected of it, is written again below: each call of
// `one`, `two`, `too_short` and `packed_decimal` requires that it is a row of the proved table, and is proved to meet that.
#![tactic(auto)]

ghost use Rattle.std.specs.Prelude.{◌≡◌, [], ◌∷◌};
ghost use Rattle.edges.specs.Edges.{Given, values, too_short, text_found, within_row, IsEdge};

use qrydsc::parse_qrydsc;
use refusal::Refusal;
use row::decode_row;
use std::io::{Print, Stdout};
use types::{Db2Value, MAX_COLUMNS, Place, Row, ValuePlace};

// The text buffer that each case is given: 24 bytes, all of them AA.
const TEXT: usize = 24;

const BEFORE: u8 = 0xAA;

// The host release of the table, whose outcomes are the Rust's.
const RELEASE: u32 = 2;

// The precision handed to decode_packed_decimal. It has no part in the text.
const PRECISION: u8 = 31;

// What the calls make of a description, which is accepted, and a row.
#[derive(Drop)]
struct Decoded {
    columns: usize,
    answer: Result<Row, Refusal>,
    text: [u8; TEXT],
}

fn decode(description: &[u8], row: &[u8]) -> Option<Decoded> {
    let columns = parse_qrydsc(description).ok()?.columns;
    let mut text = [BEFORE; TEXT];
    let answer = decode_row(row, columns, RELEASE, &mut text);
    Some(Decoded {
        columns: columns.count,
        answer,
        text,
    })
}

// A value that does not refer to data outside the row.
fn within(value: Db2Value) -> ValuePlace {
    ValuePlace {
        value,
        external: false,
    }
}

// Whether the first value places are these, and all the others blank.
fn has_values(got: &[ValuePlace], values: &[ValuePlace]) -> bool {
    got.strip_prefix(values).is_some_and(|behind| behind
        .iter()
        .all(|&place| place == within(Db2Value::Null)))
}

// Whether the buffer holds these texts, and behind them what it held before.
fn has_text(got: &[u8], texts: &[u8]) -> bool {
    got.strip_prefix(texts)
        .is_some_and(|behind| behind.iter().all(|&b| b == BEFORE))
}

// Whether a row is accepted as in the table: with a column for each of these values, and of each the bytes that value_bytes shows; with these texts and
// bytes used. A case hands each of them on once: as structs they would be written out, field by field, at every call.
fn is_accepted(
    description: &[u8],
    row: &[u8],
    values: &[ValuePlace],
    texts: &[u8],
    bytes: &[&[u8]],
    used: usize,
) -> bool {
    let Some(d) = decode(description, row) else {
        return false;
    };
    let Ok(answer) = &d.answer else {
        return false;
    };
    d.columns == values.len()
        && answer.used == used
        && answer.replaced == 0
        && has_values(&answer.places, values)
        && has_text(&d.text, texts)
        && values.iter().zip(bytes).all(|(place, &shown)| row::value_bytes(
            place.value,
            row,
            &d.text,
        ) == shown)
}

// A description of one column and a row that is too short for it: no byte is written.
fn is_short(description: &[u8], row: &[u8], expected: usize, actual: usize) -> bool {
    let short = Refusal::BufferTooShort { expected, actual };
    decode(description, row).is_some_and(|d| {
        let is_refused = matches!(d.answer, Err(refusal) if refusal == short);
        is_refused && d.columns == 1 && has_text(&d.text, b"")
    })
}

// A packed decimal of this scale, and its text.
fn is_decimal(data: &[u8], scale: u8, want: &[u8]) -> bool {
    let mut text = [BEFORE; TEXT];
    decimal::decode_packed_decimal(data, PRECISION, scale, &mut text).is_ok_and(|written| {
        written.len == want.len() && written.replaced == 0 && has_text(&text, want)
    })
}

// In two writes: where standard output does not take the one, the other is tried all the same.
fn tell(out: Stdout, letter: u8, is_same: bool) {
    let verdict = if is_same { " same\n" } else { " differs\n" };
    let _ = out.print(char::from(letter));
    let _ = out.print(verdict);
}

// A case of one column. It and `two` make the lists that their contracts and is_accepted speak of, so that a case is written without them.
fn one(
    out: Stdout,
    letter: u8,
    description: &[u8],
    row: &[u8],
    value: Db2Value,
    external: bool,
    texts: &[u8],
    bytes: &[u8],
    used: usize,
)
    requires { IsEdge letter (Given.row_case description.now row.now) (values (record { value = value; external = external } ∷ []) texts.now (bytes.now ∷ []) used) }
{
    let place = ValuePlace { value, external };
    tell(
        out,
        letter,
        is_accepted(description, row, &[place], texts, &[bytes], used),
    );
}

// A case of two columns, neither external, of which the first has no bytes to show.
fn two(
    out: Stdout,
    letter: u8,
    description: &[u8],
    row: &[u8],
    first: Db2Value,
    second: Db2Value,
    texts: &[u8],
    bytes: &[u8],
    used: usize,
)
    requires { IsEdge letter (Given.row_case description.now row.now) (values (within_row first ∷ within_row second ∷ []) texts.now ([] ∷ bytes.now ∷ []) used) }
{
    let places = [within(first), within(second)];
    tell(
        out,
        letter,
        is_accepted(description, row, &places, texts, &[b"", bytes], used),
    );
}

// A case of one column, for which the row is too short.
fn too_short(
    out: Stdout,
    letter: u8,
    description: &[u8],
    row: &[u8],
    expected: usize,
    actual: usize,
)
    requires { IsEdge letter (Given.row_case description.now row.now) (too_short 1 expected actual) }
{
    tell(out, letter, is_short(description, row, expected, actual));
}

// A case of a packed decimal.
fn packed_decimal(out: Stdout, letter: u8, data: &[u8], scale: u8, want: &[u8])
    requires { IsEdge letter (Given.decimal_case «data».now scale) (text_found want.now) }
{
    tell(out, letter, is_decimal(data, scale, want));
}

// Each case is a function of its own, and no place of a table: so what is wrong in one is refused by its letter.

// The descriptions that several cases share.
const SMALL_INT_AND_DECIMAL: [u8; 9] = [0x09, 0x76, 0xD0, 0x05, 0x00, 0x02, 0x0F, 0x05, 0x02];

const NULLABLE_INTEGER: [u8; 5] = [0x05, 0x70, 0x03, 0x00, 0x04];

const HEADER_OF_ONE_BYTE: [u8; 7] = [0x07, 0x70, 0x32, 0x80, 0x01, 0x04, 0xB8];

const CLOB_OF_LENGTH_0: [u8; 6] = [0x06, 0x76, 0xD0, 0xCA, 0x00, 0x00];

fn a(out: Stdout) {
    let integer = [0x05, 0x70, 0x02, 0x00, 0x04];
    let row = [0x2A, 0x00, 0x00, 0x00];
    one(
        out,
        b'A',
        &integer,
        &row,
        Db2Value::Integer(42),
        false,
        b"",
        b"",
        4,
    );
}

fn b(out: Stdout) {
    let description = SMALL_INT_AND_DECIMAL;
    let row = [0x00, 0x00, 0x2A, 0x00, 0x12, 0x34, 0x5C];
    let first = Db2Value::SmallInt(42);
    let second = Db2Value::Decimal(Place { start: 0, len: 6 });
    two(
        out,
        b'B',
        &description,
        &row,
        first,
        second,
        b"123.45",
        b"123.45",
        7,
    );
}

fn c(out: Stdout) {
    let description = SMALL_INT_AND_DECIMAL;
    let row = [0xFF, 0x00, 0xFF, 0xFF];
    let first = Db2Value::Null;
    let second = Db2Value::Null;
    two(out, b'C', &description, &row, first, second, b"", b"", 4);
}

fn d(out: Stdout) {
    let description = NULLABLE_INTEGER;
    one(
        out,
        b'D',
        &description,
        &[0xFF],
        Db2Value::Null,
        false,
        b"",
        b"",
        1,
    );
}

fn e(out: Stdout) {
    let description = NULLABLE_INTEGER;
    too_short(out, b'E', &description, &[0xFF, 0xFF], 1, 0);
}

fn f(out: Stdout) {
    packed_decimal(out, b'F', &[0x00, 0x5C], 2, b"0.05");
}

fn g(out: Stdout) {
    packed_decimal(out, b'G', &[0x1C], 3, b"0.001");
}

fn h(out: Stdout) {
    packed_decimal(out, b'H', &[0x0D], 0, b"-0");
}

fn i(out: Stdout) {
    packed_decimal(out, b'I', &[0x12, 0x3B], 0, b"123");
}

fn j(out: Stdout) {
    let description = [
        0x03, 0x78, 0x31, 0x08, 0x70, 0x40, 0x00, 0x00, 0x00, 0x00, 0x25, 0x06, 0x76, 0xD0, 0x40,
        0x00, 0x03,
    ];
    let row = [0x00, 0xC1, 0xC2, 0xC3];
    let value = Db2Value::Char(Place { start: 0, len: 3 });
    one(
        out,
        b'J',
        &description,
        &row,
        value,
        false,
        b"ABC",
        b"ABC",
        4,
    );
}

fn k(out: Stdout) {
    let description = [0x05, 0x70, 0xC8, 0x80, 0x00];
    let value = Db2Value::Blob(Place { start: 0, len: 0 });
    one(out, b'K', &description, b"", value, false, b"", b"", 0);
}

fn l(out: Stdout) {
    let description = [0x05, 0x70, 0xC8, 0x80, 0x04];
    let row = [0x00, 0x00, 0x00, 0x07];
    let value = Db2Value::Blob(Place { start: 0, len: 4 });
    one(
        out,
        b'L',
        &description,
        &row,
        value,
        true,
        b"",
        &[0x00, 0x00, 0x00, 0x07],
        4,
    );
}

fn m(out: Stdout) {
    let description = HEADER_OF_ONE_BYTE;
    let value = Db2Value::Clob(Place { start: 0, len: 16 });
    let text = b"LOB locator 0x80";
    one(out, b'M', &description, &[0x80], value, true, text, text, 1);
}

fn n(out: Stdout) {
    let description = HEADER_OF_ONE_BYTE;
    let value = Db2Value::Clob(Place { start: 0, len: 14 });
    let text = b"LOB locator 0x";
    one(
        out,
        b'N',
        &description,
        &[0x80, 0x00],
        value,
        true,
        text,
        text,
        2,
    );
}

fn o(out: Stdout) {
    let description = CLOB_OF_LENGTH_0;
    let row = [0x02, 0x00, 0x00, 0x00];
    let value = Db2Value::Clob(Place { start: 0, len: 22 });
    let text = b"LOB locator 0x02000000";
    one(out, b'O', &description, &row, value, true, text, text, 4);
}

fn p(out: Stdout) {
    let description = CLOB_OF_LENGTH_0;
    let row = [0x02, 0x00, 0x00, 0x00, 0x00, 0x00, 0x00, 0x00, 0x00];
    let value = Db2Value::Clob(Place { start: 0, len: 0 });
    one(out, b'P', &description, &row, value, false, b"", b"", 9);
}

fn main(rt: HostRuntime) {
    let out = rt.stdout();
    a(out);
    b(out);
    c(out);
    d(out);
    e(out);
    f(out);
    g(out);
    h(out);
    i(out);
    j(out);
    k(out);
    l(out);
    m(out);
    n(out);
    o(out);
    p(out);
}
