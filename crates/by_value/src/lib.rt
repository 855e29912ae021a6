// Inner. For the benchmark and the comparison with the Rust: the calls by value, each of which hands one number of its answer to C, so that the answer
// has to be made. It promises nothing that the calls themselves do not.
#![tactic(auto)]

ghost use Rattle.std.specs.Prelude.{◌≡◌, ◌<◌, cond, ◌%◌};
ghost use Rattle.refusal.specs.Refusal.{told_number};
ghost use Rattle.types.specs.Places.{max_columns};
ghost use Rattle.qrydsc.specs.Qrydsc.{told_description, description, whole_description};
ghost use Rattle.rules.specs.Row.{told_row};
ghost use Rattle.rules.specs.Conversions.{row_answer, row_text};
ghost use Rattle.by_value.specs.ByValue.{length_at, number_at};

use qrydsc::Description;
use refusal::Refusal;
use types::{Columns, MAX_COLUMNS, Row};
use words::value_words;

// The length of the column at a place of an answer's list; 0 after a refusal. Each function has a match of its own, since each hands out another number.
fn length_of(answer: &Result<Description, Refusal>, index: u64) -> u64
    ensures { result ≡ length_at (told_description answer.now).columns (index % max_columns) }
{
    match answer {
        Ok(d) => u64::from(d.columns.columns[index as usize % MAX_COLUMNS].length),
        Err(_) => 0,
    }
}

// The length of the column at a place of the list. The place is not known to the compiler: so every column is written.
pub fn by_value_parse_qrydsc(data: &[u8], index: u64) -> u64
    ensures { result ≡ length_at (description «data».now).columns (index % max_columns) }
{
    length_of(&qrydsc::parse_qrydsc(data), index)
}

// How many columns there are. It is the second caller, without which parse_qrydsc would be compiled into the first, and what that does not look
// at would be left out.
pub fn by_value_count_columns(data: &[u8]) -> u64
    ensures { result ≡ (description «data».now).columns.count }
{
    match qrydsc::parse_qrydsc(data) {
        Ok(d) => d.columns.count as u64,
        Err(_) => 0,
    }
}

// Whether the description breaks off, as 1 and 0.
pub fn by_value_broken_off(data: &[u8]) -> u64
    ensures { result ≡ cond (description «data».now).broken_off 1 0 }
{
    match qrydsc::parse_qrydsc(data) {
        Ok(d) => u64::from(d.broken_off),
        Err(_) => 0,
    }
}

// The same as the first, by the entry that takes whole descriptions alone.
pub fn by_value_parse_whole_qrydsc(data: &[u8], index: u64) -> u64
    ensures { result ≡ length_at (whole_description «data».now).columns (index % max_columns) }
{
    length_of(&qrydsc::parse_whole_qrydsc(data), index)
}

// Its refusal's number, or 0.
pub fn by_value_whole_number(data: &[u8]) -> u64
    ensures { result ≡ told_number (whole_description «data».now).outcome }
{
    u64::from(refusal::number(&qrydsc::parse_whole_qrydsc(data)))
}

// The columns of a description, none after a refusal.
fn columns_of(described: &[u8]) -> Columns
    ensures { result ≡ (description described.now).columns }
{
    match qrydsc::parse_qrydsc(described) {
        Ok(d) => d.columns,
        Err(_) => Columns::default(),
    }
}

// The number of the value at a place of a row's answer; 0 after a refusal, as of Null.
fn number_of(answer: &Result<Row, Refusal>, place: usize) -> u64
    requires { place < max_columns }
    ensures { result ≡ number_at (told_row answer.now) place }
{
    match answer {
        Ok(r) => value_words(r.places[place]).number,
        Err(_) => 0,
    }
}

// The number of the value at a place of a row's answer. The description is read once; the row is decoded once and then `rounds` times again, each time
// from the input: so what the columns cost is not counted in. decode_row has two callers here, and is not compiled into either. Each round leaves in
// `text` what the first one left.
pub fn by_value_decode_row(
    described: &[u8],
    row: &[u8],
    release: u32,
    text: &mut [u8],
    rounds: u64,
    index: u64,
) -> u64
    ensures number { result ≡ number_at (row_answer release (description described.now).columns row.now text.old) (index % max_columns) }
    ensures text { text.new ≡ row_text release (description described.now).columns row.now text.old }
{
    let columns = columns_of(described);
    let place = index as usize % MAX_COLUMNS;
    let once = row::decode_row(row, columns, release, text);
    let mut number = number_of(&once, place);
    for _ in 0..rounds {
        let again = row::decode_row(row, columns, release, text);
        number = number_of(&again, place);
    }
    number
}

// How many characters were replaced in a row's texts: the comparison with the Rust holds it to a second opinion.
pub fn by_value_replaced(described: &[u8], row: &[u8], release: u32, text: &mut [u8]) -> u64
    ensures number { result ≡ (row_answer release (description described.now).columns row.now text.old).replaced }
    ensures text { text.new ≡ row_text release (description described.now).columns row.now text.old }
{
    let columns = columns_of(described);
    match row::decode_row(row, columns, release, text) {
        Ok(r) => r.replaced as u64,
        Err(_) => 0,
    }
}
