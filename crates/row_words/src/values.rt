// A column's value by its two words: what the column decoder says of the type that they name. Of the common types it is asked by what the words
// say; of the others a column is made.
ghost use Rattle.std.specs.Prelude.{◌≡◌, false, ℕ, ◌/◌, ◌%◌, ◌≤◌, ◌<◌, ◌^◌, length};
ghost use Rattle.rules.specs.Extent.{need, extent_of};
ghost use Rattle.cell.specs.Cell.{NumberIs, OtherIs};
ghost use Rattle.words.specs.Reading.{column_named};
ghost use Rattle.row_words.specs.Passes.{type_numbers, NoNumber};

use crate::needs::{is_header, length_of, precision, type_numbers};
use crate::tags;
use cell::extents::{counted_need, decimal_need, timestamp_need};
use cell::{
    CellItem, NumberValue, OtherValue, TextSort, characters, decimal_item, decode_other_value,
    extents,
};
use numbers::{big_int, double, integer, real, small_int};
use words::ColumnWords;

// By `as`, here and below: From has none for a remainder that fits.
fn ccsid_of(words: ColumnWords) -> u16
    ensures { result ≡ words.second / 2 ^ 32 % 2 ^ 16 }
{
    (words.second / 0x1_0000_0000 % 0x1_0000) as u16
}

fn scale(words: ColumnWords) -> u8
    ensures { result ≡ type_numbers words.first / 2 ^ 8 }
{
    (words.first / 0x1_0000 % 0x100) as u8
}

// A value within the row.
fn within_row(item: CellItem, used: usize) -> OtherValue
    ensures { result ≡ record { item = item; used = used; external = false } }
{
    OtherValue {
        item,
        used,
        external: false,
    }
}

fn decode_made(rest: &[u8], words: ColumnWords) -> OtherValue
    requires there { need (extent_of (column_named words.first words.second)) rest.now ≤ length rest.now }
    requires other { NoNumber words.first }
    ensures { (release : ℕ) → OtherIs release result (column_named words.first words.second) rest.now }
{
    decode_other_value(rest, words.column())
}

fn decode_var_char(rest: &[u8], words: ColumnWords) -> OtherValue
    requires tag { words.first % 2 ^ 8 ≡ 8 }
    requires there { need (extent_of (column_named words.first words.second)) rest.now ≤ length rest.now }
    ensures { (release : ℕ) → OtherIs release result (column_named words.first words.second) rest.now }
{
    if is_header(words) {
        return decode_made(rest, words);
    }
    let n = counted_need(1, rest);
    within_row(characters(TextSort::VarChar, ccsid_of(words), 2, n), n)
}

// The column decoder by words, of numbers and of other values. The arms are those of needs::value_need.
#[tactic(auto, using(cell::proofs::NumberLaws::number_need, crate::proofs::Typed::small_int_is, crate::proofs::Typed::integer_is, crate::proofs::Typed::big_int_is, crate::proofs::Typed::real_is, crate::proofs::Typed::double_is))]
pub fn decode_number(rest: &[u8], words: ColumnWords) -> NumberValue
    requires tag { words.first % 2 ^ 8 < 5 }
    requires there { need (extent_of (column_named words.first words.second)) rest.now ≤ length rest.now }
    ensures value { (release second : ℕ) → NumberIs release result.value (column_named words.first second) rest.now }
    ensures used { (second : ℕ) → result.used ≡ need (extent_of (column_named words.first second)) rest.now }
{
    let order = words.byte_order();
    match words.first % 0x100 {
        tags::SMALL_INT => NumberValue {
            value: small_int(rest, order),
            used: extents::SMALL_INT,
        },
        tags::INTEGER => NumberValue {
            value: integer(rest, order),
            used: extents::INTEGER,
        },
        tags::BIG_INT => NumberValue {
            value: big_int(rest, order),
            used: extents::BIG_INT,
        },
        tags::REAL => NumberValue {
            value: real(rest, order),
            used: extents::REAL,
        },
        _ => NumberValue {
            value: double(rest, order),
            used: extents::DOUBLE,
        },
    }
}

// Char and the three times differ in the sort and the number of bytes: a function for the four would promise for each of them what characters does.
pub fn decode_other(rest: &[u8], words: ColumnWords) -> OtherValue
    requires there { need (extent_of (column_named words.first words.second)) rest.now ≤ length rest.now }
    requires other { NoNumber words.first }
    ensures { (release : ℕ) → OtherIs release result (column_named words.first words.second) rest.now }
{
    match words.first % 0x100 {
        tags::DECIMAL => {
            let n = decimal_need(precision(words));
            within_row(decimal_item(scale(words), n), n)
        }
        tags::CHAR => {
            let n = usize::from(type_numbers(words));
            within_row(characters(TextSort::Char, ccsid_of(words), 0, n), n)
        }
        tags::VAR_CHAR => decode_var_char(rest, words),
        tags::DATE => within_row(
            characters(TextSort::Date, ccsid_of(words), 0, extents::DATE),
            extents::DATE,
        ),
        tags::TIME => within_row(
            characters(TextSort::Time, ccsid_of(words), 0, extents::TIME),
            extents::TIME,
        ),
        tags::TIMESTAMP => {
            let n = timestamp_need(length_of(words));
            within_row(characters(TextSort::Timestamp, ccsid_of(words), 0, n), n)
        }
        _ => decode_made(rest, words),
    }
}
