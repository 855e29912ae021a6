// How many bytes a column takes of the rest of the row, by its two words. Of the common types the words say all that the column decoder's functions
// ask for: no column is made of them, which would go through memory.
ghost use Rattle.std.specs.Prelude.{◌≡◌, ◌/◌, ◌%◌, ◌<◌, ◌≤◌, ◌^◌};
ghost use Rattle.types.specs.Names.{bit8000};
ghost use Rattle.rules.specs.Extent.{need, extent_of};
ghost use Rattle.rules.specs.Walk.{column_need};
ghost use Rattle.cell.specs.Inner.{most_need};
ghost use Rattle.words.specs.Reading.{column_named};
ghost use Rattle.row_words.specs.Passes.{is_nullable, type_numbers, NoNumber};

use crate::tags;
use cell::extents;
use cell::extents::{counted_need, decimal_need, other_need, timestamp_need};
use piece::{is_null, lead};
use words::ColumnWords;

// Functions here and no methods of ColumnWords in words: most promise is_nullable or type_numbers, definitions of this crate.
pub fn is_nullable(words: ColumnWords) -> bool
    ensures { result ≡ is_nullable words.first }
{
    words.first / 0x1_0000_0000_0000 % 2 == 1
}

// The numbers that the type holds, as one; of a Decimal the precision and the scale. By `as` here and below: From has none for a remainder that fits.
pub fn type_numbers(words: ColumnWords) -> u16
    ensures { result ≡ type_numbers words.first }
{
    (words.first / 0x100 % 0x1_0000) as u16
}

pub fn precision(words: ColumnWords) -> u8
    ensures { result ≡ type_numbers words.first % 2 ^ 8 }
{
    (words.first / 0x100 % 0x100) as u8
}

// The column's own length.
pub fn length_of(words: ColumnWords) -> u16
    ensures { result ≡ words.second % 2 ^ 16 }
{
    (words.second % 0x1_0000) as u16
}

// Whether a VarChar is the header of a LOB outside the row.
pub fn is_header(words: ColumnWords) -> bool
    ensures { result ≡ bit8000 (type_numbers words.first) }
{
    0x8000 <= type_numbers(words)
}

fn other_named(rest: &[u8], words: ColumnWords) -> usize
    requires { NoNumber words.first }
    ensures { (result ≡ need (extent_of (column_named words.first words.second)) rest.now) × (result ≤ most_need) }
{
    other_need(rest, words.column())
}

fn var_char_need(rest: &[u8], words: ColumnWords) -> usize
    requires { words.first % 2 ^ 8 ≡ 8 }
    ensures { (result ≡ need (extent_of (column_named words.first words.second)) rest.now) × (result ≤ most_need) }
{
    if is_header(words) {
        return other_named(rest, words);
    }
    counted_need(1, rest)
}

// How many bytes a value takes that is there.
#[tactic(auto, using(cell::proofs::NumberLaws::number_need, crate::proofs::Typed::small_int_is, crate::proofs::Typed::integer_is, crate::proofs::Typed::big_int_is, crate::proofs::Typed::real_is, crate::proofs::Typed::double_is, crate::proofs::Typed::date_is, crate::proofs::Typed::time_is))]
fn value_need(rest: &[u8], words: ColumnWords) -> usize
    ensures { (result ≡ need (extent_of (column_named words.first words.second)) rest.now) × (result ≤ most_need) }
{
    match words.first % 0x100 {
        tags::SMALL_INT => extents::SMALL_INT,
        tags::INTEGER => extents::INTEGER,
        tags::BIG_INT => extents::BIG_INT,
        tags::REAL => extents::REAL,
        tags::DOUBLE => extents::DOUBLE,
        tags::DECIMAL => decimal_need(precision(words)),
        tags::CHAR => usize::from(type_numbers(words)),
        tags::VAR_CHAR => var_char_need(rest, words),
        tags::DATE => extents::DATE,
        tags::TIME => extents::TIME,
        tags::TIMESTAMP => timestamp_need(length_of(words)),
        _ => other_named(rest, words),
    }
}

// How many bytes the column takes, its indicator included.
pub fn need_named(rest: &[u8], words: ColumnWords) -> usize
    ensures { result ≡ column_need (column_named words.first words.second) rest.now }
{
    let nullable = is_nullable(words);
    if is_null(rest, nullable) {
        return 1;
    }
    let from = lead(nullable);
    from + value_need(&rest[from..], words)
}
