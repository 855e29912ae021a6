// Inner. The calls of `by_value` under their names for C, in a static library, for the benchmark and the comparison with the Rust.
#![tactic(auto)]

ghost use Rattle.std.specs.Prelude.{◌≡◌, cond, ◌%◌};
ghost use Rattle.refusal.specs.Refusal.{told_number};
ghost use Rattle.types.specs.Places.{max_columns};
ghost use Rattle.qrydsc.specs.Qrydsc.{description, whole_description};
ghost use Rattle.rules.specs.Conversions.{row_answer, row_text};
ghost use Rattle.by_value.specs.ByValue.{length_at, number_at};

// The length of the column at a place of the list. The place is not known to the compiler: so every column is written.
#[unsafe(no_mangle)]
pub extern "C" fn by_value_parse_qrydsc(data: &[u8], index: u64) -> u64
    ensures { result ≡ length_at (description «data».now).columns (index % max_columns) }
{
    by_value::by_value_parse_qrydsc(data, index)
}

// How many columns there are. It is the second caller, without which parse_qrydsc would be compiled into the first, and what that does not look
// at would be left out.
#[unsafe(no_mangle)]
pub extern "C" fn by_value_count_columns(data: &[u8]) -> u64
    ensures { result ≡ (description «data».now).columns.count }
{
    by_value::by_value_count_columns(data)
}

// Whether the description breaks off, as 1 and 0.
#[unsafe(no_mangle)]
pub extern "C" fn by_value_broken_off(data: &[u8]) -> u64
    ensures { result ≡ cond (description «data».now).broken_off 1 0 }
{
    by_value::by_value_broken_off(data)
}

// The same as the first, by the entry that takes whole descriptions alone.
#[unsafe(no_mangle)]
pub extern "C" fn by_value_parse_whole_qrydsc(data: &[u8], index: u64) -> u64
    ensures { result ≡ length_at (whole_description «data».now).columns (index % max_columns) }
{
    by_value::by_value_parse_whole_qrydsc(data, index)
}

// Its refusal's number, or 0.
#[unsafe(no_mangle)]
pub extern "C" fn by_value_whole_number(data: &[u8]) -> u64
    ensures { result ≡ told_number (whole_description «data».now).outcome }
{
    by_value::by_value_whole_number(data)
}

// The number of the value at a place of a row's answer. The description is read once; the row is decoded once and then `rounds` times again, each time
// from the input: so what the columns cost is not counted in. decode_row has two callers here, and is not compiled into either. Each round leaves in
// `text` what the first one left.
#[unsafe(no_mangle)]
pub extern "C" fn by_value_decode_row(
    described: &[u8],
    row: &[u8],
    release: u32,
    text: &mut [u8],
    rounds: u64,
    index: u64,
) -> u64
    ensures number { result ≡ number_at (row_answer release (description described.now).columns row.now text.old) (index % max_columns) }
    ensures text { text.new ≡ row_text release (description described.now).columns row.now text.old }
{
    by_value::by_value_decode_row(described, row, release, text, rounds, index)
}

// How many characters were replaced in a row's texts: the comparison with the Rust holds it to a second opinion.
#[unsafe(no_mangle)]
pub extern "C" fn by_value_replaced(
    described: &[u8],
    row: &[u8],
    release: u32,
    text: &mut [u8],
) -> u64
    ensures number { result ≡ (row_answer release (description described.now).columns row.now text.old).replaced }
    ensures text { text.new ≡ row_text release (description described.now).columns row.now text.old }
{
    by_value::by_value_replaced(described, row, release, text)
}
