// Face. Packed decimals, one at a time: as text, into a lent buffer, as the Rust has it; and as a whole number with its scale beside it, as z/Architecture has
// it. The two readings share the limit of refusal 7 and no other code. Reading a Decimal column of a row is not its work.
#![tactic(auto)]

ghost use Rattle.std.specs.Prelude.{◌≡◌, Some};
ghost use Rattle.buffer.specs.Buffer.{told_text};
ghost use Rattle.decimal.specs.Decimal.{decimal_answer, decimal_buffer};
ghost use Rattle.decimal.specs.Length.{length_checked};
ghost use Rattle.zdecimal.specs.Inner.{told_sign};
ghost use Rattle.decimal.specs.Whole.{told_whole, signed_answer, whole_answer};

use buffer::Written;
use refusal::Refusal;
use zdecimal::Sign;

// The most bytes that a packed decimal may have.
const MOST_BYTES: usize = 128;

// What the reading as a whole number answers, where it refuses nothing: the number that the digits and the sign make, without a point, and the scale that was
// handed in, which says how many of the digits stand behind it.
#[derive(Clone, Copy)]
pub struct WholeNumber {
    pub number: i64,
    pub scale: u8,
}

// The lengths that either reading refuses.
fn check_length(data: &[u8]) -> Result<(), Refusal>
    ensures { result ≡ length_checked «data».now }
{
    if data.is_empty() {
        return Err(Refusal::DecimalEmpty);
    }
    if data.len() > MOST_BYTES {
        return Err(Refusal::DecimalTooLong);
    }
    Ok(())
}

// Writes the text of the packed decimal `data` to the beginning of `text`. The precision has no part in it: the Rust takes it and does not
// use it.
#[tactic(auto, using(crate::proofs::Length::text_refused, crate::proofs::Length::buffer_refused, crate::proofs::Length::text_decided, crate::proofs::Length::buffer_decided, buffer::proofs::Answer::no_room_answer, buffer::proofs::Answer::no_room_buffer, buffer::proofs::Answer::room_answer, buffer::proofs::Answer::room_buffer, crate::proofs::Length::accepted_length))]
pub fn decode_packed_decimal(
    data: &[u8],
    precision: u8,
    scale: u8,
    text: &mut [u8],
) -> Result<Written, Refusal>
    ensures answer { told_text result ≡ decimal_answer scale «data».now text.old }
    ensures buffer { text.new ≡ decimal_buffer scale «data».now text.old }
{
    check_length(data)?;
    let needed = packed::decimal_len(data, scale);
    if text.len() < needed {
        return Err(Refusal::TextBufferTooShort { needed });
    }
    Ok(Written::unreplaced(packed::decimal_write(data, scale, text)))
}

// The number that a sign and what the digits make are, where the range has it.
fn whole_number(sign: Sign, n: u64, scale: u8) -> Result<WholeNumber, Refusal>
    ensures { told_whole result ≡ signed_answer scale n (told_sign (Some sign)) }
{
    let number = match sign {
        Sign::Plus => i64::try_from(n).ok(),
        Sign::Minus => 0_i64.checked_sub_unsigned(n),
    };
    let number = number.ok_or(Refusal::DecimalOutOfRange)?;
    Ok(WholeNumber { number, scale })
}

// The packed decimal `data` as a whole number, by z/Architecture: base ten, plus for the signs A, C, E and F, minus for B and D. The scale is handed back, and
// decides nothing.
#[tactic(auto, using(crate::proofs::Length::whole_refused))]
pub fn decode_packed_whole(data: &[u8], scale: u8) -> Result<WholeNumber, Refusal>
    ensures { told_whole result ≡ whole_answer scale «data».now }
{
    check_length(data)?;
    if !zdecimal::digits_valid(data) {
        return Err(Refusal::DecimalDigit);
    }
    let sign = zdecimal::sign_of(data).ok_or(Refusal::DecimalSign)?;
    whole_number(sign, zdecimal::magnitude(data), scale)
}
