// Face. The text conversions that can be called alone: characters and graphics by CCSID and host release, locators and row ids in hexadecimal, and the test
// for likely text. Each writes UTF-8 at the beginning of a lent buffer. It does not read rows or packed decimals.
#![tactic(auto)]

ghost use Rattle.std.specs.Prelude.{◌≡◌, true, List, ℕ, ◌+◌, ◌*◌, ◌≤◌, length};
ghost use Rattle.std.specs.Result.{OkIff, IfErr};
ghost use Rattle.refusal.specs.Refusal.{input_limit};
ghost use Rattle.refusal.specs.declared.Refusal.TheVariants.{InputTooLong};
ghost use Rattle.buffer.specs.Buffer.{Converted, unreplaced, told_text, text_answer, text_buffer};
ghost use Rattle.unicode_standard.specs.Likely.{likely_text};
ghost use Rattle.conversion.specs.Conversion.{characters_by, graphics_by, locator_text, row_id_text};
ghost use Rattle.conversion.specs.Picked.{text_in, converted_in};
ghost use Rattle.conversion.specs.Guess.{guess_text, Guessed};
ghost use Rattle.conversion.proofs.Guesses.{guessed_characters, guessed_graphics};
ghost use Rattle.text.specs.Text.{conversion_answer, conversion_buffer, release_answer, release_buffer};

use buffer::Written;
use conversion::{
    Conversion, character_conversion, graphic_conversion, guess_write, is_guessed, is_release,
    text_measure, text_write,
};
use refusal::{INPUT_LIMIT, Refusal};

// So many bytes hold the text of n bytes, by any conversion (conversion/PlainText: text_bound).
const fn most_text(n: usize) -> usize
    requires { n ≤ input_limit }
    ensures { result ≡ 3 * n + 14 }
{
    3 * n + 14
}

// The bytes that refusal 4 is for.
fn check_input(s: &[u8]) -> Result<(), Refusal>
    ensures few { OkIff result (length s.now ≤ input_limit) tt }
    ensures many { IfErr result (λ r. r ≡ InputTooLong) }
{
    if s.len() > INPUT_LIMIT {
        return Err(Refusal::InputTooLong);
    }
    Ok(())
}

// The text of s at the beginning of a buffer. A buffer that holds any text of so many bytes is written without measuring.
#[tactic(auto, using(buffer::proofs::Answer::no_room_answer, buffer::proofs::Answer::no_room_buffer, buffer::proofs::Answer::room_answer, buffer::proofs::Answer::room_buffer, conversion::proofs::PlainText::text_bound))]
fn convert(conversion: Conversion, s: &[u8], text: &mut [u8]) -> Result<Written, Refusal>
    requires { length s.now ≤ input_limit }
    ensures answer { told_text result ≡ text_answer (converted_in conversion s.now) text.old }
    ensures buffer { text.new ≡ text_buffer (text_in conversion s.now) text.old }
{
    if most_text(s.len()) <= text.len() {
        return Ok(text_write(conversion, s, text));
    }
    let m = text_measure(conversion, s);
    if text.len() < m.len {
        return Err(Refusal::TextBufferTooShort { needed: m.len });
    }
    Ok(text_write(m.conversion, s, text))
}

// The conversion is guessed, and any text of n bytes fits: it may be written before it is known.
fn is_roomy_guess(n: usize, ccsid: u16, release: u32, room: usize) -> bool
    requires { n ≤ input_limit }
    ensures { result ≡ true → (3 * n + 14 ≤ room) × Guessed release ccsid }
{
    most_text(n) <= room && is_guessed(ccsid, release)
}

// The text of s, whose conversion is guessed, at the beginning of such a buffer.
#[tactic(auto, using(buffer::proofs::Answer::room_answer, buffer::proofs::Answer::room_buffer, conversion::proofs::Guesses::guess_bound))]
fn convert_guess(s: &[u8], text: &mut [u8]) -> Result<Written, Refusal>
    requires { 3 * length s.now + 14 ≤ length text.old }
    ensures answer { told_text result ≡ text_answer (unreplaced (guess_text s.now)) text.old }
    ensures buffer { text.new ≡ text_buffer (guess_text s.now) text.old }
{
    Ok(Written::unreplaced(guess_write(s, text)))
}

// A sort of value whose bytes are a text by a CCSID: which text they are, and the conversion that makes it. CCSID and release are two numbers, here and in
// conversion: C's calls hand them in so, TRACE names the functions that take them, and a struct would be made for one call and taken apart in it.
trait ByCcsid {
    ghost text_by: { ℕ → ℕ → List ℕ → Converted };

    fn conversion(ccsid: u16, release: u32, s: &[u8]) -> Conversion
        ensures { converted_in result s.now ≡ text_by release ccsid s.now };

    // A guess is right.
    ghost guess_holds: { (release ccsid : ℕ) (s : List ℕ) → Guessed release ccsid → unreplaced (guess_text s) ≡ text_by release ccsid s };
}

struct Characters;

impl ByCcsid for Characters {
    ghost text_by = { characters_by };

    ghost guess_holds = { guessed_characters };

    #[tactic(auto, using(conversion::proofs::Picks::characters_by_lem))]
    fn conversion(ccsid: u16, release: u32, s: &[u8]) -> Conversion {
        character_conversion(ccsid, release, s)
    }
}

struct Graphics;

impl ByCcsid for Graphics {
    ghost text_by = { graphics_by };

    ghost guess_holds = { guessed_graphics };

    #[tactic(auto, using(conversion::proofs::Picks::graphics_by_lem))]
    fn conversion(ccsid: u16, release: u32, s: &[u8]) -> Conversion {
        graphic_conversion(ccsid, release, s)
    }
}

// Up to so many bytes a text is spared the tests that a longer one has.
const SHORT: usize = 1024;

// The text of a long value.
#[tactic(auto, using(crate::proofs::Alone::too_long_answer, crate::proofs::Alone::too_long_buffer, crate::proofs::Alone::short_answer, crate::proofs::Alone::short_buffer))]
fn decode_long<V: ByCcsid>(
    s: &[u8],
    ccsid: u16,
    release: u32,
    text: &mut [u8],
) -> Result<Written, Refusal>
    ensures answer { told_text result ≡ conversion_answer s.now (V.text_by release ccsid s.now) text.old }
    ensures buffer { text.new ≡ conversion_buffer s.now (V.text_by release ccsid s.now).text_bytes text.old }
{
    check_input(s)?;
    if is_roomy_guess(s.len(), ccsid, release, text.len()) {
        return convert_guess(s, text);
    }
    convert(V::conversion(ccsid, release, s), s, text)
}

#[tactic(auto, using(crate::proofs::Alone::unknown_answer, crate::proofs::Alone::unknown_buffer, crate::proofs::Alone::known_answer, crate::proofs::Alone::known_buffer, crate::proofs::Alone::short_answer, crate::proofs::Alone::short_buffer))]
fn decode<V: ByCcsid>(
    data: &[u8],
    ccsid: u16,
    release: u32,
    text: &mut [u8],
) -> Result<Written, Refusal>
    ensures answer { told_text result ≡ release_answer release «data».now (V.text_by release ccsid «data».now) text.old }
    ensures buffer { text.new ≡ release_buffer release «data».now (V.text_by release ccsid «data».now).text_bytes text.old }
{
    if !is_release(release) {
        return Err(Refusal::UnknownRelease);
    }
    if data.len() > SHORT {
        return decode_long::<V>(data, ccsid, release, text);
    }
    convert(V::conversion(ccsid, release, data), data, text)
}

// The text of a character value, by its CCSID and the host's release.
pub fn decode_character_bytes(
    data: &[u8],
    ccsid: u16,
    release: u32,
    text: &mut [u8],
) -> Result<Written, Refusal>
    ensures answer { told_text result ≡ release_answer release «data».now (characters_by release ccsid «data».now) text.old }
    ensures buffer { text.new ≡ release_buffer release «data».now (characters_by release ccsid «data».now).text_bytes text.old }
{
    decode::<Characters>(data, ccsid, release, text)
}

// The same for a graphic value.
pub fn decode_graphic_bytes(
    data: &[u8],
    ccsid: u16,
    release: u32,
    text: &mut [u8],
) -> Result<Written, Refusal>
    ensures answer { told_text result ≡ release_answer release «data».now (graphics_by release ccsid «data».now) text.old }
    ensures buffer { text.new ≡ release_buffer release «data».now (graphics_by release ccsid «data».now).text_bytes text.old }
{
    decode::<Graphics>(data, ccsid, release, text)
}

// The bytes in hexadecimal, as a locator or a row id is shown.
#[tactic(auto, using(crate::proofs::Alone::too_long_answer, crate::proofs::Alone::too_long_buffer, crate::proofs::Alone::short_answer, crate::proofs::Alone::short_buffer))]
fn format_hex(conversion: Conversion, bytes: &[u8], text: &mut [u8]) -> Result<Written, Refusal>
    ensures answer { told_text result ≡ conversion_answer bytes.now (converted_in conversion bytes.now) text.old }
    ensures buffer { text.new ≡ conversion_buffer bytes.now (text_in conversion bytes.now) text.old }
{
    check_input(bytes)?;
    convert(conversion, bytes, text)
}

// `LOB locator 0x` and the bytes in hexadecimal.
#[tactic(auto, using(conversion::proofs::Picks::locator_picked))]
pub fn format_lob_locator(bytes: &[u8], text: &mut [u8]) -> Result<Written, Refusal>
    ensures answer { told_text result ≡ conversion_answer bytes.now (unreplaced (locator_text bytes.now)) text.old }
    ensures buffer { text.new ≡ conversion_buffer bytes.now (locator_text bytes.now) text.old }
{
    format_hex(Conversion::Locator, bytes, text)
}

// `0x` and the bytes in hexadecimal.
#[tactic(auto, using(conversion::proofs::Picks::row_id_picked))]
pub fn format_rowid(bytes: &[u8], text: &mut [u8]) -> Result<Written, Refusal>
    ensures answer { told_text result ≡ conversion_answer bytes.now (unreplaced (row_id_text bytes.now)) text.old }
    ensures buffer { text.new ≡ conversion_buffer bytes.now (row_id_text bytes.now) text.old }
{
    format_hex(Conversion::RowId, bytes, text)
}

// Whether bytes, of any number, are likely text.
pub fn bytes_are_likely_text(bytes: &[u8]) -> bool
    ensures { result ≡ likely_text bytes.now }
{
    utf::likely::bytes_are_likely_text(bytes)
}
