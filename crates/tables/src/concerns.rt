// Which columns a warning concerns: by what the description says of a column, or by its part of a row. docs/DIFFERENCES.md has what stands behind each.
use crate::column_concerns::{
    is_bit_data, is_byte_counted, is_length_odd, is_other_lob, is_other_number, is_page_500,
    is_taken_for_var_char, is_unmeasured, is_unnamed,
};
use crate::parts::Part;
use std::fmt;

// An enum, and no predicate with its text: one list of names is read beside docs/DIFFERENCES.md, and a predicate that is handed on would have to promise that
// it takes any column.
#[derive(Clone, Copy)]
pub enum Concern {
    // By the description. A CCSID that no conversion is known for, at release 2 and at 3.
    WillBeGuessed,
    WillBe037,
    // CCSID 500.
    As037,
    // The text of a LOB within the row, of a CCSID other than UTF-8's.
    LobText,
    // A type code of bit data, which is read as a text.
    BitData,
    // Another type code that is read as a VarChar, and is none.
    TakenForVarChar,
    // A type code that is read as another number's.
    OtherNumber,
    // A graphic type whose lengths are taken as bytes.
    ByteCounted,
    // A number's length that is not its type's.
    Length,
    // A type code of a LOB that is read without bytes of length.
    Unmeasured,
    DecFloat,
    // By the row. A text of a CCSID that no conversion is known for: at release 2 one of ASCII alone, one that is not, and one of bytes 40 alone, which a
    // host of release 3 means as blanks; at release 3 any.
    ReadAsAscii,
    ReadAs037,
    GuessedAt,
    Unnamed,
    // A text of bytes 40 alone, in UTF-8 or ISO 8859-1.
    AllAt,
    // A value of more bytes than its column says.
    Longer,
    // An indicator between 00 and FF.
    Indicator,
    // A packed decimal that the architecture does not read, or reads otherwise.
    Packed,
}

impl Concern {
    // Whether it is one of this column and its part of the row, which is empty where there is no row.
    pub fn is_of(self, part: &Part<'_>) -> bool {
        let column = part.column;
        match self {
            Concern::WillBeGuessed | Concern::WillBe037 => is_unnamed(column),
            Concern::As037 => is_page_500(column),
            Concern::LobText => is_other_lob(column),
            Concern::BitData => is_bit_data(column.drda_type),
            Concern::TakenForVarChar => is_taken_for_var_char(column),
            Concern::OtherNumber => is_other_number(column),
            Concern::ByteCounted => is_byte_counted(column),
            Concern::Length => is_length_odd(column),
            Concern::Unmeasured => is_unmeasured(column),
            Concern::DecFloat => column.is_dec_float(),
            Concern::ReadAsAscii => part.is_guessed_as(false),
            Concern::ReadAs037 => part.is_guessed_as(true),
            Concern::GuessedAt => part.is_guessed_at(),
            Concern::Unnamed => part.is_unnamed_text(),
            Concern::AllAt => part.is_all_at(),
            Concern::Longer => part.is_longer(),
            Concern::Indicator => part.is_odd_indicator(),
            Concern::Packed => part.is_odd_decimal(),
        }
    }
}

impl fmt::Display for Concern {
    fn fmt<W: fmt::Write>(&self, f: &mut fmt::Formatter<W>) -> fmt::Result {
        f.write_str(match self {
            Concern::WillBeGuessed => {
                "no CCSID is declared, or none that is known, so that texts will be guessed at"
            }
            Concern::WillBe037 => {
                "no CCSID is declared, or none that is known, so that texts will be read as code page 037, at release 3"
            }
            Concern::As037 => {
                "CCSID 500 is read as code page 037, which has other characters at 4A 4F 5A 5F B0 BA BB"
            }
            Concern::LobText => "the text of a LOB is read as UTF-8, whatever its CCSID",
            Concern::BitData => "bit data are read as a text",
            Concern::TakenForVarChar => {
                "the type code is not VARCHAR's, and is read as VarChar, with two bytes of length"
            }
            Concern::OtherNumber => {
                "0A, 0C and 0E are read as Real, Decimal and Double where DRDA has FLOAT8, FLOAT4 and DECIMAL"
            }
            Concern::ByteCounted => {
                "the lengths of GRAPHIC and VARGRAPHIC are taken as bytes, where DRDA counts characters"
            }
            Concern::Length => "the description says another length than the type has",
            Concern::Unmeasured => {
                "50 and 51 are read as LobBytes and LobChar, without two bytes of length"
            }
            Concern::DecFloat => "rows with a DecFloat column are refused, by 5",
            Concern::ReadAsAscii => {
                "no CCSID is declared, or none that is known, and the text is taken for ASCII"
            }
            Concern::ReadAs037 => {
                "no CCSID is declared, or none that is known, and the text is taken for code page 037, since it is no ASCII"
            }
            Concern::GuessedAt => {
                "the text is nothing but @, which is a blank in EBCDIC; with -r 3 it is read so"
            }
            Concern::Unnamed => {
                "no CCSID is declared, or none that is known, and the text is read as code page 037, at release 3"
            }
            Concern::AllAt => "the text is nothing but @, which is a blank in EBCDIC",
            Concern::Longer => "the value is longer than the description says",
            Concern::Indicator => {
                "the indicator is neither 00 nor FF, and a value is read behind it"
            }
            Concern::Packed => {
                "the packed decimal has a digit above 9, or a sign other than A, C, D, E and F"
            }
        })
    }
}
