// What the description says of a column that a warning goes by.
use types::{ColumnDescriptor, Db2Type, Origin};

// How texts are read that go by the CCSID.
#[derive(Clone, Copy, PartialEq, Eq)]
pub enum Texts {
    Characters,
    Graphics,
}

// Bit 8000 of a varying length: the value is a header, and no text by the CCSID. One comparison, here and in `cell`, beside what each decides by it.
fn is_header(n: u16) -> bool {
    0x8000 <= n
}

// How the texts of a column are read, where they go by the CCSID.
pub fn texts_of(t: Db2Type) -> Option<Texts> {
    match t {
        Db2Type::VarChar(n) | Db2Type::VarGraphic(n) if is_header(n) => None,
        Db2Type::Char(_)
        | Db2Type::VarChar(_)
        | Db2Type::LongVarChar
        | Db2Type::Date
        | Db2Type::Time
        | Db2Type::Timestamp
        | Db2Type::LobBytes(_)
        | Db2Type::LobChar(_) => Some(Texts::Characters),
        Db2Type::Graphic(_) | Db2Type::VarGraphic(_) => Some(Texts::Graphics),
        _ => None,
    }
}

// The CCSIDs that the library has a conversion for: warnings tell of what it does now, and a change of it is to be looked at here too.
// They are written out: `conversion::named` is private, in a crate that `tables` does not rest on.
pub fn is_utf16(ccsid: u16) -> bool {
    matches!(ccsid, 1200 | 13488)
}

pub fn is_named(ccsid: u16) -> bool {
    matches!(ccsid, 37 | 500 | 819 | 1208)
}

// Whether no conversion is known for the CCSID of the column's texts.
pub fn is_unnamed(column: ColumnDescriptor) -> bool {
    match texts_of(column.db2_type) {
        Some(Texts::Characters) => !is_named(column.ccsid),
        Some(Texts::Graphics) => !is_utf16(column.ccsid) && !is_named(column.ccsid),
        None => false,
    }
}

pub fn is_page_500(column: ColumnDescriptor) -> bool {
    column.ccsid == 500 && texts_of(column.db2_type).is_some()
}

// 0 says nothing of a code page. A DbClob's characters have two bytes each.
pub fn is_other_lob(column: ColumnDescriptor) -> bool {
    match column.db2_type {
        Db2Type::Clob | Db2Type::Xml => !matches!(column.ccsid, 0 | 1208),
        Db2Type::DbClob => column.ccsid != 1208,
        _ => false,
    }
}

pub fn is_bit_data(code: u8) -> bool {
    matches!(code, 0x26..=0x2B)
}

// Codes that are not known become a VarChar, with two bytes of length.
pub fn is_taken_for_var_char(column: ColumnDescriptor) -> bool {
    let code = column.drda_type;
    matches!(column.db2_type, Db2Type::VarChar(_))
        && !matches!(code, 0x32 | 0x33)
        && !is_bit_data(code)
}

// Of a LID that is not declared the three codes are DRDA's own.
pub fn is_other_number(column: ColumnDescriptor) -> bool {
    column.origin != Origin::UndeclaredLid && matches!(column.drda_type, 0x0A..=0x0F)
}

// DRDA's lengths of graphics count characters of two bytes.
pub fn is_byte_counted(column: ColumnDescriptor) -> bool {
    matches!(column.drda_type, 0x36..=0x3B)
        && texts_of(column.db2_type) == Some(Texts::Graphics)
        && !column.graphic_length_is_character_count()
}

// Of a number. A length of 0 may be one that is not stated.
pub fn is_length_odd(column: ColumnDescriptor) -> bool {
    match column.db2_type {
        Db2Type::SmallInt | Db2Type::Integer | Db2Type::BigInt | Db2Type::Real | Db2Type::Double =>
            {
                let length = usize::from(column.length);
                length != 0 && column.db2_type.fixed_length().is_some_and(|n| n != length)
            }
        _ => false,
    }
}

// Of 50 and 51 as many bytes are read as the description says.
pub fn is_unmeasured(column: ColumnDescriptor) -> bool {
    matches!(column.db2_type, Db2Type::LobBytes(_) | Db2Type::LobChar(_))
}
