// Face. The types of columns and values: what a column list and the answer of the row call are made of; which type a DRDA type code stands for, and the
// questions that a type or a column answers by itself. It reads no description and no row.
#![tactic(auto)]

ghost use Rattle.std.specs.Prelude.{◌≡◌, []};
ghost use Rattle.types.specs.Types.{from_drda_type};
ghost use Rattle.types.specs.FixedLength.{fixed_length};
ghost use Rattle.types.specs.Names.{graphic_length_is_character_count, graphic_unit, is_dec_float};
ghost use Rattle.types.specs.Kinds.{kind_in, of_kind};
ghost use Rattle.types.specs.Places.{column_list, covered};

// How many columns a list has places for. specs/Places.antt calls it max_columns.
pub const MAX_COLUMNS: usize = 128;

// The type of a column, with the numbers that it holds (the Rust: types.rs). What is the default here and below is that of an
// unused place: specs/Places.antt, blank_column and blank_value.
#[derive(Clone, Copy, Default, PartialEq, Eq)]
pub enum Db2Type {
    SmallInt,
    Integer,
    BigInt,
    Real,
    Double,
    Decimal { precision: u8, scale: u8 },
    DecFloat(u8),
    Char(u16),
    VarChar(u16),
    LongVarChar,
    Clob,
    Binary(u16),
    VarBinary(u16),
    Blob,
    BlobLocator,
    Date,
    Time,
    Timestamp,
    Graphic(u16),
    VarGraphic(u16),
    DbClob,
    ClobLocator,
    DbClobLocator,
    LobBytes(u16),
    LobChar(u16),
    RowId(u16),
    Boolean,
    Xml,
    #[default]
    Null,
}

// What a DRDA type code stands for.
#[derive(Clone, Copy)]
pub struct DrdaType {
    pub db2_type: Db2Type,
    pub nullable: bool,
}

// The order of the bytes of a number in the row.
#[derive(Clone, Copy, Default, PartialEq, Eq)]
pub enum ByteOrder {
    #[default]
    BigEndian,
    LittleEndian,
}

// Where a description has a column from: an SDA, or a LID of a D0 group, which an environment entry declares or none does. The Rust does not keep it, and
// nothing is decoded by it.
#[derive(Clone, Copy, Default, PartialEq, Eq)]
pub enum Origin {
    #[default]
    Sda,
    UndeclaredLid,
    DeclaredLid,
}

// The origin stands in a byte that would else be padding, so that the struct does not grow by it. The byte order stands before the reference length. Behind
// it, its load waited for bytes that were just stored in another width (seen in a profile of Integer columns).
#[derive(Clone, Copy, Default, PartialEq, Eq)]
pub struct ColumnDescriptor {
    pub column_index: u8,
    pub drda_type: u8,
    pub length: u16,
    pub precision: u8,
    pub scale: u8,
    pub nullable: bool,
    pub origin: Origin,
    pub ccsid: u16,
    pub db2_type: Db2Type,
    pub byte_order: ByteOrder,
    // The width of a reference to a LOB outside the row that the description declares. A width of 0 is declared.
    pub extdta_reference_length: Option<u16>,
}

// The columns in order, and how many they are. The places after them are unused. An array and a count, since the library has no heap; callers make lists of
// their own by both fields, and the row call refuses a count above 128 (3).
#[derive(Clone, Copy)]
pub struct Columns {
    pub columns: [ColumnDescriptor; MAX_COLUMNS],
    pub count: usize,
}

// No column. By hand, since an array has no Default of its own.
impl Default for Columns {
    ghost is_default = { λ list. list ≡ column_list [] };

    #[tactic(auto, unfolding(crate::specs::Places::column_list, crate::specs::Places::filled, crate::specs::Places::blank_column))]
    fn default() -> Columns {
        Columns {
            columns: [ColumnDescriptor::default(); MAX_COLUMNS],
            count: 0,
        }
    }
}

impl Columns {
    // As many of the columns as the count says, and all where it says more.
    pub fn list(&self) -> &[ColumnDescriptor]
        ensures { result.now ≡ covered self.now }
    {
        &self.columns[..self.count.min(MAX_COLUMNS)]
    }
}

// Where bytes lie, in the row or in the text buffer.
#[derive(Clone, Copy, PartialEq, Eq)]
pub struct Place {
    pub start: usize,
    pub len: usize,
}

// A value. A text is a place in the text buffer; a Binary or a Blob is a place in the row. Real and Double hold every float that is no NaN,
// RealNan and DoubleNan the bits of one that is.
#[derive(Clone, Copy, Default, PartialEq)]
pub enum Db2Value {
    #[default]
    Null,
    SmallInt(i16),
    Integer(i32),
    BigInt(i64),
    Real(f32),
    RealNan(u32),
    Double(f64),
    DoubleNan(u64),
    Decimal(Place),
    Char(Place),
    VarChar(Place),
    Binary(Place),
    Blob(Place),
    Clob(Place),
    RowId(Place),
    Date(Place),
    Time(Place),
    Timestamp(Place),
    Boolean(bool),
    Xml(Place),
}

// A column's value, and whether the value refers to data outside the row.
#[derive(Clone, Copy, Default, PartialEq)]
pub struct ValuePlace {
    pub value: Db2Value,
    pub external: bool,
}

// What the row call answers, where it refuses nothing: a value place for each column, how many bytes of the input were used, and how many U+FFFD its texts'
// conversions put in. The places are as many as the columns of the list, and no slice, since the library has no heap.
#[derive(Clone, Copy)]
pub struct Row {
    pub places: [ValuePlace; MAX_COLUMNS],
    pub used: usize,
    pub replaced: usize,
}

// What the table of base codes holds beside a code: a type, or which type is made of the column's numbers.
#[derive(Clone, Copy)]
enum Kind {
    Plain(Db2Type),
    Decimal,
    DecFloat,
    RowId,
    Char,
    VarChar,
    Graphic,
    VarGraphic,
    Binary,
    VarBinary,
}

#[derive(Clone, Copy)]
struct BaseCode {
    pub code: u8,
    pub kind: Kind,
}

const BASE_CODE_COUNT: usize = 26;

// The base codes, in the Rust's order. A constant array is built anew wherever it is named: from_drda_type names it once, and hands it to the
// search, which is then compiled to a jump by the code.
const BASE_CODES: [BaseCode; BASE_CODE_COUNT] = [
    BaseCode {
        code: 0x02,
        kind: Kind::Plain(Db2Type::Integer),
    },
    BaseCode {
        code: 0x04,
        kind: Kind::Plain(Db2Type::SmallInt),
    },
    BaseCode {
        code: 0x0A,
        kind: Kind::Plain(Db2Type::Real),
    },
    BaseCode {
        code: 0x0C,
        kind: Kind::Decimal,
    },
    BaseCode {
        code: 0x0E,
        kind: Kind::Plain(Db2Type::Double),
    },
    BaseCode {
        code: 0x16,
        kind: Kind::Plain(Db2Type::BigInt),
    },
    BaseCode {
        code: 0x18,
        kind: Kind::Plain(Db2Type::BlobLocator),
    },
    BaseCode {
        code: 0x1A,
        kind: Kind::Plain(Db2Type::ClobLocator),
    },
    BaseCode {
        code: 0x1C,
        kind: Kind::Plain(Db2Type::DbClobLocator),
    },
    BaseCode {
        code: 0x1E,
        kind: Kind::RowId,
    },
    BaseCode {
        code: 0xBA,
        kind: Kind::DecFloat,
    },
    BaseCode {
        code: 0x20,
        kind: Kind::Plain(Db2Type::Date),
    },
    BaseCode {
        code: 0x22,
        kind: Kind::Plain(Db2Type::Time),
    },
    BaseCode {
        code: 0x24,
        kind: Kind::Plain(Db2Type::Timestamp),
    },
    BaseCode {
        code: 0x30,
        kind: Kind::Char,
    },
    BaseCode {
        code: 0x32,
        kind: Kind::VarChar,
    },
    BaseCode {
        code: 0x34,
        kind: Kind::Plain(Db2Type::LongVarChar),
    },
    BaseCode {
        code: 0x3C,
        kind: Kind::Graphic,
    },
    BaseCode {
        code: 0x3E,
        kind: Kind::VarGraphic,
    },
    BaseCode {
        code: 0x60,
        kind: Kind::Binary,
    },
    BaseCode {
        code: 0x62,
        kind: Kind::VarBinary,
    },
    BaseCode {
        code: 0xBE,
        kind: Kind::Plain(Db2Type::Boolean),
    },
    BaseCode {
        code: 0xC8,
        kind: Kind::Plain(Db2Type::Blob),
    },
    BaseCode {
        code: 0xCA,
        kind: Kind::Plain(Db2Type::Clob),
    },
    BaseCode {
        code: 0xCC,
        kind: Kind::Plain(Db2Type::DbClob),
    },
    BaseCode {
        code: 0xDC,
        kind: Kind::Plain(Db2Type::Xml),
    },
];

// The kind that a table has for a base code, or VarChar where it has none.
fn kind_in(table: [BaseCode; BASE_CODE_COUNT], base: u8) -> Kind
    ensures { result ≡ kind_in table base }
{
    // By index: with `for entry in &table` the table was made in memory for each column, 85 instructions a code and not 26.
    for i in 0..BASE_CODE_COUNT {
        let entry = table[i];
        if entry.code == base {
            return entry.kind;
        }
    }
    Kind::VarChar
}

// The type of a kind, with the column's numbers. A DECFLOAT of more than 8 bytes has 34 digits, else 16.
fn of_kind(kind: Kind, length: u16, precision: u8, scale: u8) -> Db2Type
    ensures { result ≡ of_kind kind length precision scale }
{
    match kind {
        Kind::Plain(t) => t,
        Kind::Decimal => Db2Type::Decimal { precision, scale },
        Kind::DecFloat => {
            if 8 < length {
                Db2Type::DecFloat(34)
            } else {
                Db2Type::DecFloat(16)
            }
        }
        Kind::RowId => Db2Type::RowId(length),
        Kind::Char => Db2Type::Char(length),
        Kind::VarChar => Db2Type::VarChar(length),
        Kind::Graphic => Db2Type::Graphic(length),
        Kind::VarGraphic => Db2Type::VarGraphic(length),
        Kind::Binary => Db2Type::Binary(length),
        Kind::VarBinary => Db2Type::VarBinary(length),
    }
}

impl Db2Type {
    // The type that a DRDA type code stands for, in a column of this length, precision and scale. Its bit 01 says nullable, save in 50 and 51.
    pub fn from_drda_type(type_code: u8, length: u16, precision: u8, scale: u8) -> DrdaType
        ensures { result ≡ from_drda_type type_code length precision scale }
    {
        match type_code {
            0x50 => DrdaType {
                db2_type: Db2Type::LobBytes(length),
                nullable: false,
            },
            0x51 => DrdaType {
                db2_type: Db2Type::LobChar(length),
                nullable: false,
            },
            _ => {
                let low = type_code % 2;
                let kind = kind_in(BASE_CODES, type_code - low);
                DrdaType {
                    db2_type: of_kind(kind, length, precision, scale),
                    nullable: low == 1,
                }
            }
        }
    }

    // The byte count of the type's values, where the type alone tells it. The row call goes by the column and not by this.
    pub fn fixed_length(self) -> Option<usize>
        ensures { result ≡ fixed_length self }
    {
        match self {
            Db2Type::Boolean => Some(1),
            Db2Type::SmallInt => Some(2),
            Db2Type::Integer
            | Db2Type::Real
            | Db2Type::BlobLocator
            | Db2Type::ClobLocator
            | Db2Type::DbClobLocator => Some(4),
            Db2Type::BigInt | Db2Type::Double | Db2Type::Time => Some(8),
            Db2Type::Date => Some(10),
            Db2Type::Timestamp => Some(26),
            Db2Type::DecFloat(digits) => { if digits == 34 { Some(16) } else { Some(8) } }
            Db2Type::Decimal { precision, .. } => Some((usize::from(precision) + 2) / 2),
            Db2Type::Char(n) | Db2Type::Binary(n) | Db2Type::RowId(n) => Some(usize::from(n)),
            Db2Type::Graphic(n) => Some(usize::from(n) * 2),
            Db2Type::LobBytes(n) | Db2Type::LobChar(n) => Some(usize::from(n) % 0x8000),
            _ => None,
        }
    }
}

impl ColumnDescriptor {
    // Whether a length of a graphic column counts characters of two bytes; else it counts bytes.
    pub fn graphic_length_is_character_count(self) -> bool
        ensures { result ≡ graphic_length_is_character_count self }
    {
        self.byte_order == ByteOrder::LittleEndian && self.ccsid == 1200
    }

    // The bytes of a unit that a length of a graphic column counts: of a character, or one.
    pub fn graphic_unit(self) -> usize
        ensures { result ≡ graphic_unit self }
    {
        if self.graphic_length_is_character_count() {
            return 2;
        }
        1
    }

    // Whether the column is of type DecFloat, which the row call refuses.
    pub fn is_dec_float(self) -> bool
        ensures { result ≡ is_dec_float self }
    {
        matches!(self.db2_type, Db2Type::DecFloat(_))
    }
}
