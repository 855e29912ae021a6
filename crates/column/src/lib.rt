// Inner. What one SDA, or one LID of a D0 group, says: of a column, or of the environment entry that an SDA after an MDD declares; and the column
// that is made of it. A column's number is 0 until it is put into a list. It reads no triplets.
#![tactic(auto)]

ghost use Rattle.std.specs.Prelude.{◌≡◌, ◌≤◌, ◌<◌, [], ◌∷◌, length};
ghost use Rattle.types.specs.declared.ByteOrder.TheVariants.{BigEndian};
ghost use Rattle.numbers.specs.Number.{unsigned};
ghost use Rattle.column.specs.Column.{field16, reference_length, numbers_of, sda_numbers, sda_column};
ghost use Rattle.column.specs.Group.{entry_of, first_entry, undeclared_column, declared_column, lid_column};
ghost use Rattle.column.specs.Said.{said_column, sda_code, group_code, CcsidFor, NullableFor};

use types::{ByteOrder, ColumnDescriptor, Db2Type, Origin};

// How many LIDs there are.
pub const LID_COUNT: usize = 256;

// What an MDD and the SDA after it declare of a LID.
#[derive(Clone, Copy)]
pub struct EnvEntry {
    pub drda_type: u8,
    pub ccsid: u16,
}

impl EnvEntry {
    // Of two entries for one LID the first counts. A function of one call: wrong programs are refused in it and where it is called.
    #[tactic(auto, unfolding(crate::specs::Group::first_entry))]
    pub fn first(known: Option<EnvEntry>, later: Option<EnvEntry>) -> Option<EnvEntry>
        ensures { result ≡ first_entry known later }
    {
        known.or(later)
    }
}

#[derive(Clone, Copy)]
pub struct Numbers {
    pub precision: u8,
    pub scale: u8,
    pub ccsid: u16,
}

impl Numbers {
    // Of a type without precision and scale.
    fn of_ccsid(ccsid: u16) -> Numbers
        ensures { result ≡ numbers_of 0 0 ccsid }
    {
        Numbers {
            precision: 0,
            scale: 0,
            ccsid,
        }
    }
}

// What an SDA or a LID says of its column, in numbers. `listed` is the code under which the table of from_drda_type has the column's type: it is not always
// the column's own. It is a code and no kind of the table's, since from_drda_type, which README names, takes a code.
#[derive(Clone, Copy)]
pub struct Said {
    pub drda_type: u8,
    pub listed: u8,
    pub length: u16,
    pub numbers: Numbers,
    pub nullable: bool,
    pub byte_order: ByteOrder,
    pub origin: Origin,
}

// Codes of the table. A code without its nullable bit is `c - c % 2` where it is asked: a type for codes would be made of a byte at each place, for one remainder.
const REAL: u8 = 0x0A;

const DECIMAL: u8 = 0x0C;

const DOUBLE: u8 = 0x0E;

const GRAPHIC: u8 = 0x3C;

const VARGRAPHIC: u8 = 0x3E;

const BINARY: u8 = 0x60;

const VARBINARY: u8 = 0x62;

const CLOB: u8 = 0xCA;

// The big-endian number at a place, or 0 where its two bytes are not both there. No plainer by `get`: a pattern would take its slice of two apart, with an arm
// for none.
#[tactic(auto, using(crate::proofs::Bytes::big_endian), unfolding(crate::specs::Column::field16))]
fn field16_at(data: &[u8], at: usize) -> u16
    requires { at ≤ 8 }
    ensures { result ≡ field16 «data».now at }
{
    if at + 2 <= data.len() {
        u16::from_be_bytes([data[at], data[at + 1]])
    } else {
        0
    }
}

#[tactic(auto, unfolding(crate::specs::Column::reference_length))]
fn declared_lob_reference_length(drda_type: u8, length: u16) -> Option<u16>
    ensures { result ≡ reference_length drda_type length }
{
    match drda_type {
        0xC8..=0xCF if 0x8000 <= length => Some(length % 0x8000),
        _ => None,
    }
}

// The column of what is said. It alone looks the type up: the look-up is then compiled into the reader of descriptions.
impl From<Said> for ColumnDescriptor {
    ghost from_gives = { λ said column. column ≡ said_column said };

    fn from(said: Said) -> ColumnDescriptor {
        let Numbers {
            precision,
            scale,
            ccsid,
        } = said.numbers;
        let reference = declared_lob_reference_length(said.drda_type, said.length);
        let read = Db2Type::from_drda_type(said.listed, said.length, precision, scale);
        ColumnDescriptor {
            column_index: 0,
            drda_type: said.drda_type,
            length: said.length,
            precision,
            scale,
            nullable: said.nullable,
            origin: said.origin,
            ccsid,
            db2_type: read.db2_type,
            byte_order: said.byte_order,
            extdta_reference_length: reference,
        }
    }
}

// Precision, scale and CCSID of an SDA column.
#[tactic(auto, unfolding(crate::specs::Column::sda_numbers))]
fn sda_numbers(data: &[u8]) -> Numbers
    requires { 0 < length «data».now }
    ensures { result ≡ sda_numbers «data».now }
{
    let code = data[0];
    let base = code - code % 2;
    if base == DECIMAL {
        let ccsid = field16_at(data, 5);
        if 5 <= data.len() {
            return Numbers {
                precision: data[3],
                scale: data[4],
                ccsid,
            };
        }
        return Numbers::of_ccsid(ccsid);
    }
    Numbers::of_ccsid(field16_at(data, 3))
}

// The code under which the table has an SDA column's type: CCSID 0 turns CHAR and VARCHAR into BINARY and VARBINARY.
#[tactic(auto, unfolding(crate::specs::Said::sda_code))]
fn sda_code(code: u8, ccsid: u16) -> u8
    ensures { result ≡ sda_code code ccsid }
{
    if ccsid != 0 {
        return code;
    }
    match code - code % 2 {
        0x30 => BINARY,
        0x32 => VARBINARY,
        _ => code,
    }
}

// What an SDA with data says of its column.
#[tactic(auto, using(crate::proofs::Listed::sda_listed), unfolding(crate::specs::Column::sda_column))]
pub fn parse_sda_triplet(data: &[u8]) -> Said
    requires { 0 < length «data».now }
    ensures { said_column result ≡ sda_column «data».now }
{
    let code = data[0];
    let length = field16_at(data, 1);
    let numbers = sda_numbers(data);
    let listed = sda_code(code, numbers.ccsid);
    Said {
        drda_type: code,
        listed,
        length,
        numbers,
        nullable: code % 2 == 1,
        byte_order: ByteOrder::LittleEndian,
        origin: Origin::Sda,
    }
}

// The entry that an SDA declares after an MDD whose last byte is mdd_type.
#[tactic(auto, unfolding(crate::specs::Group::entry_of))]
pub fn parse_environmental_sda(data: &[u8], mdd_type: u8) -> EnvEntry
    ensures { result ≡ entry_of mdd_type «data».now }
{
    let ccsid = field16_at(data, 4);
    EnvEntry {
        drda_type: mdd_type,
        ccsid,
    }
}

// The code under which the table has the type of an undeclared LID other than 0E.
#[tactic(auto, unfolding(crate::specs::Said::group_code))]
fn compact_gda_code(lid: u8) -> u8
    ensures { result ≡ group_code lid }
{
    match lid - lid % 2 {
        0x0A => DOUBLE,
        0x0C => REAL,
        0x36 => GRAPHIC,
        0x38 | 0x3A => VARGRAPHIC,
        0xCE => CLOB,
        _ => lid,
    }
}

// The CCSID of an undeclared LID's column. The code tells it as the type would, and sooner.
#[tactic(auto, using(crate::proofs::Listed::ccsid_lobchar, crate::proofs::Listed::ccsid_plain, crate::proofs::Listed::ccsid_text))]
fn compact_gda_ccsid(lid: u8) -> u16
    ensures { CcsidFor lid result }
{
    // Not an arm: the arms are codes without the nullable bit.
    if lid == 0x51 {
        return 1208;
    }
    match lid - lid % 2 {
        0x02
        | 0x04
        | 0x0A
        | 0x0C
        | 0x0E
        | 0x16
        | 0x18
        | 0x1E
        | 0x36
        | 0x38
        | 0x3A
        | 0x3C
        | 0x3E
        | 0x50
        | 0x60
        | 0x62
        | 0xBA
        | 0xBE
        | 0xC8
        | 0xCC => 0,
        _ => 1208,
    }
}

// The two attribute bytes stay apart, here and below, as the definitions take them. The length of a packed decimal is a u16 here: decimal_need of cell, a usize,
// promises its bounds besides.
#[tactic(auto, using(crate::proofs::Bytes::big_endian, crate::proofs::Listed::group_listed, crate::proofs::Listed::decimal_listed), unfolding(crate::specs::Group::undeclared_column))]
fn undeclared_lid(lid: u8, first: u8, second: u8) -> Said
    ensures { said_column result ≡ undeclared_column lid first second }
{
    let (listed, length, numbers) = if lid - lid % 2 == 0x0E {
        let numbers = Numbers {
            precision: first,
            scale: second,
            ccsid: 0,
        };
        (DECIMAL, (u16::from(first) + 2) / 2, numbers)
    } else {
        let numbers = Numbers::of_ccsid(compact_gda_ccsid(lid));
        (
            compact_gda_code(lid),
            u16::from_be_bytes([first, second]),
            numbers,
        )
    };
    Said {
        drda_type: lid,
        listed,
        length,
        numbers,
        nullable: lid % 2 == 1,
        byte_order: ByteOrder::BigEndian,
        origin: Origin::UndeclaredLid,
    }
}

// Whether from_drda_type calls a code nullable.
#[tactic(auto, using(crate::proofs::Listed::nullable_listed), unfolding(types::specs::Types::from_drda_type))]
fn declared_nullable(code: u8) -> bool
    ensures { NullableFor code result }
{
    code != 0x51 && code % 2 == 1
}

#[tactic(auto, using(crate::proofs::Bytes::big_endian), unfolding(crate::specs::Group::declared_column))]
fn declared_lid(entry: EnvEntry, first: u8, second: u8) -> Said
    ensures { said_column result ≡ declared_column entry first second }
{
    let code = entry.drda_type;
    let length = u16::from_be_bytes([first, second]);
    let nullable = declared_nullable(code);
    let numbers = Numbers::of_ccsid(entry.ccsid);
    Said {
        drda_type: code,
        listed: code,
        length,
        numbers,
        nullable,
        byte_order: ByteOrder::BigEndian,
        origin: Origin::DeclaredLid,
    }
}

// What a LID of a D0 group and its two attribute bytes say of their column. The entry is the environment's for that LID.
#[tactic(auto, unfolding(crate::specs::Group::lid_column))]
pub fn parse_compact_gda_lid(entry: Option<EnvEntry>, lid: u8, first: u8, second: u8) -> Said
    ensures { said_column result ≡ lid_column entry lid first second }
{
    match entry {
        Some(declared) => declared_lid(declared, first, second),
        None => undeclared_lid(lid, first, second),
    }
}
