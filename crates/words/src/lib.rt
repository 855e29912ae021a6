// Inner. Types, columns and values as plain words of 64 bits, for the calls of C and Rust: specs/Words.antt and specs/Values.antt have the
// layout, specs/Reading.antt and specs/ValueReading.antt what words say. It reads no description and no row. A part of a word is taken by `as` behind a
// remainder that fits; From has none for that, nor between usize and u64.
#![tactic(auto)]

ghost use Rattle.std.specs.Prelude.{◌≡◌, cond, ◌+◌, ◌*◌, ◌/◌, ◌%◌, ◌<◌, ◌≤◌, ◌^◌, eqb};
ghost use Rattle.std.specs.Float.{binary32, binary64};
ghost use Rattle.std.specs.Int.{w64};
ghost use Rattle.std.proofs.Common.{of_z};
ghost use Rattle.types.specs.Names.{name_of, own_numbers};
ghost use Rattle.types.specs.Held.{float_bits};
ghost use Rattle.words.specs.Words.{pack_type, little_endian_bit, reference_bit, reference_width, origin_number, first_word, second_word, type_named, read_type};
ghost use Rattle.words.specs.Reading.{order_named, reference_named, origin_named, column_named, is_column};
ghost use Rattle.words.specs.Values.{sort_word, number_word, length_word, kind_word};
ghost use Rattle.words.specs.ValueReading.{variant_named, value_named};

use numbers::{double_of, real_of};
use types::{ByteOrder, ColumnDescriptor, Db2Type, Db2Value, Origin, Place, ValuePlace};

// The two words of a column.
#[derive(Clone, Copy)]
pub struct ColumnWords {
    pub first: u64,
    pub second: u64,
}

// The three words of a value.
#[derive(Clone, Copy)]
pub struct ValueWords {
    pub kind: u64,
    pub number: u64,
    pub len: u64,
}

// The place of a type's name in the enum: an enum whose variants hold numbers has no `as`.
fn tag(t: Db2Type) -> u8
    ensures { result ≡ name_of t }
{
    match t {
        Db2Type::SmallInt => 0,
        Db2Type::Integer => 1,
        Db2Type::BigInt => 2,
        Db2Type::Real => 3,
        Db2Type::Double => 4,
        Db2Type::Decimal { .. } => 5,
        Db2Type::DecFloat(_) => 6,
        Db2Type::Char(_) => 7,
        Db2Type::VarChar(_) => 8,
        Db2Type::LongVarChar => 9,
        Db2Type::Clob => 10,
        Db2Type::Binary(_) => 11,
        Db2Type::VarBinary(_) => 12,
        Db2Type::Blob => 13,
        Db2Type::BlobLocator => 14,
        Db2Type::Date => 15,
        Db2Type::Time => 16,
        Db2Type::Timestamp => 17,
        Db2Type::Graphic(_) => 18,
        Db2Type::VarGraphic(_) => 19,
        Db2Type::DbClob => 20,
        Db2Type::ClobLocator => 21,
        Db2Type::DbClobLocator => 22,
        Db2Type::LobBytes(_) => 23,
        Db2Type::LobChar(_) => 24,
        Db2Type::RowId(_) => 25,
        Db2Type::Boolean => 26,
        Db2Type::Xml => 27,
        Db2Type::Null => 28,
    }
}

// The numbers that a type holds, as one.
fn own_numbers(t: Db2Type) -> u16
    ensures { result ≡ own_numbers t }
{
    match t {
        Db2Type::Decimal { precision, scale } => u16::from(precision) + u16::from(scale) * 256,
        Db2Type::DecFloat(digits) => u16::from(digits),
        Db2Type::Char(n)
        | Db2Type::VarChar(n)
        | Db2Type::Binary(n)
        | Db2Type::VarBinary(n)
        | Db2Type::Graphic(n)
        | Db2Type::VarGraphic(n)
        | Db2Type::LobBytes(n)
        | Db2Type::LobChar(n)
        | Db2Type::RowId(n) => n,
        _ => 0,
    }
}

// No From here, nor a TryFrom at read_type_word: both types are other crates'.
pub fn type_word(t: Db2Type) -> u64
    ensures { (result ≡ pack_type t) × (result < 2 ^ 24) }
{
    u64::from(tag(t)) + u64::from(own_numbers(t)) * 0x100
}

// A function, as value_words is: by a From the clauses would say the same behind from_gives.
pub fn column_words(c: ColumnDescriptor) -> ColumnWords
    ensures { (result.first ≡ first_word c) × (result.second ≡ second_word c) }
{
    let reference = c.extdta_reference_length;
    let first = type_word(c.db2_type)
        + u64::from(c.drda_type) * 0x100_0000
        + u64::from(c.column_index) * 0x1_0000_0000
        + u64::from(c.nullable) * 0x1_0000_0000_0000
        + u64::from(c.byte_order == ByteOrder::LittleEndian) * 0x2_0000_0000_0000
        + u64::from(reference.is_some()) * 0x4_0000_0000_0000
        + (c.origin as u64) * 0x8_0000_0000_0000;
    let second = u64::from(c.length)
        + u64::from(c.precision) * 0x1_0000
        + u64::from(c.scale) * 0x100_0000
        + u64::from(c.ccsid) * 0x1_0000_0000
        + u64::from(reference.unwrap_or(0)) * 0x1_0000_0000_0000;
    ColumnWords { first, second }
}

// The type of this name, with these numbers. A match, since the names are the layout's numbers.
#[tactic(auto, unfolding(crate::specs::Words::type_named))]
fn type_named(tag: u8, n: u16) -> Db2Type
    ensures { result ≡ type_named tag n }
{
    match tag {
        0 => Db2Type::SmallInt,
        1 => Db2Type::Integer,
        2 => Db2Type::BigInt,
        3 => Db2Type::Real,
        4 => Db2Type::Double,
        5 => Db2Type::Decimal {
            precision: (n % 256) as u8,
            scale: (n / 256) as u8,
        },
        6 => Db2Type::DecFloat((n % 256) as u8),
        7 => Db2Type::Char(n),
        8 => Db2Type::VarChar(n),
        9 => Db2Type::LongVarChar,
        10 => Db2Type::Clob,
        11 => Db2Type::Binary(n),
        12 => Db2Type::VarBinary(n),
        13 => Db2Type::Blob,
        14 => Db2Type::BlobLocator,
        15 => Db2Type::Date,
        16 => Db2Type::Time,
        17 => Db2Type::Timestamp,
        18 => Db2Type::Graphic(n),
        19 => Db2Type::VarGraphic(n),
        20 => Db2Type::DbClob,
        21 => Db2Type::ClobLocator,
        22 => Db2Type::DbClobLocator,
        23 => Db2Type::LobBytes(n),
        24 => Db2Type::LobChar(n),
        25 => Db2Type::RowId(n),
        26 => Db2Type::Boolean,
        27 => Db2Type::Xml,
        _ => Db2Type::Null,
    }
}

// The type whose word this is.
pub fn read_type_word(word: u64) -> Option<Db2Type>
    ensures { result ≡ read_type word }
{
    if 0x100_0000 <= word {
        return None;
    }
    let t = type_named((word % 0x100) as u8, (word / 0x100) as u16);
    (type_word(t) == word).then_some(t)
}

fn order_named(bit: u64) -> ByteOrder
    ensures { result ≡ order_named bit }
{
    if bit == 1 {
        ByteOrder::LittleEndian
    } else {
        ByteOrder::BigEndian
    }
}

fn origin_named(n: u64) -> Origin
    ensures { result ≡ origin_named n }
{
    match n {
        1 => Origin::UndeclaredLid,
        2 => Origin::DeclaredLid,
        _ => Origin::Sda,
    }
}

// Whether the type of this name holds these numbers, and there is such a type.
// One arm for each name: by groups the check of a column took 19 instructions more.
#[tactic(auto, using(crate::proofs::Holding::no_numbers, crate::proofs::Holding::all_numbers, crate::proofs::Holding::two_numbers, crate::proofs::Holding::small_number), unfolding(crate::specs::Words::type_named))]
fn holds(tag: u8, n: u16) -> bool
    ensures { result ≡ eqb (pack_type (type_named tag n)) (tag + n * 2 ^ 8) }
{
    match tag {
        0 => n == 0,
        1 => n == 0,
        2 => n == 0,
        3 => n == 0,
        4 => n == 0,
        5 => true,
        6 => n < 0x100,
        7 => true,
        8 => true,
        9 => n == 0,
        10 => n == 0,
        11 => true,
        12 => true,
        13 => n == 0,
        14 => n == 0,
        15 => n == 0,
        16 => n == 0,
        17 => n == 0,
        18 => true,
        19 => true,
        20 => n == 0,
        21 => n == 0,
        22 => n == 0,
        23 => true,
        24 => true,
        25 => true,
        26 => n == 0,
        27 => n == 0,
        28 => n == 0,
        _ => false,
    }
}

impl ColumnWords {
    // The type that the bits of the first word name.
    pub fn db2_type(self) -> Db2Type
        ensures { result ≡ type_named (self.first % 2 ^ 8) (self.first / 2 ^ 8 % 2 ^ 16) }
    {
        type_named(
            (self.first % 0x100) as u8,
            (self.first / 0x100 % 0x1_0000) as u16,
        )
    }

    // The byte order that they name.
    pub fn byte_order(self) -> ByteOrder
        ensures { result ≡ order_named (self.first / 2 ^ 49 % 2) }
    {
        order_named(self.first / 0x2_0000_0000_0000 % 2)
    }

    // The column that the bits of the two words name. They are its words where is_column says so.
    #[tactic(auto, using(crate::proofs::TypeWords::then_some_is), unfolding(crate::specs::Reading::column_named))]
    pub fn column(self) -> ColumnDescriptor
        ensures { result ≡ column_named self.first self.second }
    {
        let db2_type = self.db2_type();
        let width = (self.second / 0x1_0000_0000_0000 % 0x1_0000) as u16;
        let extdta_reference_length = (self.first / 0x4_0000_0000_0000 % 2 == 1).then_some(width);
        let byte_order = self.byte_order();
        let origin = origin_named(self.first / 0x8_0000_0000_0000 % 4);
        let column_index = (self.first / 0x1_0000_0000 % 0x100) as u8;
        let drda_type = (self.first / 0x100_0000 % 0x100) as u8;
        let length = (self.second % 0x1_0000) as u16;
        let precision = (self.second / 0x1_0000 % 0x100) as u8;
        let scale = (self.second / 0x100_0000 % 0x100) as u8;
        let ccsid = (self.second / 0x1_0000_0000 % 0x1_0000) as u16;
        ColumnDescriptor {
            column_index,
            drda_type,
            length,
            precision,
            scale,
            nullable: self.first / 0x1_0000_0000_0000 % 2 == 1,
            origin,
            ccsid,
            db2_type,
            byte_order,
            extdta_reference_length,
        }
    }

    // Whether the two words are a column's. A column's number has 8 bits of its 16, there are three origins and nothing stands above them, and a reference length
    // is 0 where there is none. A test for each part of this: as one `&&` of four it is no plainer.
    pub fn is_column(self) -> bool
        ensures { result ≡ is_column self.first self.second }
    {
        if self.first / 0x100_0000_0000 % 0x100 != 0 {
            return false;
        }
        if 0x18_0000_0000_0000 <= self.first {
            return false;
        }
        if self.first / 0x4_0000_0000_0000 % 2 * 0xFFFF < self.second / 0x1_0000_0000_0000 {
            return false;
        }
        holds(
            (self.first % 0x100) as u8,
            (self.first / 0x100 % 0x1_0000) as u16,
        )
    }
}

// Two functions, since is_nan and to_bits are methods of each type: a trait would have the same bodies in its impls.
#[tactic(auto, unfolding(types::specs::Held::float_bits))]
fn real_bits(x: f32) -> u32
    ensures { result ≡ float_bits binary32 x }
{
    if x.is_nan() { 0 } else { x.to_bits() }
}

#[tactic(auto, unfolding(types::specs::Held::float_bits))]
fn double_bits(x: f64) -> u64
    ensures { result ≡ float_bits binary64 x }
{
    if x.is_nan() { 0 } else { x.to_bits() }
}

// The place of the variant, as tag has a type's.
fn sort_word(value: Db2Value) -> u64
    ensures { (result ≡ sort_word value) × (result < 2 ^ 8) }
{
    match value {
        Db2Value::Null => 0,
        Db2Value::SmallInt(_) => 1,
        Db2Value::Integer(_) => 2,
        Db2Value::BigInt(_) => 3,
        Db2Value::Real(_) => 4,
        Db2Value::RealNan(_) => 5,
        Db2Value::Double(_) => 6,
        Db2Value::DoubleNan(_) => 7,
        Db2Value::Decimal(_) => 8,
        Db2Value::Char(_) => 9,
        Db2Value::VarChar(_) => 10,
        Db2Value::Binary(_) => 11,
        Db2Value::Blob(_) => 12,
        Db2Value::Clob(_) => 13,
        Db2Value::RowId(_) => 14,
        Db2Value::Date(_) => 15,
        Db2Value::Time(_) => 16,
        Db2Value::Timestamp(_) => 17,
        Db2Value::Boolean(_) => 18,
        Db2Value::Xml(_) => 19,
    }
}

fn number_word(value: Db2Value) -> u64
    ensures { result ≡ number_word value }
{
    match value {
        Db2Value::Null => 0,
        Db2Value::SmallInt(z) => i64::from(z).cast_unsigned(),
        Db2Value::Integer(z) => i64::from(z).cast_unsigned(),
        Db2Value::BigInt(z) => z.cast_unsigned(),
        Db2Value::Real(x) => u64::from(real_bits(x)),
        Db2Value::RealNan(n) => u64::from(n),
        Db2Value::Double(x) => double_bits(x),
        Db2Value::DoubleNan(n) => n,
        Db2Value::Boolean(b) => u64::from(b),
        Db2Value::Decimal(p)
        | Db2Value::Char(p)
        | Db2Value::VarChar(p)
        | Db2Value::Binary(p)
        | Db2Value::Blob(p)
        | Db2Value::Clob(p)
        | Db2Value::RowId(p)
        | Db2Value::Date(p)
        | Db2Value::Time(p)
        | Db2Value::Timestamp(p)
        | Db2Value::Xml(p) => p.start as u64,
    }
}

// No function for a value's place, to be shared with number_word: that matches each kind anyway.
fn length_word(value: Db2Value) -> u64
    ensures { result ≡ length_word value }
{
    match value {
        Db2Value::Decimal(p)
        | Db2Value::Char(p)
        | Db2Value::VarChar(p)
        | Db2Value::Binary(p)
        | Db2Value::Blob(p)
        | Db2Value::Clob(p)
        | Db2Value::RowId(p)
        | Db2Value::Date(p)
        | Db2Value::Time(p)
        | Db2Value::Timestamp(p)
        | Db2Value::Xml(p) => p.len as u64,
        _ => 0,
    }
}

// The three words of a value.
pub fn value_words(place: ValuePlace) -> ValueWords
    ensures { (result.kind ≡ kind_word place) × ((result.number ≡ number_word place.value) × (result.len ≡ length_word place.value)) }
{
    let value = place.value;
    ValueWords {
        kind: sort_word(value) + u64::from(place.external) * 0x100,
        number: number_word(value),
        len: length_word(value),
    }
}

impl ValueWords {
    // The value of the variant whose place in the enum is the first word's low byte, by the second and the third word; Null where there is none.
    #[tactic(auto, unfolding(crate::specs::ValueReading::variant_named))]
    fn variant(self) -> Db2Value
        ensures { result ≡ variant_named (self.kind % 2 ^ 8) self.number self.len }
    {
        let n = self.number;
        let p = Place {
            start: n as usize,
            len: self.len as usize,
        };
        match self.kind % 0x100 {
            0 => Db2Value::Null,
            1 => Db2Value::SmallInt(((n % 0x1_0000) as u16).cast_signed()),
            2 => Db2Value::Integer(((n % 0x1_0000_0000) as u32).cast_signed()),
            3 => Db2Value::BigInt(n.cast_signed()),
            4 => real_of((n % 0x1_0000_0000) as u32),
            5 => Db2Value::RealNan((n % 0x1_0000_0000) as u32),
            6 => double_of(n),
            7 => Db2Value::DoubleNan(n),
            8 => Db2Value::Decimal(p),
            9 => Db2Value::Char(p),
            10 => Db2Value::VarChar(p),
            11 => Db2Value::Binary(p),
            12 => Db2Value::Blob(p),
            13 => Db2Value::Clob(p),
            14 => Db2Value::RowId(p),
            15 => Db2Value::Date(p),
            16 => Db2Value::Time(p),
            17 => Db2Value::Timestamp(p),
            18 => Db2Value::Boolean(n == 1),
            19 => Db2Value::Xml(p),
            _ => Db2Value::Null,
        }
    }

    // The value that the three words name, and whether it is external.
    #[tactic(auto, unfolding(crate::specs::ValueReading::value_named))]
    pub fn value_place(self) -> ValuePlace
        ensures { result ≡ value_named self.kind self.number self.len }
    {
        ValuePlace {
            value: self.variant(),
            external: self.kind / 0x100 % 2 == 1,
        }
    }
}
