// The names of the column types, for programs that print or read types.
ghost use Rattle.std.specs.Prelude.{◌≡◌, ◌≤◌, [], get_or, MatchOption};
ghost use Rattle.types.specs.Names.{name_of, own_numbers};
ghost use Rattle.printing.specs.TypeNames.{as_one, count_of, type_names, number_counts};

use crate::write_padded;
use std::fmt;
use types::Db2Type;

// Written out: the names that a derive of Debug would print have the numbers with them, in its own form.
pub fn name_of_type(t: Db2Type) -> &'static str
    ensures { result.now ≡ get_or type_names (name_of t) [] }
{
    match t {
        Db2Type::SmallInt => "SmallInt",
        Db2Type::Integer => "Integer",
        Db2Type::BigInt => "BigInt",
        Db2Type::Real => "Real",
        Db2Type::Double => "Double",
        Db2Type::Decimal { .. } => "Decimal",
        Db2Type::DecFloat(_) => "DecFloat",
        Db2Type::Char(_) => "Char",
        Db2Type::VarChar(_) => "VarChar",
        Db2Type::LongVarChar => "LongVarChar",
        Db2Type::Clob => "Clob",
        Db2Type::Binary(_) => "Binary",
        Db2Type::VarBinary(_) => "VarBinary",
        Db2Type::Blob => "Blob",
        Db2Type::BlobLocator => "BlobLocator",
        Db2Type::Date => "Date",
        Db2Type::Time => "Time",
        Db2Type::Timestamp => "Timestamp",
        Db2Type::Graphic(_) => "Graphic",
        Db2Type::VarGraphic(_) => "VarGraphic",
        Db2Type::DbClob => "DbClob",
        Db2Type::ClobLocator => "ClobLocator",
        Db2Type::DbClobLocator => "DbClobLocator",
        Db2Type::LobBytes(_) => "LobBytes",
        Db2Type::LobChar(_) => "LobChar",
        Db2Type::RowId(_) => "RowId",
        Db2Type::Boolean => "Boolean",
        Db2Type::Xml => "Xml",
        Db2Type::Null => "Null",
    }
}

// The numbers that a type holds: a Decimal two, those with a length or with digits one. Their number is one of three, which an Option around one or two would
// ask for in two matches.
#[derive(Clone, Copy)]
pub enum Numbers {
    None,
    One(u16),
    Two(u8, u8),
}

pub fn numbers_of(t: Db2Type) -> Numbers
    ensures numbers { as_one result ≡ own_numbers t }
    ensures count { count_of result ≡ get_or number_counts (name_of t) 0 }
{
    match t {
        Db2Type::Decimal { precision, scale } => Numbers::Two(precision, scale),
        Db2Type::DecFloat(digits) => Numbers::One(u16::from(digits)),
        Db2Type::Char(n)
        | Db2Type::VarChar(n)
        | Db2Type::Binary(n)
        | Db2Type::VarBinary(n)
        | Db2Type::Graphic(n)
        | Db2Type::VarGraphic(n)
        | Db2Type::LobBytes(n)
        | Db2Type::LobChar(n)
        | Db2Type::RowId(n) => Numbers::One(n),
        _ => Numbers::None,
    }
}

// A type with this tag, its place in the enum. The numbers that it holds are of no account.
fn type_with(tag: usize) -> Option<Db2Type>
    ensures { MatchOption result (29 ≤ tag) (λ t. name_of t ≡ tag) }
{
    Some(match tag {
        0 => Db2Type::SmallInt,
        1 => Db2Type::Integer,
        2 => Db2Type::BigInt,
        3 => Db2Type::Real,
        4 => Db2Type::Double,
        5 => Db2Type::Decimal {
            precision: 0,
            scale: 0,
        },
        6 => Db2Type::DecFloat(0),
        7 => Db2Type::Char(0),
        8 => Db2Type::VarChar(0),
        9 => Db2Type::LongVarChar,
        10 => Db2Type::Clob,
        11 => Db2Type::Binary(0),
        12 => Db2Type::VarBinary(0),
        13 => Db2Type::Blob,
        14 => Db2Type::BlobLocator,
        15 => Db2Type::Date,
        16 => Db2Type::Time,
        17 => Db2Type::Timestamp,
        18 => Db2Type::Graphic(0),
        19 => Db2Type::VarGraphic(0),
        20 => Db2Type::DbClob,
        21 => Db2Type::ClobLocator,
        22 => Db2Type::DbClobLocator,
        23 => Db2Type::LobBytes(0),
        24 => Db2Type::LobChar(0),
        25 => Db2Type::RowId(0),
        26 => Db2Type::Boolean,
        27 => Db2Type::Xml,
        28 => Db2Type::Null,
        _ => return None,
    })
}

// The name of the type with this tag; empty where there is no such tag.
pub fn name_of(tag: usize) -> &'static str
    ensures { result.now ≡ get_or type_names tag [] }
{
    match type_with(tag) {
        Some(t) => name_of_type(t),
        None => "",
    }
}

// How many numbers a type with this tag holds.
pub fn number_count(tag: usize) -> usize
    ensures { result ≡ get_or number_counts tag 0 }
{
    let Some(t) = type_with(tag) else {
        return 0;
    };
    match numbers_of(t) {
        Numbers::None => 0,
        Numbers::One(_) => 1,
        Numbers::Two(..) => 2,
    }
}

// A type by its name, with the numbers that it holds.
#[derive(Clone, Copy)]
pub struct TypeName(pub Db2Type);

impl fmt::Display for TypeName {
    fn fmt<W: fmt::Write>(&self, f: &mut fmt::Formatter<W>) -> fmt::Result {
        let name = name_of_type(self.0);
        match numbers_of(self.0) {
            Numbers::None => f.pad(name),
            Numbers::One(n) => write_padded(f, format_args!("{name}({n})")),
            Numbers::Two(m, n) => write_padded(f, format_args!("{name}({m},{n})")),
        }
    }
}
