// Which values refer to data outside the row (the Rust: column_has_extdta_reference), and the tests for zeros that say which LOB is empty.
ghost use Rattle.std.specs.Prelude.{◌≡◌, cond, not, ◌&&◌, ◌||◌, ℕ, ◌≤◌, length, drop};
ghost use Rattle.types.specs.Names.{bit8000};
ghost use Rattle.rules.specs.Extent.{is_reference, need, extent_of};
ghost use Rattle.rules.specs.Meaning.{all_zero, is_empty_reference, is_empty_header, header_bytes, refers_in};
ghost use Rattle.rules.specs.Conversions.{conversions_of};
ghost use Rattle.cell.specs.Inner.{lob_refers};

use crate::extents::{is_reference, is_short_reference, says_header};
use types::{ColumnDescriptor, Db2Type};

pub fn all_zero(s: &[u8]) -> bool
    ensures { result ≡ all_zero s.now }
{
    s.iter().all(|&b| b == 0)
}

#[tactic(auto, using(crate::proofs::ItemLaws::reference_nine))]
pub fn is_empty_reference(bytes: &[u8]) -> bool
    ensures { result ≡ is_empty_reference bytes.now }
{
    is_reference(bytes) && all_zero(&bytes[1..])
}

// Only the eight bytes after 02 are looked at.
#[tactic(auto, using(crate::proofs::ItemLaws::reference_nine))]
pub fn is_empty_header(header: &[u8]) -> bool
    ensures { result ≡ is_empty_header header.now }
{
    is_reference(header) && all_zero(&header[1..9])
}

// A LOB with a reference length is a reference, unless it is empty.
fn declared_refers(bytes: &[u8]) -> bool
    ensures { result ≡ not (all_zero bytes.now || is_empty_reference bytes.now) }
{
    !(all_zero(bytes) || is_empty_reference(bytes))
}

// One without is a reference of nine bytes, or a locator where its length is 0.
#[tactic(auto, using(crate::proofs::ItemLaws::reference_nine))]
fn undeclared_refers(located: bool, bytes: &[u8]) -> bool
    ensures { result ≡ cond (is_reference bytes.now) (not (all_zero (drop 1 bytes.now))) located }
{
    if is_reference(bytes) {
        return !all_zero(&bytes[1..]);
    }
    located
}

fn lob_refers(reference: Option<u16>, located: bool, bytes: &[u8]) -> bool
    ensures { result ≡ lob_refers reference located bytes.now }
{
    match reference {
        Some(_) => declared_refers(bytes),
        None => undeclared_refers(located, bytes),
    }
}

#[tactic(auto, using(crate::proofs::ExtentLaws::says_two))]
fn header_refers(bytes: &[u8]) -> bool
    ensures { result ≡ not (is_empty_header (header_bytes bytes.now)) }
{
    if says_header(bytes) {
        return !is_empty_header(&bytes[2..]);
    }
    !is_empty_header(bytes)
}

// VarChar and VarGraphic: with bit 8000 the value is a header.
fn varying_refers(n: u16, bytes: &[u8]) -> bool
    ensures { result ≡ (bit8000 n && not (is_empty_header (header_bytes bytes.now))) }
{
    0x8000 <= n && header_refers(bytes)
}

// Whether a value refers to data outside the row, where the bytes are all that it takes. An empty LOB does not. Apart from item_of, though both ask whether a LOB is
// empty: one pass for both would have each maker of an item tell a flag, which most types do not have.
#[tactic(auto, using(crate::proofs::ReferLaws::blob_refers, crate::proofs::ReferLaws::clob_refers, crate::proofs::ReferLaws::db_clob_refers, crate::proofs::ReferLaws::xml_refers, crate::proofs::ReferLaws::var_char_refers, crate::proofs::ReferLaws::var_graphic_refers, crate::proofs::ReferLaws::lob_bytes_in, crate::proofs::ReferLaws::lob_char_in))]
pub fn refers(bytes: &[u8], column: ColumnDescriptor) -> bool
    requires { need (extent_of column) bytes.now ≡ length bytes.now }
    ensures { (release : ℕ) → result ≡ refers_in (conversions_of release) column bytes.now }
{
    let length = column.length;
    let reference = column.extdta_reference_length;
    match column.db2_type {
        Db2Type::Blob | Db2Type::Clob | Db2Type::DbClob => {
            lob_refers(reference, length == 0, bytes)
        }
        Db2Type::Xml => lob_refers(reference, false, bytes),
        Db2Type::BlobLocator | Db2Type::ClobLocator | Db2Type::DbClobLocator => true,
        Db2Type::VarChar(n) | Db2Type::VarGraphic(n) => varying_refers(n, bytes),
        Db2Type::LobBytes(n) | Db2Type::LobChar(n) => {
            is_short_reference(usize::from(n % 0x8000), bytes)
        }
        _ => false,
    }
}
