// A column in the table: its number, type, nullable, CCSID, byte order and origin; and, where there is no row, its type code, length and reference length.
use printing::type_names::TypeName;
use printing::{Line, OrDash};
use std::fmt;
use std::fmt::Write;
use std::io::Stdout;
use types::{ByteOrder, ColumnDescriptor, Columns, Origin};

pub fn yes_or_no(is_so: bool) -> &'static str {
    if is_so { "yes" } else { "no" }
}

fn order_name(order: ByteOrder) -> &'static str {
    match order {
        ByteOrder::BigEndian => "big",
        ByteOrder::LittleEndian => "little",
    }
}

// Of a LID only whether it is declared: so much tells it from an SDA.
fn origin_name(origin: Origin) -> &'static str {
    match origin {
        Origin::Sda => "SDA",
        Origin::UndeclaredLid => "undeclared",
        Origin::DeclaredLid => "declared",
    }
}

// What both tables say of a column, up to where what else they say begins.
#[derive(Clone, Copy)]
pub struct Common(pub ColumnDescriptor);

impl fmt::Display for Common {
    fn fmt<W: fmt::Write>(&self, f: &mut fmt::Formatter<W>) -> fmt::Result {
        let column = self.0;
        let name = TypeName(column.db2_type);
        let nullable = yes_or_no(column.nullable);
        let ccsid = column.ccsid;
        let order = order_name(column.byte_order);
        let origin = origin_name(column.origin);
        match column.column_index {
            index @ 0..=99 => write!(f, "{index:>3}  ")?,
            index => write!(f, " {index} ")?,
        }
        write!(
            f,
            "{name:<19}{nullable:<3}{ccsid:>8}  {order:<8}{origin:<12}"
        )
    }
}

// The columns of a description, and how many they are.
pub fn show_columns(out: Stdout, columns: &Columns) {
    let mut table = Line::new(out);
    let _ = writeln!(
        table,
        " no  type               null  ccsid  order   origin      code  length  reference"
    );
    for &column in columns.list() {
        let common = Common(column);
        let code = column.drda_type;
        let length = column.length;
        // How wide a reference to a value outside of the row is, where the description declares it.
        let reference = OrDash(column.extdta_reference_length);
        let _ = writeln!(table, "{common}{code:02X}{length:>10}  {reference}");
    }
    let count = columns.count;
    let _ = writeln!(table, "columns: {count}");
    table.flush();
}
