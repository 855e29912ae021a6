// The columns of a list, and their parts of a row, one after the other: found by the function that the row call goes by.
ghost use Rattle.std.specs.Prelude.{length};
ghost use Rattle.std.specs.Iterator.{at_most};

use piece::{piece_need, skip_of};
use types::{ColumnDescriptor, Columns};

// A row, and the columns that it is read by. Where there is no row, it is empty, and so are the columns' parts of it.
#[derive(Clone, Copy)]
pub struct Given<'a> {
    pub columns: &'a Columns,
    pub row: &'a [u8],
}

// A column's part of a row: where it begins, how many bytes the column takes, and those of them that are there.
#[derive(Clone, Copy)]
pub struct Part<'a> {
    pub column: ColumnDescriptor,
    pub start: usize,
    pub need: usize,
    pub bytes: &'a [u8],
}

#[derive(Drop)]
pub struct Parts<'a> {
    columns: &'a [ColumnDescriptor],
    row: &'a [u8],
    start: usize,
}

impl<'a> Given<'a> {
    pub(crate) fn parts(self) -> Parts<'a> {
        Parts {
            columns: self.columns.list(),
            row: self.row,
            start: skip_of(self.row),
        }
    }
}

impl<'a> Iterator for Parts<'a> {
    type Item = Part<'a>;

    ghost remaining = { λ p. at_most (length p.columns.now) };

    fn next(&mut self) -> Option<Part<'a>> {
        let (column, others) = self.columns.split_first()?;
        let start = self.start;
        let rest = self.row.get(start..).unwrap_or_default();
        let need = piece_need(rest, *column);
        self.columns = others;
        self.start = start.saturating_add(need);
        Some(Part {
            column: *column,
            start,
            need,
            bytes: rest.get(..need).unwrap_or(rest),
        })
    }
}
