// The places of the common types' names, which stand in the low 8 bits of a column's first word: crates/types/specs/Names.antt has all of them.
// Those below DECIMAL are the numbers'. They are matched as the numbers that the word has: a type made of it would be taken apart again at once.
pub const SMALL_INT: u64 = 0;

pub const INTEGER: u64 = 1;

pub const BIG_INT: u64 = 2;

pub const REAL: u64 = 3;

pub const DOUBLE: u64 = 4;

pub const DECIMAL: u64 = 5;

pub const DEC_FLOAT: u64 = 6;

pub const CHAR: u64 = 7;

pub const VAR_CHAR: u64 = 8;

pub const DATE: u64 = 15;

pub const TIME: u64 = 16;

pub const TIMESTAMP: u64 = 17;
