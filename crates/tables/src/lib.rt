// Inner. What the program show_row prints: the table of a description's columns, that of a row's values, a refusal as a line; and on standard error warnings
// where a table may mislead. It reads no file, and decides nothing: a column's bytes are found by the function that the row call goes by.
// What the system does not take of what is printed is passed over, and what comes behind it is tried all the same.
#![tactic(auto)]

mod column_concerns;
pub mod columns;
mod concerns;
pub mod description_warnings;
mod headers;
pub mod parts;
pub mod refusals;
pub mod row_warnings;
mod status;
mod triplet_list;
mod value_concerns;
pub mod values;
pub mod warnings;
