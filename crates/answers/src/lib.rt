// Inner. Reading the list of stored answers, for `replay`: the parts of a line; whether a line says something; and columns, and answers of the row call, as the
// list writes them.
#![tactic(auto)]

pub mod columns;
pub mod lines;
pub mod rest;
pub mod rows;
