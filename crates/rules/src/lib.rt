// Inner. The rules of rows, as definitions and laws: how many bytes each column's value takes, what they mean, what the row call answers and leaves
// in the text buffer; and why, where all columns carry their own end, a row of two bytes or more of which at least one is used stays what it is, whatever
// bytes follow it, and one that is too short can be completed. It has no function; the row call is proved against what stands here.
#![tactic(auto)]

// How many bytes a value takes, of those that are left of the row. specs/Extent.antt says what each kind means.
#[derive(Clone, Copy)]
pub enum Extent {
    // so many bytes
    Fixed(usize),
    // two bytes that count units of so many bytes each, and those
    Counted(usize),
    // a reference of so many bytes, unless two bytes in front of it say another number
    Header(usize),
    // four bytes that count bytes, and those; or a reference of nine bytes
    Inline,
    // four bytes, or a reference of nine bytes
    Locator,
    // so many bytes; or all that are left, where they are fewer and a reference in hexadecimal
    Materialized(usize),
}
