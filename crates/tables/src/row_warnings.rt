// What a row warns of: how it begins, what follows it, and values that may be others than the host's.
use crate::concerns::Concern;
use crate::headers::warn_header;
use crate::parts::Given;
use crate::status::state_of;
use crate::warnings::{Warning, warn, warn_columns};
use printing::{Counted, Hex, Line};
use refusal::Refusal;
use std::fmt::Write;
use std::io::Stderr;
use types::Row;

// How many characters were replaced, and in which columns: those with which the sum grows.
fn warn_replaced(err: Stderr, given: Given<'_>, release: u32, replaced: usize, text: &mut [u8]) {
    let replaced = Counted {
        count: replaced,
        one: "character was not valid and was replaced by U+FFFD",
        others: "characters were not valid and were replaced by U+FFFD",
    };
    let mut line = Line::new(err);
    let _ = write!(line, "{}", Warning(format_args!("{replaced}: column")));
    let mut some = *given.columns;
    let mut sum = 0;
    let mut separator = " ";
    // From 0: the loop prints `i` and counts `i + 1`; `1..=count` would print one less than it counts.
    for i in 0..given.columns.count {
        some.count = i + 1;
        let after = row::decode_row(given.row, some, release, text).map_or(
            0,
            |answer| answer.replaced,
        );
        if after != sum {
            let _ = write!(line, "{separator}{i}");
            separator = ", ";
        }
        sum = after;
    }
    line.byte(b'\n');
    line.flush();
}

// Behind a row that begins FF 00 comes the next one, which begins so too, or a status.
fn can_follow(rest: &[u8]) -> bool {
    match rest {
        [] | [0xFF] => true,
        [0xFF, second, ..] => *second == 0,
        _ => state_of(rest).is_some(),
    }
}

fn warn_rest(err: Stderr, row: &[u8], used: usize) {
    let rest = row.get(used..).unwrap_or_default();
    if row.starts_with(&[0xFF, 0x00]) && !can_follow(rest) {
        let begun = Hex(rest.get(..2).unwrap_or(rest));
        warn(
            err,
            format_args!(
                "behind the row stands X'{begun}', and no next row (FF 00) and no status: the row may end elsewhere"
            ),
        );
    }
}

// The two bytes that are skipped are FF 00 before a row of a host that sends them. Else they may be another thing. One byte alone is not skipped, and what
// does not begin FF has no such bytes.
fn warn_first(err: Stderr, row: &[u8]) {
    match row {
        [] | [0xFF, 0x00, ..] => {}
        [0xFF] => warn(
            err,
            "the row is FF alone: it may be the first byte of FF 00",
        ),
        [0xFF, second, ..] => warn(
            err,
            format_args!(
                "the row begins FF {second:02X} where a host sends FF 00: it may be no row, or one without these two bytes"
            ),
        ),
        _ => warn(
            err,
            "the row does not begin FF 00, as a host sends it: it may be no row, or begin elsewhere",
        ),
    }
}

// What the row's first bytes tell, accepted or not.
pub fn warn_of_beginning(err: Stderr, row: &[u8]) {
    if warn_header(err, b"the row", row) {
        return;
    }
    match state_of(row) {
        Some(state) => warn(
            err,
            format_args!(
                "this looks like a status (SQLCA) with SQLSTATE {state}, and not like a row"
            ),
        ),
        None => warn_first(err, row),
    }
}

// Texts of a CCSID that no conversion is known for. At release 2 a look at the bytes decides how they are read; at release 3 they are code page 037.
fn warn_unnamed(err: Stderr, given: Given<'_>, release: u32) {
    if release != 2 {
        warn_columns(err, Concern::Unnamed, given);
        return;
    }
    for concern in [Concern::ReadAs037, Concern::ReadAsAscii, Concern::GuessedAt] {
        warn_columns(err, concern, given);
    }
}

// What the values of a row tell, and what is left behind it. Of a row that is refused, only the indicators.
pub fn warn_of_values(
    err: Stderr,
    given: Given<'_>,
    release: u32,
    answer: &Result<Row, Refusal>,
    text: &mut [u8],
) {
    warn_columns(err, Concern::Indicator, given);
    let Ok(accepted) = answer else {
        return;
    };
    warn_rest(err, given.row, accepted.used);
    if accepted.replaced != 0 {
        warn_replaced(err, given, release, accepted.replaced, text);
    }
    warn_unnamed(err, given, release);
    for concern in [Concern::AllAt, Concern::Longer, Concern::Packed] {
        warn_columns(err, concern, given);
    }
}
