// Program. Shows what a host's description and row hold: `show_row [-x] [-r RELEASE] DESCRIPTION [ROW]` reads one or two files of raw bytes (with -x, of
// hexadecimal text; `-` is standard input) and prints a table of the columns, with a row also their values, or the refusal. The row is read by the host's
// release, 2 where none is given. It decides nothing itself: parse_qrydsc, decode_row and value_bytes do. A description that breaks off is shown too, since
// whoever looks for the fault wants to see it: with a warning. What is printed is in tables; the command at the root, show-row, reads the other options.
#![tactic(auto)]

mod hex;
mod load;

ghost use Rattle.std.specs.Prelude.{◌≤◌, IfSome};

use load::load;
use qrydsc::{Description, parse_qrydsc};
use std::env::{Env, FillError};
use tables::columns::show_columns;
use tables::description_warnings::{warn_of_description, warn_of_rows};
use tables::parts::Given;
use tables::refusals::{show_refused_description, show_refused_row};
use tables::row_warnings::{warn_of_beginning, warn_of_values};
use tables::values::show_values;

// A byte more than the library takes: so a longer file is refused by the library.
const DESCRIPTION: usize = 65537;

const ROW: usize = 1048577;

// No row's texts are longer: three bytes for each of the row's, and 258 for each of 128 columns.
const TEXT: usize = 3178752;

// An argument of a few letters, by its number and not from a list, which would allocate; put into the room that is lent for it; empty where there is none, or it is longer.
fn word_of<'a>(rt: &HostRuntime, argument: usize, room: &'a mut [u8; 8]) -> &'a [u8] {
    match rt.arg(argument, room) {
        Ok(n) => &room[..n],
        Err(_) => &[],
    }
}

// Whether there is an argument with this number.
fn is_given(rt: &HostRuntime, argument: usize) -> bool {
    !matches!(rt.arg(argument, &mut []), Err(FillError::NotPresent))
}

// The options: whether the files are hexadecimal text, the host's release, and which argument is the first file.
#[derive(Clone, Copy)]
struct Options {
    is_hex: bool,
    release: u32,
    first: usize,
}

// The host's release that an argument says.
fn release_of(rt: &HostRuntime, argument: usize) -> Option<u32> {
    match word_of(rt, argument, &mut [0u8; 8]) {
        b"2" => Some(2),
        b"3" => Some(3),
        _ => None,
    }
}

// None where -r names no release.
fn read_options(rt: &HostRuntime) -> Option<Options>
    ensures { IfSome result (λ options. options.first ≤ 4) }
{
    let mut room = [0u8; 8];
    // By a pattern: with `==` the literal, an array, has to be made a slice.
    let is_hex = matches!(word_of(rt, 1, &mut room), b"-x");
    let at = if is_hex { 2 } else { 1 };
    let (release, first) = match word_of(rt, at, &mut room) {
        b"-r" => (release_of(rt, at + 1)?, at + 2),
        _ => (2, at),
    };
    Some(Options {
        is_hex,
        release,
        first,
    })
}

fn usage(rt: &HostRuntime) {
    let err = rt.stderr();
    let _ = println!(err;
        "show-row: a wrong call; the program's own is show_row [-x] [-r RELEASE] DESCRIPTION [ROW], and the release is 2 or 3"
    );
}

// Shows the columns of a description, or its refusal.
fn show_description(rt: &HostRuntime, release: u32, description: &[u8]) {
    let err = rt.stderr();
    match parse_qrydsc(description) {
        Ok(d) => {
            show_columns(rt.stdout(), &d.columns);
            warn_of_description(err, &d, description);
            warn_of_rows(err, &d, release);
        }
        Err(refusal) => show_refused_description(rt.stdout(), refusal),
    }
}

// Shows the values of a row, or the refusal of the description or the row.
fn show_row(rt: &HostRuntime, release: u32, description: &[u8], row: &[u8], text: &mut [u8]) {
    match parse_qrydsc(description) {
        Ok(d) => {
            show_decoded(rt, &d, release, row, text);
            warn_of_description(rt.stderr(), &d, description);
        }
        Err(refusal) => show_refused_description(rt.stdout(), refusal),
    }
}

fn show_decoded(rt: &HostRuntime, d: &Description, release: u32, row: &[u8], text: &mut [u8]) {
    let err = rt.stderr();
    let given = Given {
        columns: &d.columns,
        row,
    };
    let answer = row::decode_row(row, d.columns, release, text);
    match &answer {
        Ok(accepted) => show_values(rt.stdout(), given, accepted, text),
        Err(refusal) => show_refused_row(rt.stdout(), *refusal, given),
    }
    warn_of_beginning(err, row);
    warn_of_values(err, given, release, &answer, text);
}

// Nothing is shown where a file can't be read.
fn run(rt: &HostRuntime, description: &mut [u8], row: &mut [u8], text: &mut [u8]) {
    let Some(o) = read_options(rt) else {
        return usage(rt);
    };
    let second = o.first + 1;
    if !is_given(rt, o.first) || is_given(rt, second + 1) {
        return usage(rt);
    }
    let Some(description) = load(rt, o.first, o.is_hex, description) else {
        return;
    };
    if !is_given(rt, second) {
        return show_description(rt, o.release, description);
    }
    if let Some(row) = load(rt, second, o.is_hex, row) {
        show_row(rt, o.release, description, row, text);
    }
}

fn main(rt: HostRuntime) {
    let mut description = [0u8; DESCRIPTION];
    let mut row = [0u8; ROW];
    let mut text = [0u8; TEXT];
    run(&rt, &mut description, &mut row, &mut text);
}
