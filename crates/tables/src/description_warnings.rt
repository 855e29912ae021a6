// What a description alone warns of: no columns, columns that may be missing, and columns whose values may be others than the host's.
use crate::concerns::Concern;
use crate::headers::warn_header;
use crate::parts::Given;
use crate::triplet_list::{Lack, lacking};
use crate::warnings::{warn, warn_columns};
use printing::{ByteCount, Counted};
use qrydsc::Description;
use std::fmt;
use std::io::Stderr;

// Where the description breaks off, after how many of its bytes.
fn warn_broken_off(err: Stderr, description: &[u8]) {
    let read = ByteCount(triplets::outer_end(description, 0));
    let count = description.len();
    warn(
        err,
        format_args!("the description breaks off after {read} of {count}: columns may be missing"),
    );
}

impl fmt::Display for Lack {
    fn fmt<W: fmt::Write>(&self, f: &mut fmt::Formatter<W>) -> fmt::Result {
        f.write_str(match self {
            Lack::Continued => {
                "of type 7F, which continues the one before it, is not read: columns are missing"
            }
            Lack::Unused => "without a column: columns may be missing",
            Lack::LeftOver => "with bytes left over behind its columns: a column may be cut",
        })
    }
}

// How many triplets lack something, and of the first where it begins and its type.
fn warn_triplets(err: Stderr, lack: Lack, description: &[u8]) {
    if let Some((count, first)) = lacking(lack, description) {
        let triplets = Counted {
            count,
            one: "triplet of the description",
            others: "triplets of the description",
        };
        let start = first.start;
        let kind = first.kind;
        warn(
            err,
            format_args!("{triplets} {lack} (the first at byte {start}, of type {kind:02X})"),
        );
    }
}

// The columns without a row.
fn alone(d: &Description) -> Given<'_> {
    Given {
        columns: &d.columns,
        row: &[],
    }
}

// What the description alone tells, where it is accepted.
pub fn warn_of_description(err: Stderr, d: &Description, description: &[u8]) {
    // A row begins so, and no description.
    if description.starts_with(&[0xFF, 0x00]) {
        warn(err, "the description begins FF 00, as a row does");
    }
    warn_header(err, b"the description", description);
    if d.columns.count == 0 {
        warn(err, "the description has no columns");
    }
    if d.broken_off {
        warn_broken_off(err, description);
    }
    for lack in [Lack::Continued, Lack::Unused, Lack::LeftOver] {
        warn_triplets(err, lack, description);
    }
    let concerns = [
        Concern::TakenForVarChar,
        Concern::OtherNumber,
        Concern::ByteCounted,
        Concern::Length,
        Concern::Unmeasured,
        Concern::BitData,
        Concern::As037,
        Concern::LobText,
    ];
    for concern in concerns {
        warn_columns(err, concern, alone(d));
    }
}

// How a host's release has texts read whose CCSID no conversion is known for.
fn unnamed(release: u32) -> Concern {
    match release {
        2 => Concern::WillBeGuessed,
        _ => Concern::WillBe037,
    }
}

// What it tells of the rows to come, where there is none yet.
pub fn warn_of_rows(err: Stderr, d: &Description, release: u32) {
    for concern in [unnamed(release), Concern::DecFloat] {
        warn_columns(err, concern, alone(d));
    }
}
