// Warnings, on standard error: where a table is right by the library's rules and may mislead all the same. A warning is no refusal: what is printed and its
// last line are the same with it. Here: how one begins, and the columns that one concerns.
ghost use Rattle.std.specs.Prelude.{Some, codes};
ghost use Rattle.std.specs.Fmt.{◌++?◌};

use crate::concerns::Concern;
use crate::parts::Given;
use printing::Line;
use std::fmt;
use std::fmt::{Display, Formatter, Write};
use std::io::Stderr;

// A warning's line, without its end.
#[derive(Drop)]
pub(crate) struct Warning<D>(pub(crate) D);

impl<D: Display + Drop> Display for Warning<D> {
    ghost output = { λ w. Some (codes "show-row: warning: ") ++? D.output w.0 };

    fn fmt<W: Write>(&self, f: &mut Formatter<W>) -> fmt::Result {
        write!(f, "show-row: warning: {}", self.0)
    }
}

pub fn warn<D: Display + Drop>(err: Stderr, what: D) {
    let mut line = Line::new(err);
    let _ = writeln!(line, "{}", Warning(what));
    line.flush();
}

// Lists the columns that a warning concerns, if there are any.
pub fn warn_columns(err: Stderr, concern: Concern, given: Given<'_>) {
    let mut concerned = given
        .parts()
        .enumerate()
        .filter(|(_, part)| concern.is_of(part));
    let Some((first, _)) = concerned.next() else {
        return;
    };
    let mut line = Line::new(err);
    let _ = write!(
        line,
        "{}",
        Warning(format_args!("{concern}: column {first}"))
    );
    for (i, _) in concerned {
        let _ = write!(line, ", {i}");
    }
    line.byte(b'\n');
    line.flush();
}
