// What is left of a line. What is printed into it has to stand there next, so that a format tells what a line says.
ghost use Rattle.std.specs.Prelude.{◌≡◌, ◌++◌, true, IfSome};
ghost use Rattle.answers.specs.Lines.{IsPrinted};

use std::fmt;
use std::fmt::{Display, Write};
use std::str::{FromStr, from_utf8};

#[derive(Clone, Copy)]
pub struct Rest<'a>(pub &'a [u8]);

impl fmt::Write for Rest<'_> {
    ghost write_str_gives = { λ before bytes after. before.0.now ≡ bytes ++ after.0.now };

    fn write_str(&mut self, s: &str) -> fmt::Result {
        match self.0.strip_prefix(s.as_bytes()) {
            Some(behind) => {
                self.0 = behind;
                Ok(())
            }
            None => Err(fmt::Error),
        }
    }
}

// Whether a line says this and no more.
#[tactic(auto, using(crate::proofs::Behind::all_said))]
pub fn says<D: Display + Drop>(line: &[u8], what: D) -> bool
    ensures { result ≡ true → IsPrinted (D.output what) line.now }
{
    let mut rest = Rest(line);
    write!(rest, "{what}").is_ok() && rest.0.is_empty()
}

// What a field writes, if it is written just as it is printed: so a number has digits only, and no leading zero.
pub fn read<T: FromStr + Display + Drop + Copy>(field: &[u8]) -> Option<T>
where
    T::Err: Drop,
    ensures { IfSome result (λ x. IsPrinted (T.output x) field.now) }
{
    let value = from_utf8(field).ok()?.parse().ok()?;
    says(field, value).then_some(value)
}
