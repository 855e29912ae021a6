// Headers of DRDA that were left before what was cut out of a trace. A DDM object begins with two bytes of length and a code point, a DSS with six bytes: its
// length, D0, its kind and a number.
ghost use Rattle.std.specs.Prelude.{◌≤◌, IfSome};

use crate::triplet_list::RLO;
use crate::warnings::Warning;
use printing::{ByteCount, Line};
use std::fmt::Write;
use std::io::Stderr;
use triplets::{TRIPLET_TYPE_GDA, TRIPLET_TYPE_MDD, TRIPLET_TYPE_SDA};

// QRYDSC, QRYDTA, EXTDTA and SQLCARD.
fn is_code_point(n: u16) -> bool {
    matches!(n, 0x241A | 0x241B | 0x146C | 0x2408)
}

// How many bytes the header of a DDM object has, where one stands here. With bit 8000 of its length, the length itself stands behind the code point.
fn ddm_header(s: &[u8]) -> Option<usize>
    ensures { IfSome result (λ n. n ≤ 12) }
{
    let &[a, b, c, d, ..] = s else {
        return None;
    };
    if !is_code_point(u16::from_be_bytes([c, d])) {
        return None;
    }
    match u16::from_be_bytes([a, b]) {
        0x8008 => Some(8),
        0x800A => Some(10),
        0x800C => Some(12),
        n if usize::from(n) <= s.len() => Some(4),
        _ => None,
    }
}

// Whether a triplet begins so, as that of a D0 group does.
fn is_triplet(kind: u8) -> bool {
    matches!(
        kind,
        TRIPLET_TYPE_SDA | RLO | TRIPLET_TYPE_GDA | TRIPLET_TYPE_MDD
    )
}

// How many bytes of headers there are, if any.
fn header_length(s: &[u8]) -> Option<usize> {
    if s.len() < 10 {
        return None;
    }
    if let Some(n) = ddm_header(s) {
        return Some(n);
    }
    match s {
        &[_, kind, 0xD0, _, _, _, ref object @ ..] if !is_triplet(kind) => {
            Some(6 + ddm_header(object)?)
        }
        _ => None,
    }
}

// `name` says which file it is, in bytes that need be no UTF-8. Whether there was something to say.
pub fn warn_header(err: Stderr, name: &[u8], s: &[u8]) -> bool {
    let Some(n) = header_length(s) else {
        return false;
    };
    let header = ByteCount(n);
    let mut line = Line::new(err);
    let _ = write!(line, "{}", Warning(""));
    line.text(name);
    let _ = writeln!(
        line,
        " begins with a header of DRDA: its first {header} are no part of it"
    );
    line.flush();
    true
}
