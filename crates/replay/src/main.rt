// Program. Replays stored answers of the Rust: for each line of standard input, a request and the Rust's answer behind ` A `, it makes the
// call and compares. It writes a line for each line that differs or is no request, and at the end how many lines there were and how many were
// the same. The kinds of line: T decode_character_bytes, G decode_graphic_bytes, L bytes_are_likely_text, P decode_packed_decimal, F fixed_length,
// Q parse_qrydsc and decode_row with its columns, H decode_row with columns of the line's own. These ask by host release 2. T, G, Q and H also come in lower
// case, with a release behind the letter, any number that 32 bits hold: such a line is full, and has what the Rust lacks too, the characters replaced, the
// columns' origins, and whether a description breaks off. n is parse_whole_qrydsc and w decode_packed_whole, which the Rust lacks, both without a release.
#![tactic(auto)]

ghost use Rattle.std.specs.Prelude.{◌≤◌, length};

use answers::columns::{Ending, behind_columns, read_columns, type_of};
use answers::lines::{
    behind_parts, bytes, bytes_or_repeated, cut, field, field_count, number, split_answer,
};
use answers::rest::{read, says};
use answers::rows::AnswerLine;
use buffer::Written;
use decimal::{WholeNumber, decode_packed_whole};
use qrydsc::{Description, parse_qrydsc, parse_whole_qrydsc};
use refusal::Refusal;
use row::decode_row;
use std::io::{Print, Read, Stdout};
use types::{Columns, Row};

// The release of a line that states none.
const RELEASE: u32 = 2;

// The most bytes of a line, its end included. The bytes of a field that writes them out are half as many, and a text three times those and 14, or a
// decimal's 258.
const LINE: usize = 32768;

const BYTES: usize = 16384;

const TEXT: usize = 49424;

// The most bytes of a request, as a field that writes one byte many times may ask for: one more than a row may have.
const DATA: usize = 1048577;

// Where a request's bytes are put, those of a stored text, and the text that a call writes. Arrays: a Vec would be made, filled to its length, and asked
// whether there is memory for it.
#[derive(Drop)]
struct Buffers {
    data: [u8; DATA],
    want: [u8; BYTES],
    text: [u8; TEXT],
}

// What no text holds: UTF-8 has no such byte.
const FILL: u8 = 0xFF;

// The precision that a P line passes. It has no part in the text.
const PRECISION: u8 = 31;

// The release that a line asks by. One in lower case states it, and is full.
#[derive(Clone, Copy)]
struct Stated(Option<u32>);

impl Stated {
    fn release(self) -> u32 {
        self.0.unwrap_or(RELEASE)
    }

    fn is_full(self) -> bool {
        self.0.is_some()
    }
}

// A request, the release that it states, and the answer that is stored for it.
#[derive(Clone, Copy)]
struct Line<'a> {
    request: &'a [u8],
    stated: Stated,
    answer: &'a [u8],
}

// A function that writes one text. An enum: a closure that is handed on would have to promise that it takes any bytes, which these do by their types.
#[derive(Clone, Copy)]
enum Function {
    // By CCSID and host release.
    Character { ccsid: u16, release: u32 },
    Graphic { ccsid: u16, release: u32 },
    // By scale.
    Decimal(u8),
}

// A call that writes one text, of these bytes.
#[derive(Clone, Copy)]
struct TextCall<'a> {
    function: Function,
    data: &'a [u8],
}

// What is stored of a text: its bytes, and what stands behind them.
#[derive(Clone, Copy)]
struct Stored<'a> {
    text: &'a [u8],
    full: bool,
    rest: &'a [u8],
}

impl Stored<'_> {
    // Whether a text is the stored one: its bytes, and behind them how many characters it replaced, in a full line, or nothing in another.
    fn is_text(self, text: &[u8], replaced: usize) -> bool {
        let is_rest = if self.full {
            says(self.rest, format_args!(" {replaced}"))
        } else {
            self.rest.is_empty()
        };
        is_rest && text == self.text
    }
}

impl TextCall<'_> {
    fn make(self, text: &mut [u8]) -> Result<Written, Refusal> {
        let data = self.data;
        match self.function {
            Function::Character { ccsid, release } => {
                text::decode_character_bytes(data, ccsid, release, text)
            }
            Function::Graphic { ccsid, release } => {
                text::decode_graphic_bytes(data, ccsid, release, text)
            }
            Function::Decimal(scale) => {
                decimal::decode_packed_decimal(data, PRECISION, scale, text)
            }
        }
    }

    // Whether the call writes the stored text at the beginning of the buffer and no byte after it.
    fn writes(self, stored: Stored<'_>, text: &mut [u8]) -> bool {
        text.fill(FILL);
        self.make(text).is_ok_and(|written| {
            text.split_at_checked(written.len).is_some_and(|(got, behind)| {
                stored.is_text(got, written.replaced) && is_filled(behind)
            })
        })
    }

    // The call's refusal, where it writes nothing.
    fn refusal(self, text: &mut [u8]) -> Option<Refusal> {
        text.fill(FILL);
        self.make(text).err().filter(|_| is_filled(text))
    }

    // Whether the call writes the stored text into a larger buffer and into one that it fills, and refuses one that is a byte shorter.
    fn writes_each(self, stored: Stored<'_>, text: &mut [u8]) -> bool {
        let needed = stored.text.len();
        text.len() > needed
            && self.writes(stored, text)
            && self.writes(stored, &mut text[..needed])
            && (needed == 0
                || self.refusal(&mut text[..needed - 1])
                    == Some(Refusal::TextBufferTooShort { needed }))
    }

    // Whether the call answers what is stored: a text, or a refusal without values.
    fn answers(self, full: bool, answer: &[u8], want: &mut [u8], text: &mut [u8]) -> bool {
        let (told, rest) = cut(answer, b' ');
        match bytes(told, want) {
            Some(n) => {
                let stored = Stored {
                    text: &want[..n],
                    full,
                    rest,
                };
                self.writes_each(stored, text)
            }
            None => self.refusal(text).is_some_and(|refusal| is_stored(refusal, answer)
                && refusal.first_value() == 0),
        }
    }
}

fn is_filled(text: &[u8]) -> bool {
    text.iter().all(|&b| b == FILL)
}

// Whether a refusal is the stored one: it is written by its number.
fn is_stored(refusal: Refusal, answer: &[u8]) -> bool {
    says(answer, format_args!("REFUSE{}", refusal.number()))
}

// The row call on these columns and this row.
#[derive(Clone, Copy)]
struct RowCall<'a> {
    columns: &'a Columns,
    row: &'a [u8],
    stated: Stated,
}

impl RowCall<'_> {
    fn make(self, text: &mut [u8]) -> Result<Row, Refusal> {
        text.fill(FILL);
        decode_row(self.row, *self.columns, self.stated.release(), text)
    }

    // Whether the call answers so, with a text buffer of this length: then every byte of it is a text's, or none is changed.
    fn decodes(self, answer: &[u8], text: &mut [u8]) -> bool {
        let made = self.make(text);
        let is_answer = says(
            answer,
            AnswerLine {
                answer: &made,
                full: self.stated.is_full(),
                count: self.columns.count,
                row: self.row,
                text,
            },
        );
        is_answer && (made.is_ok() || is_filled(text))
    }

    // Whether the call refuses for want of text space, with this length, and writes nothing.
    fn lacks_space(self, needed: usize, text: &mut [u8]) -> bool {
        let short = Refusal::TextBufferTooShort { needed };
        self.make(text).is_err_and(|refusal| refusal == short) && is_filled(text)
    }

    // Whether the call leaves alone what lies behind the texts in a larger buffer.
    fn leaves_rest(self, written: usize, text: &mut [u8]) -> bool {
        match self.make(text) {
            Ok(_) => text.get(written..).is_some_and(is_filled),
            Err(_) => is_filled(text),
        }
    }

    // Not one trial with TextCall::writes_each: of a larger buffer that asks for text and rest, and this for the rest alone.
    // Whether the call gives the stored answer with a buffer that the texts fill; leaves alone the rest of a larger one; and refuses one that is a byte
    // shorter. The length of the texts is field 3 of an accepted answer; what stands there in others is no number, or is 0.
    fn answers(self, answer: &[u8], text: &mut [u8]) -> bool {
        // None and 0 ask the same: a buffer of no bytes, and none that is shorter.
        let n = number(field(answer, 3), TEXT).unwrap_or_default();
        text.len() > n
            && self.decodes(answer, &mut text[..n])
            && self.leaves_rest(n, text)
            && (n == 0 || self.lacks_space(n, &mut text[..n - 1]))
    }
}

// Whether an accepted description is told: `C`, the number of columns, and each of them; in a full line with their origins, and with its ending.
fn is_told(described: &Description, full: bool, told: &[u8]) -> bool {
    let ending = Ending {
        full,
        broken_off: described.broken_off,
    };
    told.strip_prefix(b"C ")
        .and_then(|columns| behind_columns(columns, full, &described.columns))
        .is_some_and(|rest| says(rest, ending))
}

// Each of these makes the call that a line asks for, and answers whether it answered what is stored, if the line is a request.
impl Line<'_> {
    // T, G or P: the number that the function holds, and the bytes. The kind comes as the letter: an enum would be made of it by one match, and taken apart by
    // the next.
    fn text(self, kind: u8, buffers: &mut Buffers) -> Option<bool> {
        if field_count(self.request) != 3 {
            return None;
        }
        let release = self.stated.release();
        let held = field(self.request, 1);
        let function = match kind {
            b'T' => Function::Character {
                ccsid: read(held)?,
                release,
            },
            b'G' => Function::Graphic {
                ccsid: read(held)?,
                release,
            },
            _ => Function::Decimal(read(held)?),
        };
        let n = bytes_or_repeated(field(self.request, 2), &mut buffers.data)?;
        let call = TextCall {
            function,
            data: &buffers.data[..n],
        };
        Some(call.answers(
            self.stated.is_full(),
            self.answer,
            &mut buffers.want,
            &mut buffers.text,
        ))
    }

    // L: `L <bytes>`.
    fn likely(self, buffers: &mut Buffers) -> Option<bool> {
        if field_count(self.request) != 2 {
            return None;
        }
        let n = bytes_or_repeated(field(self.request, 1), &mut buffers.data)?;
        let is_likely = text::bytes_are_likely_text(&buffers.data[..n]);
        // By patterns: a number that is formatted takes a fifth of the time of a short line.
        Some(match self.answer {
            b"0" => !is_likely,
            b"1" => is_likely,
            _ => false,
        })
    }

    // F: `F <type>`.
    fn length(self) -> Option<bool> {
        if field_count(self.request) != 2 {
            return None;
        }
        match type_of(field(self.request, 1))?.fixed_length() {
            Some(n) => Some(says(self.answer, n)),
            // By a pattern, here and below: with `==` both sides are of one type, and the literal is an array, to be made a slice.
            None => Some(matches!(self.answer, b"-")),
        }
    }

    // The row of a Q or H line, whose columns are known: the field that the rest of the request begins with.
    fn row(self, columns: &Columns, rest: &[u8], buffers: &mut Buffers) -> Option<bool> {
        let n = bytes_or_repeated(field(rest, 0), &mut buffers.data)?;
        let call = RowCall {
            columns,
            row: &buffers.data[..n],
            stated: self.stated,
        };
        Some(call.answers(self.answer, &mut buffers.text))
    }

    // Q: `Q <description> R <row> C <columns>`, or `C -` where the description is refused, whatever the release.
    fn description(self, buffers: &mut Buffers) -> Option<bool> {
        let request = self.request;
        if !matches!(field(request, 2), b"R") {
            return None;
        }
        let n = bytes_or_repeated(field(request, 1), &mut buffers.data)?;
        let told = behind_parts(request, 4, b' ');
        match parse_qrydsc(&buffers.data[..n]) {
            Ok(described) if is_told(&described, self.stated.is_full(), told) => {
                let row = behind_parts(request, 3, b' ');
                self.row(&described.columns, row, buffers)
            }
            Ok(_) => Some(false),
            Err(refusal) => Some(matches!(told, b"C -") && is_stored(refusal, self.answer)),
        }
    }

    // n: `n <description>`.
    fn whole_description(self, buffers: &mut Buffers) -> Option<bool> {
        if field_count(self.request) != 2 {
            return None;
        }
        let n = bytes_or_repeated(field(self.request, 1), &mut buffers.data)?;
        match parse_whole_qrydsc(&buffers.data[..n]) {
            Ok(described) => {
                let behind = behind_columns(self.answer, true, &described.columns);
                Some(!described.broken_off && behind == Some(&[]))
            }
            Err(refusal) => Some(is_stored(refusal, self.answer)),
        }
    }

    // w: `w <scale> <bytes>`. Its answer is the number and the scale, or the refusal, which has neither.
    fn whole_number(self, buffers: &mut Buffers) -> Option<bool> {
        if field_count(self.request) != 3 {
            return None;
        }
        let scale = read(field(self.request, 1))?;
        let n = bytes_or_repeated(field(self.request, 2), &mut buffers.data)?;
        match decode_packed_whole(&buffers.data[..n], scale) {
            Ok(WholeNumber { number, scale }) => {
                Some(says(self.answer, format_args!("{number} {scale}")))
            }
            Err(refusal) => Some(is_stored(refusal, self.answer)),
        }
    }

    // H: `H <columns> R <row>`.
    fn own_columns(self, buffers: &mut Buffers) -> Option<bool> {
        let columns = read_columns(self.request)?;
        let told = behind_parts(self.request, 1, b' ');
        let rest = behind_columns(told, self.stated.is_full(), &columns)?;
        self.row(&columns, rest.strip_prefix(b" R ")?, buffers)
    }

    // A line in lower case has a host release, and what the same kind in upper case has. Without its letter it has each field where that has it.
    fn stating(self) -> Option<Self> {
        let request = behind_parts(self.request, 1, b' ');
        Some(Line {
            request,
            stated: Stated(Some(read(field(request, 0))?)),
            answer: self.answer,
        })
    }

    // A kind that is asked by a release.
    fn by_release(self, kind: u8, buffers: &mut Buffers) -> Option<bool> {
        match kind {
            b'H' => self.own_columns(buffers),
            b'Q' => self.description(buffers),
            b'T' | b'G' => self.text(kind, buffers),
            _ => None,
        }
    }

    // By its kind. Each kind has a function of its own.
    fn replay(self, buffers: &mut Buffers) -> Option<bool> {
        let &[kind] = field(self.request, 0) else {
            return None;
        };
        match kind {
            b'F' => self.length(),
            b'L' => self.likely(buffers),
            b'P' => self.text(kind, buffers),
            b'n' => self.whole_description(buffers),
            b'w' => self.whole_number(buffers),
            b'h' | b'q' | b't' | b'g' => {
                self.stating()?
                    .by_release(kind.to_ascii_uppercase(), buffers)
            }
            _ => self.by_release(kind, buffers),
        }
    }
}

// A line of the list.
fn replay_line(line: &[u8], buffers: &mut Buffers) -> Option<bool> {
    let (request, answer) = split_answer(line)?;
    let line = Line {
        request,
        stated: Stated(None),
        answer,
    };
    line.replay(buffers)
}

// Says something of a line, in three writes. One that fails is passed over, here and below, and the next is tried all the same.
fn say(out: Stdout, line: u64, what: &str) {
    let _ = out.print("line ");
    let _ = out.print(line);
    let _ = out.print(what);
}

// The lines that were replayed, and those of them that were the same.
#[derive(Clone, Copy)]
struct Counts {
    lines: u64,
    same: u64,
}

impl Counts {
    // Replays a line, counts it, and says what is to be said of it.
    fn replay(&mut self, out: Stdout, line: &[u8], buffers: &mut Buffers) {
        self.lines = self.lines.wrapping_add(1);
        match replay_line(line, buffers) {
            Some(true) => self.same = self.same.wrapping_add(1),
            Some(false) => say(out, self.lines, " differs\n"),
            None => say(out, self.lines, " is no request\n"),
        }
    }

    fn finish(self, out: Stdout) {
        let _ = out.print(self.lines);
        let _ = out.print(" lines, ");
        let _ = out.print(self.same);
        let _ = out.print(" same\n");
    }
}

// Moves what stands from a place on to the beginning, and answers its length.
fn move_down(list: &mut [u8], from: usize) -> usize
    ensures { result ≤ length list.new }
{
    let count = list.len().saturating_sub(from);
    for i in 0..count {
        list[i] = list[from + i];
    }
    count
}

// Replays the list to its end. Nothing says that an input ends, so the loop has as many turns as no run uses up. A part of the list is read into an array, behind
// the line that is begun there: a BufReader would be allocated, and reads on where a read gave nothing.
fn replay(rt: &HostRuntime, buffers: &mut Buffers) {
    let out = rt.stdout();
    let mut input = rt.stdin();
    let mut list = [0u8; LINE];
    let mut begun = 0;
    let mut counts = Counts { lines: 0, same: 0 };
    for _ in 0..u64::MAX {
        if begun == LINE {
            say(out, counts.lines.wrapping_add(1), " is too long\n");
            return;
        }
        let Ok(n) = input.read(&mut list[begun..]) else {
            let _ = out.print("the list cannot be read\n");
            return;
        };
        if n == 0 {
            if begun > 0 {
                counts.replay(out, &list[..begun], buffers);
            }
            counts.finish(out);
            return;
        }
        let read = &mut list[..begun + n];
        let whole = read
            .iter()
            .rposition(|&b| b == b'\n')
            .map_or(0, |at| at + 1);
        for line in read[..whole].split_inclusive(|&b| b == b'\n') {
            counts.replay(out, line.strip_suffix(b"\n").unwrap_or(line), buffers);
        }
        begun = move_down(read, whole);
    }
}

fn main(rt: HostRuntime) {
    let mut buffers = Buffers {
        data: [0u8; DATA],
        want: [0u8; BYTES],
        text: [0u8; TEXT],
    };
    replay(&rt, &mut buffers);
}
