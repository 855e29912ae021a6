// Reading a file whole, as it is or as hexadecimal text, into a lent buffer: as the library, the program allocates nothing, and so has no failure of that.
// What does not fit is not read: the buffers are a byte longer than what the library takes, so a longer file is refused by the library itself. What goes wrong
// is said on standard error.
use crate::hex::{Fault, Reading, looks_like_hex};
use arrayvec::ArrayString;
use printing::Line;
use std::env::{Env, FillError};
use std::fmt::Write;
use std::io::{Read, Stderr};
use std::str::from_utf8;
use std::{fmt, fs, io};
use tables::warnings::warn;

// The most bytes of a file's name.
const NAME: usize = 4096;

// More bytes than the system says of an error.
const REASON: usize = 512;

// How much of a hexadecimal text is read at once.
const CHUNK: usize = 4096;

// Why a file was not read.
#[derive(Drop)]
enum LoadError {
    Unread(io::Error),
    // Where a hexadecimal text has a fault.
    Faulty { reading: Reading, fault: Fault },
}

impl From<io::Error> for LoadError {
    fn from(e: io::Error) -> Self {
        LoadError::Unread(e)
    }
}

// Reads the file that an argument names; `-` is standard input. What was read of it, if it can be read.
// Here and below the flag and the buffer stand apart: a struct of them would be taken apart in each of the functions.
pub fn load<'a>(
    rt: &HostRuntime,
    argument: usize,
    is_hex: bool,
    out: &'a mut [u8],
) -> Option<&'a [u8]> {
    let err = rt.stderr();
    let mut path = [0u8; NAME];
    let why = match rt.arg(argument, &mut path) {
        Ok(n) => return load_path(rt, &path[..n], is_hex, out),
        Err(FillError::NotPresent) => "Invalid argument",
        Err(FillError::TooLong) => "File name too long",
    };
    let _ = println!(err; "show-row: argument: {why}");
    None
}

// std takes a file's name as a text.
fn load_path<'a>(
    rt: &HostRuntime,
    path: &[u8],
    is_hex: bool,
    out: &'a mut [u8],
) -> Option<&'a [u8]> {
    let err = rt.stderr();
    let Ok(name) = from_utf8(path) else {
        let mut line = Line::new(err);
        let _ = write!(line, "show-row: cannot read ");
        line.text(path);
        let _ = writeln!(line, ": its name is no UTF-8");
        line.flush();
        return None;
    };
    if name == "-" {
        let read = read_from(&mut rt.stdin(), is_hex, out);
        return loaded(err, "standard input", is_hex, read, out);
    }
    let read = read_file(rt, name, is_hex, out);
    loaded(err, name, is_hex, read, out)
}

fn read_file(
    rt: &HostRuntime,
    name: &str,
    is_hex: bool,
    out: &mut [u8],
) -> Result<usize, LoadError> {
    let mut file = fs::open(rt, name)?;
    read_from(&mut file, is_hex, out)
}

fn read_from<R: Read>(from: &mut R, is_hex: bool, out: &mut [u8]) -> Result<usize, LoadError> {
    if is_hex {
        return read_hex(from, out);
    }
    Ok(read_raw(from, out)?)
}

// What was read. Warns where raw bytes look like hexadecimal text, and says why a file could not be read.
fn loaded<'a>(
    err: Stderr,
    name: &str,
    is_hex: bool,
    read: Result<usize, LoadError>,
    out: &'a [u8],
) -> Option<&'a [u8]> {
    match read {
        Ok(n) => {
            let bytes = out.get(..n)?;
            if !is_hex && looks_like_hex(bytes) {
                warn(
                    err,
                    format_args!(
                        "{name} looks like hexadecimal text and is read as raw bytes: -x reads it as hexadecimal"
                    ),
                );
            }
            Some(bytes)
        }
        Err(e) => {
            say(err, name, &e);
            None
        }
    }
}

fn say(err: Stderr, name: &str, e: &LoadError) {
    let mut said = Line::new(err);
    let _ = match e {
        LoadError::Unread(e) => { writeln!(said, "show-row: cannot read {name}: {}", Reason(e)) }
        LoadError::Faulty { reading, fault } => {
            let line = reading.line;
            let column = reading.column;
            writeln!(
                said,
                "show-row: {name}: line {line}, column {column}: {fault}"
            )
        }
    };
    said.flush();
}

// What is said of an error, without the number that stands behind the system's words.
#[derive(Drop)]
struct Reason<'a>(&'a io::Error);

impl fmt::Display for Reason<'_> {
    fn fmt<W: fmt::Write>(&self, f: &mut fmt::Formatter<W>) -> fmt::Result {
        let mut said = ArrayString::<REASON>::new();
        write!(said, "{}", self.0)?;
        match said.as_str().split_once(" (os error ") {
            Some((words, _)) => f.write_str(words),
            None => f.write_str(said.as_str()),
        }
    }
}

fn read_raw<R: Read>(from: &mut R, out: &mut [u8]) -> io::Result<usize> {
    let mut at = 0;
    // Goes on by as many bytes as a read gives. `io::copy` would go on behind an interrupted read, which here is said.
    while at < out.len() {
        match from.read(&mut out[at..])? {
            0 => return Ok(at),
            n => at += n,
        }
    }
    Ok(at)
}

// Nothing says that a file ends, so the loop has as many turns as no run uses up. It reads chunks: a BufReader would allocate, which may fail.
fn read_hex<R: Read>(from: &mut R, out: &mut [u8]) -> Result<usize, LoadError> {
    let mut reading = Reading::new();
    let mut at = 0;
    for _ in 0..u64::MAX {
        let mut chunk = [0u8; CHUNK];
        let n = from.read(&mut chunk)?;
        if n == 0 {
            break;
        }
        for &byte in &chunk[..n] {
            let made = reading
                .step(byte)
                .map_err(|fault| LoadError::Faulty { reading, fault })?;
            let Some(place) = out.get_mut(at) else {
                return Ok(at);
            };
            if let Some(made) = made {
                *place = made;
                at += 1;
            }
        }
    }
    reading
        .finish()
        .map_err(|fault| LoadError::Faulty { reading, fault })?;
    Ok(at)
}
