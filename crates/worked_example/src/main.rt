// Program. A worked example: a weave order, from a host's bytes to lines for people. It parses the description once, decodes each row with its columns and
// the host's release, and says a refusal by its number. The bytes are those of samples/, whose README.md says what each column is.
#![tactic(auto)]

use refusal::Refusal;
use std::io::Stdout;
use std::str::from_utf8;
use types::{Columns, Db2Value, ValuePlace};

// What a host sends once: here three triplets, the last of them with ten columns of three bytes each.
const DESCRIPTION: [u8; 44] = *b"\x03\x78\x33\
    \x08\x70\x41\x00\x00\x00\x00\x25\
    \x21\x76\xD0\
    \x02\x00\x04\x41\x00\x14\x30\x00\x04\x0F\x05\x02\x0C\x00\x04\
    \x04\x00\x02\x60\x00\x03\x20\x00\x0A\x33\x00\x40\x0A\x00\x08";

// A row, a column to a line behind the two bytes that are skipped.
const ROW: [u8; 67] = *b"\xFF\x00\
    \x00\x00\x10\x92\
    \x00\x00\x06\xC8\xC5\xD9\xC1\xE3\xC9\
    LM07\
    \x00\x00\x24\x0C\
    \x41\x48\x00\x00\
    \x01\xF4\
    \x8B\x1A\x1A\
    2026-12-01\
    \x00\x00\x0Efringe\tby hand\
    \x3F\xB9\x99\x99\x99\x99\x99\x9A";

// The host's release, which its operator knows; nothing in the bytes says it. It decides on texts whose CCSID the library has no conversion for: 2 guesses by
// their bytes, 3 takes them for code page 037. The texts here are of CCSID 37 and 1208, so that 3 would print the same.
const RELEASE: u32 = 2;

// A number is in the value itself; the bytes of a text lie in the text buffer, and value_bytes shows them. They are UTF-8.
// Where standard output does not take a line, there is nobody to tell: the next one is tried all the same.
fn print_value(out: Stdout, name: &str, place: ValuePlace, row: &[u8], text: &[u8]) {
    let _ = match place.value {
        Db2Value::Null => println!(out; "{name:<9}null"),
        Db2Value::SmallInt(n) => println!(out; "{name:<9}{n}"),
        Db2Value::Integer(n) => println!(out; "{name:<9}{n}"),
        value => {
            let shown = from_utf8(row::value_bytes(value, row, text)).unwrap_or_default();
            println!(out; "{name:<9}{shown}")
        }
    };
}

// Where the texts need more than 256 bytes, the refusal says how many.
fn print_order(out: Stdout, columns: &Columns, row: &[u8]) -> Result<(), Refusal> {
    let mut text = [0u8; 256];
    let order = row::decode_row(row, *columns, RELEASE, &mut text)?;
    // A name may be another than the host's where part of its bytes was malformed: let someone look at it.
    if order.replaced != 0 {
        let replaced = order.replaced;
        let _ = println!(out; "beware: {replaced} malformed in its texts, shown as U+FFFD");
    }
    // One by one, with the place that each has, in the order in which they are shown: a loop over places would ask again whether each is one of 128.
    print_value(out, "order", order.places[0], row, &text);
    print_value(out, "pattern", order.places[1], row, &text);
    print_value(out, "width", order.places[3], row, &text);
    print_value(out, "picks", order.places[5], row, &text);
    print_value(out, "note", order.places[8], row, &text);
    Ok(())
}

fn print_orders(out: Stdout) -> Result<(), Refusal> {
    // The entry for what comes from a host: a description that was cut short is refused, and does not pass for one of fewer columns.
    let description = qrydsc::parse_whole_qrydsc(&DESCRIPTION)?;
    print_order(out, &description.columns, &ROW)?;
    // A byte of the note was changed on its way: C3 begins a character, and none goes on behind it.
    let mut damaged = ROW;
    damaged[47] = 0xC3;
    print_order(out, &description.columns, &damaged)?;
    // Cut off within a text, the row is too short: refusal 8, with the bytes expected and those that are there.
    print_order(out, &description.columns, &ROW[..57])
}

// The orders, or in their place the refusal.
fn main(rt: HostRuntime) {
    let out = rt.stdout();
    if let Err(refusal) = print_orders(out) {
        let number = refusal.number();
        let first = refusal.first_value();
        let second = refusal.second_value();
        let _ = println!(out; "refusal {number}, {first}, {second}");
    }
}
