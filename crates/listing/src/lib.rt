// The listing of a reading, on standard output: a line for its answer, and a line for each row. Any numbers may stand in the rows; of a span, what lies in
// the store is shown.

#![tactic(auto)]

ghost use Rattle.std.specs.Prelude.{◌≡◌, ◌≤◌, ◌<◌, Some, length};
ghost use Rattle.std.specs.Fmt.{WritesOnOk};
ghost use Rattle.listing.specs.Words.{kind_name, value_of, text_of, told_of};
ghost use Rattle.listing.specs.Hex.{hex_digit_ascii, hex_of, shown_bytes};

use format::refusals;
use rows::{Row, Span, Table, kinds};
use std::fmt::Display;
use std::{fmt, io, str};

// ---- bytes as digits

// A digit below 16, in ASCII.
fn digit(d: u8) -> u8
    requires { d < 16 }
    ensures { result ≡ hex_digit_ascii d }
{
    if d < 10 { b'0' + d } else { b'a' - 10 + d }
}

// Writes at most 32 bytes in hex, two digits each. All go to the formatter at once: a call for each byte costs several times as much.
fn write_few<W: fmt::Write>(f: &mut fmt::Formatter<W>, bytes: &[u8]) -> fmt::Result
    requires { length bytes.now ≤ 32 }
    ensures { WritesOnOk W.write_str_gives f.old result (hex_of bytes.now) f.new }
{
    let mut digits = [0u8; 64];
    for (i, b) in bytes.iter().enumerate() {
        digits[2 * i] = digit(b / 16);
        digits[2 * i + 1] = digit(b % 16);
    }
    let Ok(text) = str::from_utf8(&digits[..2 * bytes.len()]) else {
        unreachable!();
    };
    f.write_str(text)
}

// Bytes in hex, `-` where there are none.
#[derive(Clone, Copy)]
struct Hex<'a>(&'a [u8]);

impl Display for Hex<'_> {
    ghost output = { λ h. Some (shown_bytes h.0.now) };

    fn fmt<W: fmt::Write>(&self, f: &mut fmt::Formatter<W>) -> fmt::Result {
        if self.0.is_empty() {
            return f.write_str("-");
        }
        for few in self.0.chunks(32) {
            write_few(f, few)?;
        }
        Ok(())
    }
}

// ---- what a line has of a row, by its kind

// The name of a kind, `unknown` for any other number.
#[tactic(auto, unfolding(crate::specs::Words::kind_name))]
fn kind_name(kind: usize) -> &'static str
    ensures { result.now ≡ kind_name kind }
{
    match kind {
        kinds::UNDEFINED => "undefined",
        kinds::NULL => "null",
        kinds::BOOLEAN => "boolean",
        kinds::INTEGER => "integer",
        kinds::DOUBLE => "double",
        kinds::STRING => "string",
        kinds::XML_DOCUMENT => "xmldocument",
        kinds::DATE => "date",
        kinds::ARRAY => "array",
        kinds::OBJECT => "object",
        kinds::XML => "xml",
        kinds::BYTE_ARRAY => "bytearray",
        kinds::INT_VECTOR => "vector-int",
        kinds::UINT_VECTOR => "vector-uint",
        kinds::DOUBLE_VECTOR => "vector-double",
        kinds::OBJECT_VECTOR => "vector-object",
        kinds::DICTIONARY => "dictionary",
        kinds::REFERENCE => "reference",
        _ => "unknown",
    }
}

// What a line has of a row's body or number: the body in hex, or the number in decimal, as a signed one, as its 64 bits in hex, or as a date's milliseconds,
// if it has some.
#[derive(Clone, Copy)]
enum Value<'a> {
    Body(&'a [u8]),
    Plain(usize),
    Signed(i64),
    Bits(usize),
    Millis(Option<i64>),
}

impl Display for Value<'_> {
    ghost output = { λ v. Some (text_of v) };

    fn fmt<W: fmt::Write>(&self, f: &mut fmt::Formatter<W>) -> fmt::Result {
        match self {
            Value::Body(bytes) => write!(f, "{}", Hex(bytes)),
            Value::Plain(n) => write!(f, "{n}"),
            Value::Signed(v) | Value::Millis(Some(v)) => write!(f, "{v}"),
            Value::Bits(n) => write!(f, "{n:016x}"),
            Value::Millis(None) => f.write_str("-"),
        }
    }
}

// What a line has of a row with this body.
#[tactic(auto, unfolding(crate::specs::Words::value_of))]
fn value_of<'a>(r: Row, body: &'a [u8]) -> Option<Value<'a>>
    ensures { result ≡ value_of r body.entry }
{
    match r.kind {
        kinds::INTEGER => Some(Value::Signed(wire::of_column(r.number))),
        kinds::DOUBLE => Some(Value::Bits(r.number)),
        kinds::BOOLEAN | kinds::REFERENCE => Some(Value::Plain(r.number)),
        kinds::DATE => Some(Value::Millis(wire::moment_of(r.number))),
        kinds::BYTE_ARRAY..=kinds::DOUBLE_VECTOR => Some(Value::Body(body)),
        kind => text::has_text(kind).then_some(Value::Body(body)),
    }
}

// ---- rows

// ROW KIND [key HEX] [fixed F | weak F] [class HEX] [assoc A dense D | sealed S dynamic D | entries N] [BODY | NUMBER] end E
fn print_row<R: Print>(rt: &R, table: Table, row: usize) -> io::Result<()> {
    let r = rows::get_row(table.rows, row);
    let body = text::clip(table.store, r.body);
    print!(rt; "{row} {}", kind_name(r.kind))?;
    if r.key.mark != 0 {
        let key = Span {
            begin: r.key.begin,
            size: r.key.size,
        };
        print!(rt; " key {}", Hex(text::clip(table.store, key)))?;
    }
    match r.kind {
        kinds::INT_VECTOR..=kinds::OBJECT_VECTOR => print!(rt; " fixed {}", r.flag)?,
        kinds::DICTIONARY => print!(rt; " weak {}", r.flag)?,
        _ => {}
    }
    if r.class != 0 {
        print!(rt; " class {}", Hex(body))?;
    }
    match r.kind {
        kinds::ARRAY => print!(rt; " assoc {} dense {}", r.count, r.count2)?,
        kinds::OBJECT => print!(rt; " sealed {} dynamic {}", r.count, r.count2)?,
        kinds::INT_VECTOR..=kinds::DICTIONARY => print!(rt; " entries {}", r.count)?,
        _ => {}
    }
    if let Some(value) = value_of(r, body) {
        print!(rt; " {value}")?;
    }
    println!(rt; " end {}", r.end)
}

// ---- the listing. No contract can say what standard output gets; what a line has is said of `value_of`, `told_of` and Display

// A finished reading: what is used and taken, then the first `n` rows.
pub fn print_finished<R: Print>(
    rt: &R,
    table: Table,
    n: usize,
    bytes: usize,
    taken: usize,
) -> io::Result<()> {
    println!(rt; "rows {n} bytes {bytes} taken {taken}")?;
    for row in 0..n {
        print_row(rt, table, row)?;
    }
    Ok(())
}

// What a refusal of a reading tells, if it tells a value.
#[tactic(auto, unfolding(crate::specs::Words::told_of, crate::specs::Words::tells_value))]
fn told_of<'a>(no: usize, told: usize) -> Option<Value<'a>>
    ensures { result ≡ told_of no told }
{
    match no {
        refusals::BAD_DATE => Some(Value::Bits(told)),
        refusals::BAD_LOAN
        | refusals::BAD_MARKER
        | refusals::NO_ENTRY
        | refusals::OPEN_OBJECT
        | refusals::NO_ROOM => Some(Value::Plain(told)),
        _ => None,
    }
}

// A refused reading: refused NO [told X] place P
pub fn print_refused<R: Print>(rt: &R, no: usize, told: usize, place: usize) -> io::Result<()> {
    print!(rt; "refused {no}")?;
    if let Some(value) = told_of(no, told) {
        print!(rt; " told {value}")?;
    }
    println!(rt; " place {place}")
}
