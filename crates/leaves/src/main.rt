// Holds the crates wire and utf8 to vectors from outside, the lines of leaves.txt, and writes for each kind of line how many
// answers are right and how many wrong.
//
// The list is made by tools/leaves/main.rs, a Rust program. It and what this program has to write are made anew by
//
//     rustc --edition 2021 -O -o target/make-leaves tools/leaves/main.rs
//     target/make-leaves > crates/leaves/stdout
//
// Its answers are those of `decode_u29` and `encode_u29` of the crate amf 1.0.0, and of Rust: `from_be_bytes` and `to_be_bytes` of
// `u32` and `u64`, shifts and casts of `i32` and `i64`, `from_bits`, `to_bits` and casts of `f64`, and `String::from_utf8`, whose error
// tells a text that is cut from one that no more bytes can mend. The first lines of leaves.txt have the form of each kind.

#![tactic(auto)]

use lines::Tally;
use std::io;
use wire::Part;

// ---- the words of a line

// A test of a line gets what stands behind the line's name. It tells whether the answer that stands there is right, or None where a word is missing.

// Whether `rest` is what stands from `at` to the line's end.
fn rest_is(line: &[u8], at: usize, rest: &[u8]) -> bool {
    line.get(at..) == Some(rest)
}

// Whether the last word, at `at`, is the number `n`.
fn last_is(line: &[u8], at: usize, n: usize) -> bool {
    lines::number(line, at) == Some((n, line.len()))
}

// VALUE NUMBER, or VALUE and the words `otherwise`: what `answer` has for the value.
fn answer_right<F: Fn(usize) -> Option<usize>>(
    line: &[u8],
    otherwise: &[u8],
    answer: F,
) -> Option<bool>
    requires { F.IsAlwaysCallable answer }
{
    let (value, p) = lines::number(line, 0)?;
    Some(match answer(value) {
        Some(n) => last_is(line, p, n),
        None => rest_is(line, p, otherwise),
    })
}

// ---- numbers on the wire

// A number that is read, with the place behind it. None: the bytes end too early.
type Read = Option<(usize, usize)>;

// The U29 at `at`, one byte after the other. None: it goes astray, which no line says.
fn by_bytes(src: &[u8], at: usize) -> Option<Read> {
    let mut left: usize = 3;
    let mut n = 0;
    for (p, b) in src.iter().enumerate().skip(at) {
        match wire::u29_byte(left, n, *b)? {
            Part::Whole(v) => return Some(Some((v, p + 1))),
            Part::More(m) => {
                n = m;
                left = left.checked_sub(1)?;
            }
        }
    }
    Some(None)
}

// BYTES AT, and then VALUE NEXT or short: what `read` reads.
fn read_right<F: Fn(&[u8], usize) -> Option<Read>>(line: &[u8], read: F) -> Option<bool>
    requires { F.IsAlwaysCallable read }
{
    let mut src = [0u8; 64];
    let (len, p) = lines::bytes(line, 0, &mut src)?;
    let (at, q) = lines::number(line, p)?;
    let Some((n, next)) = read(src.get(..len)?, at)? else {
        return Some(rest_is(line, q, b"short\n"));
    };
    let (value, r) = lines::number(line, q)?;
    Some(value == n && last_is(line, r, next))
}

// What a room is filled with before something is put there.
const FILLING: u8 = 0xa5;

fn is_filling(s: &[u8]) -> bool {
    s.iter().all(|b| *b == FILLING)
}

// VALUE BYTES: whether `put` puts the value as these bytes where they just have room, and refuses it where one of them has none. Nothing else changes.
fn put_right<F: Fn(&mut [u8], usize, usize) -> Option<usize>>(line: &[u8], put: F) -> Option<bool>
    requires { F.IsAlwaysCallable put }
{
    let (n, p) = lines::number(line, 0)?;
    let mut bytes = [0u8; 64];
    let (len, end) = lines::bytes(line, p, &mut bytes)?;
    let form = bytes.get(..len)?;
    let mut whole = [FILLING; 10];
    let at = whole.len().checked_sub(len)?;
    let put_whole = put(&mut whole, at, n) == Some(whole.len());
    let mut refused = [FILLING; 10];
    let put_refused = put(&mut refused, at + 1, n).is_none();
    Some(
        end == line.len()
            && put_whole
            && is_filling(&whole[..at])
            && &whole[at..] == form
            && put_refused
            && is_filling(&refused),
    )
}

// ---- signed numbers

// SIGN MAGNITUDE COLUMN
fn column_right(line: &[u8]) -> Option<bool> {
    let sign = *line.first()?;
    let (magnitude, p) = lines::number(line, lines::behind(line, 1))?;
    let v = match sign {
        b'+' => i64::try_from(magnitude).ok()?,
        b'-' => !i64::try_from(magnitude.checked_sub(1)?).ok()?,
        _ => return None,
    };
    let column = wire::column(v);
    Some(wire::of_column(column) == v && last_is(line, p, column))
}

// ---- texts

// Whether the text leads to `state` in two pieces, wherever it is cut.
fn pieces_lead_to(s: &[u8], state: usize) -> bool {
    (0..s.len()).all(|at| utf8::run(utf8::run(0, &s[..at]), &s[at..]) == state)
}

// BYTES, and then valid, cut or broken
fn text_right(line: &[u8]) -> Option<bool> {
    let mut text = [0u8; 64];
    let (len, p) = lines::bytes(line, 0, &mut text)?;
    let s = text.get(..len)?;
    let state = utf8::run(0, s);
    let stepped = s.iter().fold(0, |k, b| utf8::step(k, *b));
    let answer: &[u8] = match state {
        0 => b"valid\n",
        1..8 => b"cut\n",
        _ => b"broken\n",
    };
    Some(
        stepped == state
            && pieces_lead_to(s, state)
            && utf8::valid(s) == (state == 0)
            && rest_is(line, p, answer),
    )
}

// ---- the list

// The tally of the lines of a text that begin with `name`; `right` tests what stands behind it.
fn tally<F: Fn(&[u8]) -> Option<bool>>(text: &[u8], name: &[u8], right: F) -> Tally
    requires { F.IsAlwaysCallable right }
{
    let mut t = Tally::default();
    for line in text.split_inclusive(lines::ends_line) {
        match line.strip_prefix(name) {
            Some(words) => t.count(right(words) == Some(true)),
            None => t.pass(),
        }
    }
    t
}

fn report<R: Print, F: Fn(&[u8]) -> Option<bool>>(
    rt: &R,
    text: &[u8],
    name: &str,
    right: F,
) -> io::Result<()>
    requires { F.IsAlwaysCallable right }
{
    println!(rt; "{name}{}", tally(text, name.as_bytes(), right))
}

fn report_all<R: Print>(rt: &R, text: &[u8]) -> io::Result<()> {
    report(rt, text, "read_u29 ", |line| {
        Some(read_right(line, by_bytes)? && read_right(line, |s, at| Some(wire::read_u29(s, at)))?)
    })?;
    report(rt, text, "put_u29 ", |line| put_right(line, wire::put_u29))?;
    report(rt, text, "integer ", |line| {
        answer_right(line, b"", |n| Some(wire::column(wire::integer(n))))
    })?;
    report(rt, text, "integer_bits ", |line| {
        answer_right(
            line,
            b"outside\n",
            |x| wire::integer_bits(wire::of_column(x)),
        )
    })?;
    report(rt, text, "column ", column_right)?;
    report(rt, text, "read_be32 ", |line| {
        read_right(line, |s, at| Some(wire::read_be32(s, at)))
    })?;
    report(
        rt,
        text,
        "put_be32 ",
        |line| put_right(line, wire::put_be32),
    )?;
    report(rt, text, "read_be64 ", |line| {
        read_right(line, |s, at| Some(wire::read_be64(s, at)))
    })?;
    report(
        rt,
        text,
        "put_be64 ",
        |line| put_right(line, wire::put_be64),
    )?;
    report(rt, text, "millis ", |line| {
        answer_right(
            line,
            b"none\n",
            |bits| wire::moment_of(bits).map(wire::column),
        )
    })?;
    report(rt, text, "text ", text_right)
}

fn main(rt: HostRuntime) -> io::Result<()> {
    let mut text = lines::room();
    let n = lines::load(&rt, b"leaves.txt", &mut text);
    report_all(&rt, &text[..n])
}
