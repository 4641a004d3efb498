// Lists of vectors: their lines, the words of a line, and the tally of right and wrong ones. What a function answers is its
// definition in specs/Lines.antt.

#![tactic(auto)]

ghost use Rattle.std.specs.Prelude.{◌≡◌, ◌≤◌, ◌<◌, Some, IfSome, ◌==◌, length};
ghost use Rattle.lines.specs.Lines.{digit_at, behind_of, number_at, filled, fill_at, passed_of, tallied_of, text_of};

use std::fmt::Display;
use std::io::Read;
use std::rt::Files;
use std::{fmt, fs};

// ---- the words of a line

// The hexadecimal digit at `at`, `0` to `9` or `a` to `f`, if one stands there.
#[tactic(auto, unfolding(crate::specs::Lines::digit_of, crate::specs::Lines::digit_at))]
fn digit_at(line: &[u8], at: usize) -> Option<u8>
    ensures digit { result ≡ digit_at line.now at }
    ensures within { IfSome result (λ d. at < length line.now) }
{
    match *line.get(at)? {
        b @ b'0'..=b'9' => Some(b - b'0'),
        b @ b'a'..=b'f' => Some(b - b'a' + 10),
        _ => None,
    }
}

// The place behind the blank or line end at `at`.
#[tactic(auto, unfolding(crate::specs::Lines::behind_of))]
pub fn behind(line: &[u8], at: usize) -> usize
    ensures { result ≡ behind_of line.now at }
{
    if at < line.len() { at + 1 } else { at }
}

// The hexadecimal number at `at`, or its low 64 bits, with the place behind it and its blank. Counted by hand: where the digits end is told.
pub fn number(line: &[u8], at: usize) -> Option<(usize, usize)>
    ensures { result ≡ number_at line.now at }
{
    let mut n: usize = 0;
    let mut p = at;
    while let Some(d) = digit_at(line, p) {
        n = (n << 4usize) | usize::from(d);
        p += 1;
    }
    if p == at {
        return None;
    }
    Some((n, behind(line, p)))
}

// Puts the bytes that stand at `at`, two digits each, into `out`. The answer is how many there are, perhaps none, with the place behind them and their
// blank. Where a digit or room is missing, the bytes before it are put all the same. Counted by hand: where the
// digits end is told.
pub fn bytes(line: &[u8], at: usize, out: &mut [u8]) -> Option<(usize, usize)>
    ensures { filled result out.new ≡ fill_at line.now at out.old }
{
    let mut n: usize = 0;
    let mut p = at;
    while let Some(high) = digit_at(line, p) {
        let low = digit_at(line, p + 1)?;
        if out.len() <= n {
            return None;
        }
        out[n] = (high << 4u8) | low;
        n += 1;
        p += 2;
    }
    Some((n, behind(line, p)))
}

// ---- the lines of a text

// Room for the text of a list: fixed memory, no heap.
pub fn room() -> [u8; 500000]
    ensures { 500000 ≡ length result }
{
    [0; 500000]
}

// Reads from `file` until `text` is full, the file ends or a read fails. The answer is how many bytes were read. They are counted here, since `read_exact`
// doesn't tell how many came before the end.
fn read_full<R: Read>(file: &mut R, text: &mut [u8]) -> usize
    ensures { result ≤ length text.old }
{
    let mut done = 0;
    while done < text.len() {
        let Ok(n) = file.read(&mut text[done..]) else {
            break;
        };
        if n == 0 {
            break;
        }
        done += n;
    }
    done
}

// Says on standard error why `path` can't be read.
fn complain<R: Eprint, E: Display + Drop>(rt: &R, path: &[u8], why: E) {
    let _ = rt.eprintln(format_args!("{}: {why}", path.escape_ascii()));
}

// Reads the file at `path` into `text`, as far as there is room. The answer is how many bytes it has; 0, with a message, where it can't be read. What
// they are, a contract cannot say.
pub fn load<R: Files + Eprint>(rt: &R, path: &[u8], text: &mut [u8]) -> usize
    ensures { result ≤ length text.old }
{
    let name = match str::from_utf8(path) {
        Ok(name) => name,
        Err(why) => {
            complain(rt, path, why);
            return 0;
        }
    };
    match fs::open(rt, name) {
        Ok(mut file) => read_full(&mut file, text),
        Err(why) => {
            complain(rt, path, why);
            0
        }
    }
}

// Whether a byte ends a line.
pub fn ends_line(b: &u8) -> bool
    ensures { result ≡ (b.now == 0x0A) }
{
    *b == b'\n'
}

// ---- the tally

// How many lines were read, how many of a kind were right and how many wrong, and the number of the first wrong one. The default: before the first line.
#[derive(Clone, Copy, Default)]
pub struct Tally {
    pub lines: u64,
    pub right: u64,
    pub wrong: u64,
    pub first: Option<u64>,
}

impl Tally {
    // Goes on over a line of another kind.
    pub fn pass(&mut self)
        ensures { self.new ≡ passed_of self.old }
    {
        self.lines = self.lines.wrapping_add(1);
    }

    // Counts a line of its kind.
    #[tactic(auto, unfolding(crate::specs::Lines::tallied_of))]
    pub fn count(&mut self, right: bool)
        ensures { self.new ≡ tallied_of self.old right }
    {
        self.pass();
        if right {
            self.right = self.right.wrapping_add(1);
            return;
        }
        if self.wrong == 0 {
            self.first = Some(self.lines);
        }
        self.wrong = self.wrong.wrapping_add(1);
    }
}

// How many were right and how many wrong, and if any was wrong the number of the first such line.
impl Display for Tally {
    ghost output = { λ t. Some (text_of t) };

    fn fmt<W: fmt::Write>(&self, f: &mut fmt::Formatter<W>) -> fmt::Result {
        write!(f, "{} right, {} wrong", self.right, self.wrong)?;
        if let Some(line) = self.first {
            write!(f, ", the first in line {line}")?;
        }
        Ok(())
    }
}
