// Reads one value from standard input by 4,096 bytes and lists its rows on standard output, or says why it is refused.

#![tactic(auto)]

ghost use Rattle.std.specs.Prelude.{◌≡◌};
ghost use Rattle.amfrows.specs.Taken.{waiting, taken_of, with_taken};

use feed::{Fed, State};
use format::Answer;
use rows::{Loans, MESSAGE_LIMIT, Table};
use std::io;
use std::io::Read;

// A message has at most 262,144 bytes, and a reading that waits has taken one or more from each piece. So this many pieces, or the end of the input
// before that, end every reading.
const MOST_PIECES: usize = MESSAGE_LIMIT + 1;

// ---- answers

// Whether more bytes are wanted.
#[tactic(auto, unfolding(crate::specs::Taken::waiting))]
fn waits(a: Answer) -> bool
    ensures { result ≡ waiting a }
{
    matches!(a, Answer::Waiting { .. })
}

// The bytes taken.
#[tactic(auto, unfolding(crate::specs::Taken::taken_of))]
fn taken_of(a: Answer) -> usize
    ensures { result ≡ taken_of a }
{
    match a {
        Answer::Waiting { taken }
        | Answer::Finished { taken, .. }
        | Answer::Refused { taken, .. } => taken,
    }
}

// The answer with another count of bytes taken.
#[tactic(auto, unfolding(crate::specs::Taken::with_taken))]
fn with_taken(a: Answer, taken: usize) -> Answer
    ensures { result ≡ with_taken a taken }
{
    match a {
        Answer::Waiting { .. } => Answer::Waiting { taken },
        Answer::Finished { rows, bytes, .. } => Answer::Finished { rows, bytes, taken },
        Answer::Refused {
            no,
            told,
            place,
            ..
        } => Answer::Refused {
            no,
            told,
            place,
            taken,
        },
    }
}

// ---- reading

// The state fed with the next piece of `input`. At the end of the input, which a read that fails is too, that is declared.
fn go_on<R: Read>(input: &mut R, s: State, loans: &mut Loans) -> Fed {
    let mut piece = [0u8; 4096];
    match input.read(&mut piece) {
        Ok(n) if 0 < n => feed::fed_on(s, loans, &piece[..n]),
        _ => feed::ended(s, loans),
    }
}

// The answer to all of `input`, with the bytes taken from all pieces.
fn read_input<R: Read>(input: &mut R, loans: &mut Loans) -> Answer {
    let mut f = feed::begun(loans);
    let mut taken: usize = 0;
    for _ in 0..MOST_PIECES {
        if !waits(f.answer) {
            break;
        }
        f = go_on(input, f.state, loans);
        taken = taken.wrapping_add(taken_of(f.answer));
    }
    with_taken(f.answer, taken)
}

// ---- the program

// The listing. A reading whose input has ended waits no more.
fn list<R: Print>(rt: &R, a: Answer, table: Table) -> io::Result<()> {
    match a {
        Answer::Waiting { .. } => Ok(()),
        Answer::Finished {
            rows: n,
            bytes,
            taken,
        } => listing::print_finished(rt, table, n, bytes, taken),
        Answer::Refused {
            no,
            told,
            place,
            ..
        } => listing::print_refused(rt, no, told, place),
    }
}

// Lends 512 rows, 16,384 bytes, and 256 entries for each other loan. Fixed memory, no heap.
fn main(rt: HostRuntime) -> io::Result<()> {
    let mut rows = [0usize; 6144];
    let mut store = [0u8; 16384];
    let mut strings = [0usize; 512];
    let mut objects = [0usize; 256];
    let mut traits = [0usize; 1280];
    let mut names = [0usize; 512];
    let mut loans = Loans {
        rows: &mut rows,
        store: &mut store,
        strings: &mut strings,
        objects: &mut objects,
        traits: &mut traits,
        names: &mut names,
    };
    let a = read_input(&mut rt.stdin(), &mut loans);
    let table = Table {
        rows: &rows,
        store: &store,
    };
    list(&rt, a, table)
}
