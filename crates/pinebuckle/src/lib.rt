// The public calls, and the same as C has them, which the static library pinebuckle_c exports. For C numbers are 64 bits, a slice is a pointer and a count of
// elements; include/pinebuckle.h declares them.

#![tactic(auto)]

ghost use Rattle.std.specs.Prelude.{◌≡◌};
ghost use Rattle.rows.specs.Memory.{at_entry, at_exit};
ghost use Rattle.rows.specs.Lent.{memory_of, SameLoans};
ghost use Rattle.text.specs.Found.{found_of};
ghost use Rattle.pinebuckle.specs.Coding.{say_refused, code, code_of, written_code, span_code, moment_code};
ghost use Rattle.pinebuckle.specs.Calls.{BeginContract, FeedContract, EndContract, ReadContract, WriteContract, TextContract, MillisContract};
ghost use Rattle.pinebuckle.specs.Calls.{CBeginContract, CFeedContract, CEndContract, CReadContract, CWriteContract, CTextContract, CMillisContract};

// All that a caller names: the state, the calls on one by value, the loans, the answers, and the numbers of widths, columns, kinds, loans and refusals.
pub use feed::{Fed, State, begun, ended, fed_on};
pub use format::{Answer, Refusal, Written, refusals};
use rows::Span;
pub use rows::{Loans, ROW_WIDTH, SPAN_WIDTH, TRAIT_WIDTH, Table, columns, kinds, loans};

// Begins a reading: it waits for the first byte, or a loan is wrong.
pub fn begin(state: &mut State, loans: &mut Loans) -> Answer
    ensures call { BeginContract result state.new (memory_of loans.new) (memory_of loans.old) }
    ensures same { SameLoans loans.old loans.new }
{
    let out = feed::begun(loans);
    *state = out.state;
    out.answer
}

// Takes the bytes of a piece.
pub fn feed(state: &mut State, loans: &mut Loans, piece: &[u8]) -> Answer
    ensures call { FeedContract result state.new (memory_of loans.new) state.old (memory_of loans.old) piece.now }
    ensures same { SameLoans loans.old loans.new }
{
    let out = feed::fed_in(state.head, &mut state.frames, loans, piece);
    state.head = out.head;
    out.answer
}

// Declares the end of the bytes: what waits is refused with 2.
pub fn end(state: &mut State, loans: &mut Loans) -> Answer
    ensures call { EndContract result state.new (memory_of loans.new) state.old (memory_of loans.old) }
    ensures same { SameLoans loans.old loans.new }
{
    let out = feed::ended(*state, loans);
    *state = out.state;
    out.answer
}

// Reads a whole message into loans that are lent for it.
pub fn read(loans: &mut Loans, message: &[u8]) -> Answer
    ensures call { ReadContract result (memory_of loans.new) (memory_of loans.old) message.now }
    ensures same { SameLoans loans.old loans.new }
{
    whole::read(loans, message)
}

// Writes the tree of row 0 into `out`.
pub fn write(table: Table, out: &mut [u8]) -> Written
    ensures { WriteContract result out.new table.entry.rows.now table.entry.store.now out.old }
{
    writer::write(table, out)
}

// The text of a row: a part of the store, or of the default where the row has none.
pub fn text<'s>(table: Table<'_, 's>, row: usize, default: &'s [u8]) -> &'s [u8]
    ensures { TextContract result.now table.entry.rows.now table.entry.store.now row default.now }
{
    text::text(table, row, default)
}

// The milliseconds of a row's date, or none.
pub fn millis(table: Table, row: usize) -> Option<i64>
    ensures { MillisContract result table.entry.rows.now table.entry.store.now row }
{
    text::moment(table, row)
}

// ---- as C has them

// What an answer says.
const SAY_WAITING: usize = 0;

const SAY_FINISHED: usize = 1;

const SAY_REFUSED: usize = 2;

// An answer: waiting, finished or refused, with its numbers; those without meaning are 0.
#[repr(C)]
#[derive(Clone, Copy, PartialEq, Eq, Default)]
pub struct Coded {
    pub kind: usize,
    pub no: usize,
    pub told: usize,
    pub place: usize,
    pub rows: usize,
    pub bytes: usize,
    pub taken: usize,
}

// A text's span, if one was found. A flag and numbers, not an Option: C gets it.
#[repr(C)]
#[derive(Clone, Copy, PartialEq, Eq, Default)]
pub struct Place {
    pub found: usize,
    pub begin: usize,
    pub length: usize,
}

// A date's milliseconds, if one was found. A flag and a number, not an Option: C gets it.
#[repr(C)]
#[derive(Clone, Copy, PartialEq, Eq, Default)]
pub struct Instant {
    pub found: usize,
    pub millis: i64,
}

// A refusal, so many bytes taken.
fn refused(refusal: Refusal, taken: usize) -> Coded
    ensures { result ≡ code say_refused refusal.number refusal.told refusal.place 0 0 taken }
{
    Coded {
        kind: SAY_REFUSED,
        no: refusal.number,
        told: refusal.told,
        place: refusal.place,
        taken,
        ..Coded::default()
    }
}

impl From<Answer> for Coded {
    ghost from_gives = { λ a c. c ≡ code_of a };

    fn from(a: Answer) -> Coded
        ensures { result ≡ code_of a }
    {
        match a {
            Answer::Waiting { taken } => Coded {
                kind: SAY_WAITING,
                taken,
                ..Coded::default()
            },
            Answer::Finished { rows, bytes, taken } => Coded {
                kind: SAY_FINISHED,
                rows,
                bytes,
                taken,
                ..Coded::default()
            },
            Answer::Refused {
                no,
                told,
                place,
                taken,
            } => refused(
                Refusal {
                    number: no,
                    told,
                    place,
                },
                taken,
            ),
        }
    }
}

impl From<Written> for Coded {
    ghost from_gives = { λ w c. c ≡ written_code w };

    fn from(w: Written) -> Coded
        ensures { result ≡ written_code w }
    {
        match w {
            Ok(bytes) => Coded {
                kind: SAY_FINISHED,
                bytes,
                ..Coded::default()
            },
            Err(refusal) => refused(refusal, 0),
        }
    }
}

impl From<Option<Span>> for Place {
    ghost from_gives = { λ o p. p ≡ span_code (found_of o) };

    fn from(o: Option<Span>) -> Place
        ensures { result ≡ span_code (found_of o) }
    {
        match o {
            None => Place::default(),
            Some(s) => Place {
                found: 1,
                begin: s.begin,
                length: s.size,
            },
        }
    }
}

impl From<Option<i64>> for Instant {
    ghost from_gives = { λ o i. i ≡ moment_code o };

    fn from(o: Option<i64>) -> Instant
        ensures { result ≡ moment_code o }
    {
        match o {
            None => Instant {
                found: 0,
                millis: 0,
            },
            Some(millis) => Instant { found: 1, millis },
        }
    }
}

// ---- for C: the six loans stand by themselves, and each call gives its codes

// `begin`.
pub fn pb_begin(
    state: &mut State,
    rows: &mut [usize],
    store: &mut [u8],
    strings: &mut [usize],
    objects: &mut [usize],
    traits: &mut [usize],
    names: &mut [usize],
) -> Coded
    ensures { CBeginContract result state.new (at_exit rows store strings objects traits names) (at_entry rows store strings objects traits names) }
{
    let mut loans = Loans {
        rows,
        store,
        strings,
        objects,
        traits,
        names,
    };
    Coded::from(begin(state, &mut loans))
}

// `feed`.
pub fn pb_feed(
    state: &mut State,
    rows: &mut [usize],
    store: &mut [u8],
    strings: &mut [usize],
    objects: &mut [usize],
    traits: &mut [usize],
    names: &mut [usize],
    piece: &[u8],
) -> Coded
    ensures { CFeedContract result state.new (at_exit rows store strings objects traits names)
        state.old (at_entry rows store strings objects traits names) piece.now }
{
    let mut loans = Loans {
        rows,
        store,
        strings,
        objects,
        traits,
        names,
    };
    Coded::from(feed(state, &mut loans, piece))
}

// `end`.
pub fn pb_end(
    state: &mut State,
    rows: &mut [usize],
    store: &mut [u8],
    strings: &mut [usize],
    objects: &mut [usize],
    traits: &mut [usize],
    names: &mut [usize],
) -> Coded
    ensures { CEndContract result state.new (at_exit rows store strings objects traits names)
        state.old (at_entry rows store strings objects traits names) }
{
    let mut loans = Loans {
        rows,
        store,
        strings,
        objects,
        traits,
        names,
    };
    Coded::from(end(state, &mut loans))
}

// `read`.
pub fn pb_read(
    rows: &mut [usize],
    store: &mut [u8],
    strings: &mut [usize],
    objects: &mut [usize],
    traits: &mut [usize],
    names: &mut [usize],
    message: &[u8],
) -> Coded
    ensures { CReadContract result (at_exit rows store strings objects traits names) (at_entry rows store strings objects traits names) message.now }
{
    let mut loans = Loans {
        rows,
        store,
        strings,
        objects,
        traits,
        names,
    };
    Coded::from(read(&mut loans, message))
}

// `write`.
pub fn pb_write(rows: &[usize], store: &[u8], out: &mut [u8]) -> Coded
    ensures { CWriteContract result out.new rows.now store.now out.old }
{
    Coded::from(write(Table { rows, store }, out))
}

// Where the text of a row stands in the store.
pub fn pb_text(rows: &[usize], store: &[u8], row: usize) -> Place
    ensures { CTextContract result rows.now store.now row }
{
    Place::from(text::span(Table { rows, store }, row))
}

// `millis`.
pub fn pb_millis(rows: &[usize], store: &[u8], row: usize) -> Instant
    ensures { CMillisContract result rows.now store.now row }
{
    Instant::from(millis(Table { rows, store }, row))
}
