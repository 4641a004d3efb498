// What each public call answers, from a program over pinebuckle alone. The array of two "a" is read in two pieces, with a state that is lent to begin, feed
// and end, and whole; its texts are asked for, and it is written again; a date is asked for its milliseconds; loans of wrong lengths and an early end are
// refused. Each answer is a line of standard output.

#![tactic(auto)]

ghost use Rattle.rows.specs.Lent.{memory_of, SameLoans};
ghost use Rattle.pinebuckle.specs.Calls.{BeginContract, FeedContract, EndContract};

use pinebuckle::{
    Answer, Fed, Loans, ROW_WIDTH, Refusal, SPAN_WIDTH, State, TRAIT_WIDTH, Table, Written,
    columns, kinds,
};
use std::io;

// The numbers of the rows of the array and its two strings, of one row more, and one number less.
const EXACT: usize = 3 * ROW_WIDTH;

const ROOMY: usize = EXACT + ROW_WIDTH;

const UNEVEN: usize = EXACT - 1;

// Bytes of the store and of what is written.
const BYTES: usize = 16;

// The numbers of the other loans: four strings, objects and names, and two traits.
const SPANS: usize = 4 * SPAN_WIDTH;

const OBJECTS: usize = 4;

const TRAITS: usize = 2 * TRAIT_WIDTH;

// The rows of the array and of its first string.
const ARRAY: usize = 0;

const FIRST_STRING: usize = 1;

// The bits of -1.0, a millisecond before 1970.
const MINUS_ONE: usize = 0xbff0_0000_0000_0000;

// ---- what is printed

// Prints a text as it is.
fn say<R: Print>(rt: &R, text: &[u8]) -> io::Result<()> {
    rt.write_all(text)
}

// Prints a reading's answer as a line.
fn say_answer<R: Print>(rt: &R, a: Answer) -> io::Result<()> {
    match a {
        Answer::Waiting { taken } => println!(rt; "waiting {taken}"),
        Answer::Finished { rows, bytes, taken } => println!(rt; "finished {rows} {bytes} {taken}"),
        Answer::Refused {
            no,
            told,
            place,
            taken,
        } => println!(rt; "refused {no} {told} {place} {taken}"),
    }
}

// Prints a writing's answer as a line: a refusal's number, the value that it tells and its place.
fn say_written<R: Print>(rt: &R, w: Written) -> io::Result<()> {
    match w {
        Ok(n) => println!(rt; "written {n}"),
        Err(
            Refusal {
                number,
                told,
                place,
            },
        ) => println!(rt; "unwritten {number} {told} {place}"),
    }
}

// Prints the text of a row as a line, or that it has none.
fn say_text<R: Print>(rt: &R, table: Table, row: usize) -> io::Result<()> {
    say(rt, pinebuckle::text(table, row, b"none"))?;
    say(rt, b"\n")
}

// Prints as a line on which side of 1970 the date of a row is, or that it has none.
fn say_millis<R: Print>(rt: &R, table: Table, row: usize) -> io::Result<()> {
    match pinebuckle::millis(table, row) {
        None => say(rt, b"none\n"),
        Some(millis) if millis < 0 => say(rt, b"before 1970\n"),
        Some(_) => say(rt, b"since 1970\n"),
    }
}

// Prints an answer, and gives the state that comes with it.
fn told<R: Print>(rt: &R, f: Fed) -> io::Result<State> {
    say_answer(rt, f.answer)?;
    Ok(f.state)
}

// ---- the calls on a state that is lent: each function makes one, and promises what it does

// Begins a reading: whatever the state was, it is made anew.
fn lent_begin(mut state: State, loans: &mut Loans) -> Fed
    ensures call { BeginContract result.answer result.state (memory_of loans.new) (memory_of loans.old) }
    ensures same { SameLoans loans.old loans.new }
{
    let answer = pinebuckle::begin(&mut state, loans);
    Fed { state, answer }
}

// Feeds a piece.
fn lent_feed(mut state: State, loans: &mut Loans, piece: &[u8]) -> Fed
    ensures call { FeedContract result.answer result.state (memory_of loans.new) state (memory_of loans.old) piece.now }
    ensures same { SameLoans loans.old loans.new }
{
    let answer = pinebuckle::feed(&mut state, loans, piece);
    Fed { state, answer }
}

// Declares the end.
fn lent_end(mut state: State, loans: &mut Loans) -> Fed
    ensures call { EndContract result.answer result.state (memory_of loans.new) state (memory_of loans.old) }
    ensures same { SameLoans loans.old loans.new }
{
    let answer = pinebuckle::end(&mut state, loans);
    Fed { state, answer }
}

// ---- the readings

// Reads the array whole.
fn read<R: Print>(rt: &R, loans: &mut Loans) -> io::Result<()> {
    let a = pinebuckle::read(loans, b"\x09\x05\x01\x06\x03a\x06\x00");
    say_answer(rt, a)
}

// Writes the tree of the rows.
fn write<R: Print>(rt: &R, table: Table) -> io::Result<()> {
    let mut out = [0u8; BYTES];
    let w = pinebuckle::write(table, &mut out);
    say_written(rt, w)
}

// The array in two pieces, the first up to inside of a string: it waits, finishes, and repeats its answer at the end.
fn read_pieces<R: Print>(rt: &R, loans: &mut Loans) -> io::Result<State> {
    let first = told(rt, pinebuckle::begun(loans))?;
    let begun = told(rt, lent_begin(first, loans))?;
    let inside = told(rt, lent_feed(begun, loans, b"\x09\x05\x01\x06\x03"))?;
    let finished = told(rt, lent_feed(inside, loans, b"a\x06\x00"))?;
    told(rt, lent_end(finished, loans))
}

// Fewer rows lent than at the beginning are refused with 12, the end of a state that has only begun with 2, and rows of no whole count with 1.
fn refuse<R: Print>(
    rt: &R,
    s: State,
    loans: &mut Loans,
    fewer: &mut [usize],
    uneven: &mut [usize],
) -> io::Result<()> {
    let begun = told(rt, lent_begin(s, loans))?;
    let mut short = Loans {
        rows: fewer,
        store: &mut *loans.store,
        strings: &mut *loans.strings,
        objects: &mut *loans.objects,
        traits: &mut *loans.traits,
        names: &mut *loans.names,
    };
    told(rt, lent_feed(begun, &mut short, b"\x09"))?;
    told(rt, lent_end(begun, loans))?;
    let mut wrong = Loans {
        rows: uneven,
        store: &mut *loans.store,
        strings: &mut *loans.strings,
        objects: &mut *loans.objects,
        traits: &mut *loans.traits,
        names: &mut *loans.names,
    };
    read(rt, &mut wrong)
}

// The texts of the first string and of the array, which has none, and the array written again.
fn show<R: Print>(rt: &R, table: Table) -> io::Result<()> {
    say_text(rt, table, FIRST_STRING)?;
    say_text(rt, table, ARRAY)?;
    write(rt, table)
}

// A row that is a date a millisecond before 1970, and the array, which is none.
fn show_dates<R: Print>(rt: &R, table: Table) -> io::Result<()> {
    let mut date = [0usize; ROW_WIDTH];
    date[columns::KIND] = kinds::DATE;
    date[columns::NUMBER] = MINUS_ONE;
    let dated = Table {
        rows: &date,
        store: table.store,
    };
    say_millis(rt, dated, 0)?;
    say_millis(rt, table, ARRAY)
}

// Lends rows with one to spare, exactly as many, and a number less, which writing refuses with 1 too. Fixed memory, no
// heap.
fn main(rt: HostRuntime) -> io::Result<()> {
    let mut roomy = [0usize; ROOMY];
    let mut exact = [0usize; EXACT];
    let mut uneven = [0usize; UNEVEN];
    let mut store = [0u8; BYTES];
    let mut strings = [0usize; SPANS];
    let mut objects = [0usize; OBJECTS];
    let mut traits = [0usize; TRAITS];
    let mut names = [0usize; SPANS];
    let mut loans = Loans {
        rows: &mut roomy,
        store: &mut store,
        strings: &mut strings,
        objects: &mut objects,
        traits: &mut traits,
        names: &mut names,
    };
    let s = read_pieces(&rt, &mut loans)?;
    refuse(&rt, s, &mut loans, &mut exact, &mut uneven)?;
    let mut loans = Loans {
        rows: &mut exact,
        store: &mut store,
        strings: &mut strings,
        objects: &mut objects,
        traits: &mut traits,
        names: &mut names,
    };
    read(&rt, &mut loans)?;
    let table = Table {
        rows: &exact,
        store: &store,
    };
    show(&rt, table)?;
    show_dates(&rt, table)?;
    write(
        &rt,
        Table {
            rows: &uneven,
            store: &store,
        },
    )
}
