// What a row is asked for: its text, a part of the store, or the caller's own default; its date's milliseconds.

#![tactic(auto)]

ghost use Rattle.std.specs.Prelude.{◌≡◌, cond, eqb, Some, None};
ghost use Rattle.rows.specs.Memory.{rows_fault};
ghost use Rattle.format.specs.RowTest.{has_text};
ghost use Rattle.format.specs.Unfold.{home, part};
ghost use Rattle.format.specs.Text.{text_in, text_span, text_or, moment_in, moment_at};
ghost use Rattle.text.specs.Found.{found_of};

use rows::{Span, Table, columns, kinds};

// The kinds whose body is a text.
pub fn has_text(kind: usize) -> bool
    ensures { result ≡ has_text kind }
{
    // by comparisons: with `matches!` the test of rows before they are written was slower
    kind == kinds::STRING || kind == kinds::XML_DOCUMENT || kind == kinds::XML
}

// A reference stands for its target, another row for itself.
#[tactic(auto, unfolding(format::specs::Unfold::home))]
pub fn home_of(rows: &[usize], row: usize) -> usize
    ensures { result ≡ home rows.now row }
{
    if rows::column(rows, row, columns::KIND) == kinds::REFERENCE {
        rows::column(rows, row, columns::NUMBER)
    } else {
        row
    }
}

// The row that answers for a row, or there is none in loans that 1 refuses.
fn answering(table: Table, row: usize) -> Option<usize>
    ensures { result ≡ cond (eqb (rows_fault table.entry.rows.now table.entry.store.now) 0) (Some (home table.entry.rows.now row)) None }
{
    if table.fault().is_some() {
        return None;
    }
    Some(home_of(table.rows, row))
}

// The row has text, and its span lies in the store.
fn span_of(table: Table, row: usize) -> Option<Span>
    ensures { found_of result ≡ text_in table.entry.rows.now table.entry.store.now row }
{
    let body = table.body(row);
    let there = has_text(table.column(row, columns::KIND))
        && wire::fits(table.store.len(), body.begin, body.size);
    there.then_some(body)
}

// Where the text of a row stands in the store. A reference answers as its target.
#[tactic(auto, unfolding(format::specs::Text::text_span))]
pub fn span(table: Table, row: usize) -> Option<Span>
    ensures { found_of result ≡ text_span table.entry.rows.now table.entry.store.now row }
{
    span_of(table, answering(table, row)?)
}

// The part of the store, as far as it is there.
#[tactic(auto, unfolding(format::specs::Unfold::part))]
pub fn clip(store: &[u8], s: Span) -> &[u8]
    ensures { result.now ≡ part store.now s.begin s.size }
{
    let Some(rest) = store.get(s.begin..) else {
        return &[];
    };
    rest.get(..s.size).unwrap_or(rest)
}

// The text of a row: a part of the store, or the default where the row has none.
#[tactic(auto, unfolding(format::specs::Text::text_or))]
pub fn text<'s>(table: Table<'_, 's>, row: usize, default: &'s [u8]) -> &'s [u8]
    ensures { result.now ≡ text_or table.entry.rows.now table.entry.store.now row default.now }
{
    let Some(s) = span(table, row) else {
        return default;
    };
    clip(table.store, s)
}

// The milliseconds of a row that is a date.
fn moment_in(table: Table, row: usize) -> Option<i64>
    ensures { result ≡ moment_in table.entry.rows.now row }
{
    if table.column(row, columns::KIND) == kinds::DATE {
        wire::moment_of(table.column(row, columns::NUMBER))
    } else {
        None
    }
}

// The milliseconds of a row's date. A reference answers as its target.
#[tactic(auto, unfolding(format::specs::Text::moment_at))]
pub fn moment(table: Table, row: usize) -> Option<i64>
    ensures { result ≡ moment_at table.entry.rows.now table.entry.store.now row }
{
    moment_in(table, answering(table, row)?)
}
