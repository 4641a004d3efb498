// The tests of rows before they are written: 13, a row is malformed, and 14, it can't be written. A small function is the definition of its name in
// crates/format/specs/RowTest.antt. `judge` goes over the rows once: each row's walk over its children keeps the least row that has not the key it is given.

#![tactic(auto)]

ghost use Rattle.std.specs.Prelude.{◌≡◌, true, eqb, ◌*◌, ◌<◌, ◌≤◌};
ghost use Rattle.rows.specs.Memory.{rows_in, col, col_end, col_key_begin, col_key_size, span};
ghost use Rattle.utf8.specs.Grammar.{valid_text};
ghost use Rattle.format.specs.Standard.{is_star};
ghost use Rattle.format.specs.Unfold.{part};
ghost use Rattle.format.specs.RowTest as t;
ghost use Rattle.judge.specs.Answers.{judged_of, given_of};
ghost use Rattle.judge.specs.Pass as pass;

use format::refusals;
use rows::{ROW_WIDTH, Span, Table, columns, kinds};

// ---- what a column may hold

// A mark, a flag or a boolean is this or 0.
const SET: usize = 1;

// The bytes of an entry of a raw vector.
const INT_BYTES: usize = 4;

const DOUBLE_BYTES: usize = 8;

// The bits of a signed number, beside its sign: of a column, and of an integer as it is written.
const INT32_BITS: u32 = 31;

const INT29_BITS: u32 = 28;

// The class of a vector that is written for none, one byte.
pub const STAR: u8 = b'*';

// ---- answers

// The least faulty row, and by which refusal.
#[derive(Clone, Copy, PartialEq, Eq)]
pub struct Fault {
    pub no: usize,
    pub row: usize,
}

// What a row is given: no key, a key, a key that is not empty.
#[derive(Clone, Copy, PartialEq, Eq)]
enum Gift {
    Keyless,
    Keyed,
    Filled,
}

// The least rows so far with a wrong mark, and with an empty key.
#[derive(Clone, Copy)]
struct Least {
    wrong: usize,
    empty: usize,
}

// The last key and the last body or class that were judged as texts.
#[derive(Clone, Copy, Default)]
struct Known {
    key: Span,
    body: Span,
}

// ---- columns by kind

fn is_raw(kind: usize) -> bool
    ensures { result ≡ t.is_raw kind }
{
    matches!(kind, kinds::INT_VECTOR..=kinds::DOUBLE_VECTOR)
}

fn has_body(kind: usize) -> bool
    ensures { result ≡ t.has_body kind }
{
    text::has_text(kind) || kind == kinds::BYTE_ARRAY || is_raw(kind)
}

fn has_class(kind: usize) -> bool
    ensures { result ≡ t.has_class kind }
{
    matches!(kind, kinds::OBJECT | kinds::OBJECT_VECTOR)
}

fn has_flag(kind: usize) -> bool
    ensures { result ≡ t.has_flag kind }
{
    matches!(kind, kinds::INT_VECTOR..=kinds::DICTIONARY)
}

fn has_number(kind: usize) -> bool
    ensures { result ≡ t.has_number kind }
{
    matches!(
        kind,
        kinds::BOOLEAN..=kinds::DOUBLE | kinds::DATE | kinds::REFERENCE
    )
}

fn has_count2(kind: usize) -> bool
    ensures { result ≡ t.has_count2 kind }
{
    matches!(kind, kinds::ARRAY | kinds::OBJECT)
}

fn has_count(kind: usize) -> bool
    ensures { result ≡ t.has_count kind }
{
    has_count2(kind) || has_flag(kind)
}

fn is_object(kind: usize) -> bool
    ensures { result ≡ t.is_object kind }
{
    matches!(kind, kinds::XML_DOCUMENT..=kinds::DICTIONARY)
}

// ---- 13: one row by itself

#[tactic(auto, unfolding(format::specs::RowTest::span_fits))]
fn span_fits(store: &[u8], s: Span) -> bool
    ensures { result ≡ t.span_fits store.now s.begin s.size }
{
    if s.size == 0 {
        s.begin == 0
    } else {
        wire::fits(store.len(), s.begin, s.size)
    }
}

#[tactic(auto, unfolding(format::specs::RowTest::mark_fits))]
fn mark_fits(store: &[u8], mark: usize, s: Span) -> bool
    ensures { result ≡ t.mark_fits store.now mark s.begin s.size }
{
    if mark == 0 {
        s.begin == 0 && s.size == 0
    } else {
        mark == SET && span_fits(store, s)
    }
}

fn meant(has: bool, v: usize) -> bool
    ensures { result ≡ t.meant has v }
{
    has || v == 0
}

// The columns of the body, or of the class.
#[tactic(auto, unfolding(crate::specs::Pass::body_fits))]
fn body_fits(table: Table, i: usize, kind: usize) -> bool
    ensures { result ≡ pass.body_fits table.entry.rows.now table.entry.store.now i kind }
{
    let mark = table.column(i, columns::CLASS_MARK);
    let body = table.body(i);
    if has_class(kind) {
        mark_fits(table.store, mark, body)
    } else {
        mark == 0 && meant(has_body(kind), body.size) && span_fits(table.store, body)
    }
}

#[tactic(auto, unfolding(crate::specs::Pass::body_fits, format::specs::RowTest::columns_fit))]
fn columns_fit(table: Table, i: usize, kind: usize) -> bool
    ensures { result ≡ t.columns_fit table.entry.rows.now table.entry.store.now i kind }
{
    let flag = table.column(i, columns::FLAG);
    body_fits(table, i, kind)
        && meant(has_flag(kind), flag)
        && flag <= SET
        && meant(has_number(kind), table.column(i, columns::NUMBER))
        && meant(has_count(kind), table.column(i, columns::COUNT))
        && meant(has_count2(kind), table.column(i, columns::COUNT2))
}

// A column as a signed number of so many bits, beside its sign.
#[tactic(auto, unfolding(format::specs::RowTest::signed_fits))]
fn signed_fits(bits: u32, n: usize) -> bool
    requires { bits < 64 }
    ensures { result ≡ t.signed_fits bits n }
{
    let top = 1usize << bits;
    n < top || usize::MAX - n < top
}

// Whether `size` is `count` times `width`, which may be too large a number.
fn is_times(size: usize, width: usize, count: usize) -> bool
    ensures { result ≡ eqb size (width * count) }
{
    width.checked_mul(count) == Some(size)
}

// A reference names an object that ended before it.
#[tactic(auto, unfolding(crate::specs::Pass::target_fits))]
fn target_fits(table: Table, i: usize, target: usize) -> bool
    ensures { result ≡ pass.target_fits table.entry.rows.now i target }
{
    target < i
        && table.column(target, columns::END) <= i
        && is_object(table.column(target, columns::KIND))
}

#[tactic(auto, unfolding(crate::specs::Pass::target_fits, format::specs::RowTest::value_fits))]
fn value_fits(table: Table, i: usize, kind: usize) -> bool
    ensures { result ≡ t.value_fits table.entry.rows.now i kind }
{
    let number = table.column(i, columns::NUMBER);
    let size = table.column(i, columns::BODY_SIZE);
    let count = table.column(i, columns::COUNT);
    match kind {
        kinds::BOOLEAN => number <= SET,
        kinds::INTEGER => signed_fits(INT32_BITS, number),
        kinds::INT_VECTOR | kinds::UINT_VECTOR => is_times(size, INT_BYTES, count),
        kinds::DOUBLE_VECTOR => is_times(size, DOUBLE_BYTES, count),
        kinds::REFERENCE => target_fits(table, i, number),
        _ => true,
    }
}

// The part of the store that is a row's key.
fn key_span(table: Table, i: usize) -> Span
    ensures { result ≡ span (col table.entry.rows.now i col_key_begin) (col table.entry.rows.now i col_key_size) }
{
    let key = table.key(i);
    Span {
        begin: key.begin,
        size: key.size,
    }
}

// All that is asked of a row but its children and its key's mark.
#[tactic(auto, unfolding(crate::specs::Pass::row_fits))]
fn row_fits(table: Table, i: usize) -> bool
    ensures { result ≡ pass.row_fits table.entry.rows.now table.entry.store.now i }
{
    // by itself and first: as a part of the expression below it was slower
    if table.column(0, columns::END) <= i {
        return false;
    }
    let kind = table.column(i, columns::KIND);
    kinds::UNDEFINED <= kind
        && kind <= kinds::REFERENCE
        && mark_fits(
            table.store,
            table.column(i, columns::KEY_MARK),
            key_span(table, i),
        )
        && columns_fit(table, i, kind)
        && value_fits(table, i, kind)
        && table.column(i, columns::END) <= table.rows.len() / ROW_WIDTH
}

// ---- a row and its children

// How many children a row has, counted up to the number of rows: as many can't end with it.
#[tactic(auto, unfolding(format::specs::RowTest::children, crate::specs::Pass::capped))]
fn children(table: Table, i: usize) -> usize
    ensures { result ≡ pass.capped (rows_in table.entry.rows.now) (t.children table.entry.rows.now i) }
{
    let count = table.column(i, columns::COUNT);
    let all = match table.column(i, columns::KIND) {
        kinds::ARRAY | kinds::OBJECT => { count.saturating_add(table.column(i, columns::COUNT2)) }
        kinds::OBJECT_VECTOR => count,
        kinds::DICTIONARY => count.saturating_add(count),
        _ => 0,
    };
    all.min(table.rows.len() / ROW_WIDTH)
}

// What a row of this kind and count gives to its child number `j`.
#[tactic(auto, unfolding(crate::specs::Pass::gives_by))]
fn gives(kind: usize, count: usize, j: usize) -> Gift
    ensures { given_of result ≡ pass.gives_by kind count j }
{
    match kind {
        kinds::ARRAY if j < count => Gift::Filled,
        kinds::OBJECT if j < count => Gift::Keyed,
        kinds::OBJECT => Gift::Filled,
        _ => Gift::Keyless,
    }
}

// Row `k` has another mark than it is given.
#[tactic(auto, unfolding(crate::specs::Pass::is_wrong))]
fn is_wrong(table: Table, k: usize, g: Gift) -> bool
    ensures { result ≡ pass.is_wrong table.entry.rows.now k (given_of g) }
{
    let asked = if matches!(g, Gift::Keyless) { 0 } else { SET };
    table.column(k, columns::KEY_MARK) != asked
}

// Row `k` has an empty key, and is given one that is not.
#[tactic(auto, unfolding(crate::specs::Pass::is_empty))]
fn is_empty(table: Table, k: usize, g: Gift) -> bool
    ensures { result ≡ pass.is_empty table.entry.rows.now k (given_of g) }
{
    matches!(g, Gift::Filled) && table.column(k, columns::KEY_SIZE) == 0
}

// The least faulty row so far, where row `k` is faulty or not.
#[tactic(auto, unfolding(crate::specs::Pass::lower))]
fn lower(faulty: bool, k: usize, least: usize) -> usize
    ensures { result ≡ pass.lower faulty k least }
{
    if faulty { least.min(k) } else { least }
}

impl Least {
    // The least rows, with row `k` looked at, which is given `g`.
    fn with(self, table: Table, k: usize, g: Gift) -> Least
        ensures { result ≡ pass.with_row table.entry.rows.now k (given_of g) self }
    {
        Least {
            wrong: lower(is_wrong(table, k, g), k, self.wrong),
            empty: lower(is_empty(table, k, g), k, self.empty),
        }
    }
}

// The children of row `i`, by the ends that they state, each looked at with what it is given: the least rows behind them, if they end with it.
#[tactic(auto, using(crate::proofs::Ways::walking))]
fn walk(table: Table, i: usize, mut least: Least) -> Option<Least>
    requires { (i < rows_in table.rows.now) × (col table.rows.now i col_end ≤ rows_in table.rows.now) }
    ensures { result ≡ pass.walk_of table.entry.rows.now i least }
{
    let kind = table.column(i, columns::KIND);
    let count = table.column(i, columns::COUNT);
    let stop = table.column(i, columns::END);
    let n = children(table, i);
    let mut k = i + 1;
    for j in 0..n {
        let next = table.column(k, columns::END);
        if next <= k || stop < next {
            return None;
        }
        least = least.with(table, k, gives(kind, count, j));
        k = next;
    }
    (k == stop).then_some(least)
}

// ---- 14

// Whether a part of the store is valid text; `known` is, and not judged again.
fn is_text(store: &[u8], s: Span, known: Span) -> bool
    requires { valid_text (part store.now known.begin known.size) ≡ true }
    ensures { result ≡ valid_text (part store.now s.begin s.size) }
{
    s == known || utf8::valid(text::clip(store, s))
}

fn is_star(s: &[u8]) -> bool
    ensures { result ≡ is_star s.now }
{
    matches!(s, [STAR])
}

#[tactic(auto, unfolding(format::specs::RowTest::number_writable))]
fn number_writable(table: Table, i: usize, kind: usize) -> bool
    ensures { result ≡ t.number_writable table.entry.rows.now i kind }
{
    let number = table.column(i, columns::NUMBER);
    match kind {
        kinds::INTEGER => signed_fits(INT29_BITS, number),
        kinds::DATE => wire::is_date(number),
        _ => true,
    }
}

// `known` is valid text.
#[tactic(auto, unfolding(format::specs::RowTest::body_writable))]
fn body_writable(table: Table, i: usize, kind: usize, known: Span) -> bool
    requires { valid_text (part table.store.now known.begin known.size) ≡ true }
    ensures { result ≡ t.body_writable table.entry.rows.now table.entry.store.now i kind }
{
    let body = table.body(i);
    // by returns: as one expression it was slower
    if text::has_text(kind) {
        return is_text(table.store, body, known);
    }
    if !has_class(kind) || table.column(i, columns::CLASS_MARK) != SET {
        return true;
    }
    if kind == kinds::OBJECT {
        return is_text(table.store, body, known) && 0 < body.size;
    }
    is_text(table.store, body, known) && !is_star(text::clip(table.store, body))
}

// All that is asked of a row that is well formed, but that its key is not empty where it is given so. What is known is valid text.
#[tactic(auto, unfolding(crate::specs::Pass::row_writable))]
fn row_writable(table: Table, i: usize, known: Known) -> bool
    requires { pass.Valid table.store.now known }
    ensures { result ≡ pass.row_writable table.entry.rows.now table.entry.store.now i }
{
    let kind = table.column(i, columns::KIND);
    number_writable(table, i, kind)
        && body_writable(table, i, kind, known.body)
        && is_text(table.store, key_span(table, i), known.key)
}

// The last key that was judged, behind row `i`.
#[tactic(auto, unfolding(crate::specs::Pass::last_key))]
fn last_key(table: Table, i: usize, known: Span) -> Span
    ensures { result ≡ pass.last_key table.entry.rows.now i known }
{
    let key = key_span(table, i);
    if key.size == 0 { known } else { key }
}

// The last body or class that was judged as a text, behind row `i`.
#[tactic(auto, unfolding(crate::specs::Pass::last_body))]
fn last_body(table: Table, i: usize, known: Span) -> Span
    ensures { result ≡ pass.last_body table.entry.rows.now i known }
{
    let kind = table.column(i, columns::KIND);
    if text::has_text(kind) || has_class(kind) && table.column(i, columns::CLASS_MARK) == SET {
        table.body(i)
    } else {
        known
    }
}

// ---- all rows

// Each row in its turn: 13, then 14.
#[tactic(auto, using(crate::proofs::Ways::passing))]
pub fn judge(table: Table) -> Result<(), Fault>
    ensures { judged_of result ≡ t.tested table.entry.rows.now table.entry.store.now }
{
    let n = table.rows.len() / ROW_WIDTH;
    if n == 0 {
        return Err(Fault {
            no: refusals::MALFORMED,
            row: 0,
        });
    }
    let mut least = Least { wrong: n, empty: n }.with(table, 0, Gift::Keyless);
    let mut known = Known::default();
    for i in 0..n {
        let malformed = Fault {
            no: refusals::MALFORMED,
            row: i,
        };
        if least.wrong == i || !row_fits(table, i) {
            return Err(malformed);
        }
        let next = walk(table, i, least).ok_or(malformed)?;
        if least.empty == i || !row_writable(table, i, known) {
            return Err(Fault {
                no: refusals::UNWRITABLE,
                row: i,
            });
        }
        least = next;
        known = Known {
            key: last_key(table, i, known.key),
            body: last_body(table, i, known.body),
        };
    }
    Ok(())
}
