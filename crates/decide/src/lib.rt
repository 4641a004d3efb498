// Every decision of a reading: each takes only the loans that it touches, and is the definition of the same name. The cursor's place is already past the
// byte that is decided on.

#![tactic(auto)]

ghost use Rattle.std.specs.Prelude.{◌≡◌, cond, List, [], ◌∷◌, ℕ, ◌+◌, ◌-◌, ◌*◌, ◌/◌, ◌<◌, ltb, eqb, length};
ghost use Rattle.std.proofs.lemmas.List.Edits.{sets};
ghost use Rattle.wire.specs.Put.{with1};
ghost use Rattle.rows.specs.Memory.{span_width};
ghost use Rattle.format.specs.Decide as d;
ghost use Rattle.format.specs.Refusals as no;
ghost use Rattle.decide.specs.Outcomes.{leaving, answer_in, done_of, out_of, old_object, referred_to, width_in, kind_in, body_in, body_no};

use format::{Refusal, refusals};
use rows::{
    Cursor, Key, ROW_WIDTH, Row, SPAN_SIZE, SPAN_WIDTH, Span, TRAIT_COUNT, TRAIT_DYNAMIC,
    TRAIT_FIRST, TRAIT_SIZE, TRAIT_WIDTH, Trait, columns, kinds, loans,
};
use wire::markers;

// ---- markers, as numbers

const MARKER_TRUE: usize = markers::TRUE as usize;

const MARKER_INTEGER: usize = markers::INTEGER as usize;

const MARKER_DOUBLE: usize = markers::DOUBLE as usize;

const MARKER_STRING: usize = markers::STRING as usize;

const MARKER_DATE: usize = markers::DATE as usize;

const MARKER_ARRAY: usize = markers::ARRAY as usize;

const MARKER_OBJECT: usize = markers::OBJECT as usize;

const MARKER_BYTE_ARRAY: usize = markers::BYTE_ARRAY as usize;

const MARKER_DOUBLE_VECTOR: usize = markers::DOUBLE_VECTOR as usize;

const MARKER_OBJECT_VECTOR: usize = markers::OBJECT_VECTOR as usize;

const MARKER_DICTIONARY: usize = markers::DICTIONARY as usize;

const MARKER_LAST: usize = MARKER_DICTIONARY;

// The bytes of a raw vector's entry.
#[derive(Clone, Copy, PartialEq, Eq)]
pub enum Width {
    Four,
    Eight,
}

// What follows a marker: nothing; a U29; eight bytes; a string; an object word; or a size word, and of what.
#[derive(Clone, Copy, PartialEq, Eq)]
pub enum Kind {
    Leaf,
    Integer,
    Double,
    String,
    Object,
    Sized(Body),
}

// What the size word of a value is of.
#[derive(Clone, Copy, PartialEq, Eq)]
pub enum Body {
    Xml,
    Date,
    Array,
    Bytes,
    Objects,
    Dictionary,
    RawFour,
    RawEight,
}

// ---- refusals

// The state doesn't hold together.
pub fn lost() -> Refusal
    ensures { result ≡ record { number = no.lost; told = 0; place = 0 } }
{
    Refusal {
        number: refusals::LOST,
        told: 0,
        place: 0,
    }
}

// A refusal at the byte taken last.
pub fn refuse(c: Cursor, number: usize, told: usize) -> Refusal
    ensures { result ≡ record { number = number; told = told; place = c.at } }
{
    Refusal {
        number,
        told,
        place: c.at,
    }
}

// ---- markers

// What follows a marker.
pub fn kind_of(b: usize) -> Kind
    ensures { kind_in result ≡ d.kind_of b }
{
    if b < MARKER_INTEGER {
        return Kind::Leaf;
    }
    if MARKER_LAST < b {
        return Kind::Leaf;
    }
    if b == MARKER_INTEGER {
        return Kind::Integer;
    }
    if b == MARKER_DOUBLE {
        return Kind::Double;
    }
    if b == MARKER_STRING {
        return Kind::String;
    }
    if b == MARKER_OBJECT {
        return Kind::Object;
    }
    Kind::Sized(body_of(b))
}

// What the size word after a marker is of: where it is of none, XML.
fn body_of(b: usize) -> Body
    ensures { body_in result ≡ body_no b }
{
    if b < MARKER_DATE {
        return Body::Xml;
    }
    if b == MARKER_DATE {
        return Body::Date;
    }
    if b == MARKER_ARRAY {
        return Body::Array;
    }
    if b < MARKER_BYTE_ARRAY {
        return Body::Xml;
    }
    if b == MARKER_BYTE_ARRAY {
        return Body::Bytes;
    }
    if b < MARKER_DOUBLE_VECTOR {
        return Body::RawFour;
    }
    if b == MARKER_DOUBLE_VECTOR {
        return Body::RawEight;
    }
    if b == MARKER_OBJECT_VECTOR {
        return Body::Objects;
    }
    if b == MARKER_DICTIONARY {
        return Body::Dictionary;
    }
    Body::Xml
}

// The kind of a marker's row: false and true have one.
fn row_kind(b: usize) -> usize
    ensures { result ≡ cond (ltb b 3) (b + 1) b }
{
    if b < MARKER_TRUE { b + 1 } else { b }
}

// Whether a marker is true.
fn leaf_number(b: usize) -> usize
    ensures { result ≡ cond (eqb b 3) 1 0 }
{
    usize::from(b == MARKER_TRUE)
}

// Undefined, null, false and true end with their marker.
fn leaf_end(b: usize, next: usize) -> usize
    ensures { result ≡ cond (ltb b 4) next 0 }
{
    if b < MARKER_INTEGER { next } else { 0 }
}

// A marker where `left` values may still open.
pub fn marker(
    rows: &mut [usize],
    c: Cursor,
    key: Key,
    left: usize,
    b: usize,
) -> Result<(usize, Cursor), Refusal>
    ensures { with1 (out_of result) rows.new ≡ leaving rows.old (d.marker key left b rows.old c) }
{
    let used = c.rows;
    if rows.len() / ROW_WIDTH < used {
        return Err(lost());
    }
    if MARKER_LAST < b {
        return Err(refuse(c, refusals::BAD_MARKER, b));
    }
    if left == 0 {
        return Err(refuse(c, refusals::TOO_DEEP, 0));
    }
    if rows.len() / ROW_WIDTH <= used {
        return Err(refuse(c, refusals::NO_ROOM, loans::ROWS));
    }
    let next = used + 1;
    rows::put_row(
        rows,
        used,
        Row {
            kind: row_kind(b),
            key,
            body: Span { begin: 0, size: 0 },
            class: 0,
            flag: 0,
            number: leaf_number(b),
            count: 0,
            count2: 0,
            end: leaf_end(b, next),
        },
    );
    let mut after = c;
    after.rows = next;
    Ok((used, after))
}

// ---- a row goes on

// It ends where the rows now end.
pub fn closed(rows: &mut [usize], c: Cursor, row: usize) -> Result<Cursor, Refusal>
    ensures { with1 (done_of result) rows.new ≡ leaving rows.old (d.closed row rows.old c) }
{
    if rows::row_used(rows.len(), c.rows, row) {
        rows[row * ROW_WIDTH + columns::END] = c.rows;
        return Ok(c);
    }
    Err(lost())
}

// Its number is whole, and it ends.
pub fn numbered(rows: &mut [usize], c: Cursor, row: usize, n: usize) -> Result<Cursor, Refusal>
    ensures { with1 (done_of result) rows.new ≡ leaving rows.old (d.numbered row n rows.old c) }
{
    if rows::row_used(rows.len(), c.rows, row) {
        rows[row * ROW_WIDTH + columns::NUMBER] = n;
        rows[row * ROW_WIDTH + columns::END] = c.rows;
        return Ok(c);
    }
    Err(lost())
}

// An integer's U29 is whole.
pub fn integer_end(rows: &mut [usize], c: Cursor, row: usize, w: usize) -> Result<Cursor, Refusal>
    ensures { with1 (done_of result) rows.new ≡ leaving rows.old (d.integer_end row w rows.old c) }
{
    numbered(rows, c, row, wire::column(wire::integer(w)))
}

// A date's eight bytes are whole.
pub fn date_end(rows: &mut [usize], c: Cursor, row: usize, bits: usize) -> Result<Cursor, Refusal>
    ensures { with1 (done_of result) rows.new ≡ leaving rows.old (d.date_end row bits rows.old c) }
{
    if !rows::row_used(rows.len(), c.rows, row) {
        return Err(lost());
    }
    if wire::is_date(bits) {
        return numbered(rows, c, row, bits);
    }
    Err(refuse(c, refusals::BAD_DATE, bits))
}

// The row's body.
pub fn bodied(rows: &mut [usize], c: Cursor, row: usize, s: Span) -> Result<Cursor, Refusal>
    ensures { with1 (done_of result) rows.new ≡ leaving rows.old (d.bodied row s rows.old c) }
{
    if rows::row_used(rows.len(), c.rows, row) {
        rows[row * ROW_WIDTH + columns::BODY_BEGIN] = s.begin;
        rows[row * ROW_WIDTH + columns::BODY_SIZE] = s.size;
        return Ok(c);
    }
    Err(lost())
}

// A class, or mark 0 and no span.
fn classed(
    rows: &mut [usize],
    c: Cursor,
    row: usize,
    mark: usize,
    s: Span,
) -> Result<Cursor, Refusal>
    ensures { with1 (done_of result) rows.new ≡ leaving rows.old (d.classed row mark s rows.old c) }
{
    if rows::row_used(rows.len(), c.rows, row) {
        rows[row * ROW_WIDTH + columns::CLASS_MARK] = mark;
        rows[row * ROW_WIDTH + columns::BODY_BEGIN] = s.begin;
        rows[row * ROW_WIDTH + columns::BODY_SIZE] = s.size;
        return Ok(c);
    }
    Err(lost())
}

// An object's class: an empty one is none.
pub fn object_class(rows: &mut [usize], c: Cursor, row: usize, t: Trait) -> Result<Cursor, Refusal>
    ensures { with1 (done_of result) rows.new ≡ leaving rows.old (d.object_class row t rows.old c) }
{
    let s = Span {
        begin: t.begin,
        size: t.size,
    };
    if t.size == 0 {
        return classed(rows, c, row, 0, s);
    }
    classed(rows, c, row, 1, s)
}

// A vector's class: `*` is none.
pub fn vector_class(
    rows: &mut [usize],
    c: Cursor,
    row: usize,
    star: bool,
    s: Span,
) -> Result<Cursor, Refusal>
    ensures { with1 (done_of result) rows.new ≡ leaving rows.old (d.vector_class row star s rows.old c) }
{
    if star {
        return classed(rows, c, row, 0, Span { begin: 0, size: 0 });
    }
    classed(rows, c, row, 1, s)
}

// A flag byte: fixed is any but 0.
pub fn fixed(b: usize) -> usize
    ensures { result ≡ d.fixed b }
{
    usize::from(b != 0)
}

// A flag byte: weak is only 1.
pub fn weak(b: usize) -> usize
    ensures { result ≡ d.weak b }
{
    usize::from(b == 1)
}

// A row's flag.
pub fn flagged(rows: &mut [usize], c: Cursor, row: usize, flag: usize) -> Result<Cursor, Refusal>
    ensures { with1 (done_of result) rows.new ≡ leaving rows.old (d.flagged row flag rows.old c) }
{
    if rows::row_used(rows.len(), c.rows, row) {
        rows[row * ROW_WIDTH + columns::FLAG] = flag;
        return Ok(c);
    }
    Err(lost())
}

// An entry is finished, after `done` others, each with a row of its own. A column past the rows is nowhere, and nothing is written.
pub fn counted(
    rows: &mut [usize],
    c: Cursor,
    row: usize,
    col: usize,
    done: usize,
) -> Result<Cursor, Refusal>
    ensures { with1 (done_of result) rows.new ≡ leaving rows.old (d.counted row col done rows.old c) }
{
    if c.rows <= done {
        return Err(lost());
    }
    if !rows::row_used(rows.len(), c.rows, row) {
        return Err(lost());
    }
    if rows.len() - row * ROW_WIDTH <= col {
        return Ok(c);
    }
    rows[row * ROW_WIDTH + col] = done + 1;
    Ok(c)
}

// A dictionary's key is finished, after `done` pairs.
pub fn key_end(rows: &[usize], c: Cursor, row: usize, done: usize) -> Result<(), Refusal>
    ensures { answer_in result c ≡ d.key_end row done rows.now c }
{
    if c.rows <= done {
        return Err(lost());
    }
    if rows::row_used(rows.len(), c.rows, row) {
        return Ok(());
    }
    Err(lost())
}

// The bytes of an entry.
pub fn width_of(w: Width) -> usize
    ensures { result ≡ d.width_of (width_in w) }
{
    match w {
        Width::Four => 4,
        Width::Eight => 8,
    }
}

// What is left of `size` without `n`: nothing where `n` is more.
fn without(size: usize, n: usize) -> usize
    ensures { result ≡ size - n }
{
    size.saturating_sub(n)
}

// `n` bytes of a raw vector are still to come.
pub fn grown(
    rows: &mut [usize],
    c: Cursor,
    row: usize,
    w: Width,
    s: Span,
    n: usize,
) -> Result<Cursor, Refusal>
    ensures { with1 (done_of result) rows.new ≡ leaving rows.old (d.grown row (width_in w) s n rows.old c) }
{
    if rows::row_used(rows.len(), c.rows, row) {
        rows[row * ROW_WIDTH + columns::COUNT] = without(s.size, n) / width_of(w);
        return Ok(c);
    }
    Err(lost())
}

// ---- texts and bytes

// Text `i` of the strings.
pub fn old_text(strings: &[usize], c: Cursor, i: usize) -> Result<Span, Refusal>
    ensures { answer_in result c ≡ d.old_text i strings.now c }
{
    if strings.len() / SPAN_WIDTH < c.strings {
        return Err(lost());
    }
    if c.strings <= i {
        return Err(refuse(c, refusals::NO_ENTRY, i));
    }
    let begin = strings[i * SPAN_WIDTH];
    let size = strings[i * SPAN_WIDTH + SPAN_SIZE];
    if wire::fits(c.store, begin, size) {
        return Ok(Span { begin, size });
    }
    Err(lost())
}

// Room for `n` bytes in a store of `len` is reserved before they come.
pub fn reserved(len: usize, c: Cursor, n: usize) -> Result<(Span, Cursor), Refusal>
    ensures { (B : List ℕ) → length B ≡ len → out_of result ≡ d.reserved n B c }
{
    let used = c.store;
    if len < used {
        return Err(lost());
    }
    if wire::fits(len, used, n) {
        let mut after = c;
        after.store = used + n;
        return Ok((
            Span {
                begin: used,
                size: n,
            },
            after,
        ));
    }
    Err(refuse(c, refusals::NO_ROOM, loans::STORE))
}

// A byte of a span, `n` more to come after it.
pub fn stored(store: &mut [u8], c: Cursor, s: Span, n: usize, b: u8) -> Result<Cursor, Refusal>
    ensures { with1 (done_of result) store.new ≡ leaving store.old (d.stored s n b store.old c) }
{
    if store.len() < c.store {
        return Err(lost());
    }
    if s.size <= n {
        return Err(lost());
    }
    if wire::fits(c.store, s.begin, s.size) {
        store[s.begin + (s.size - (n + 1))] = b;
        return Ok(c);
    }
    Err(lost())
}

// A text's last byte: the verdict on it.
pub fn judged(c: Cursor, valid: bool) -> Result<(), Refusal>
    ensures { answer_in result c ≡ d.judged valid c }
{
    if valid {
        return Ok(());
    }
    Err(refuse(c, refusals::BAD_TEXT, 0))
}

// Span `i` of a table of spans.
fn put_span(table: &mut [usize], i: usize, s: Span)
    requires { i < length table.old / span_width }
    ensures { table.new ≡ sets table.old (i * span_width) (s.begin ∷ s.size ∷ []) }
{
    table[i * SPAN_WIDTH] = s.begin;
    table[i * SPAN_WIDTH + SPAN_SIZE] = s.size;
}

// A text's last byte, where it enters the strings.
pub fn text_end(
    strings: &mut [usize],
    c: Cursor,
    s: Span,
    valid: bool,
) -> Result<(Span, Cursor), Refusal>
    ensures { with1 (out_of result) strings.new ≡ leaving strings.old (d.text_end s valid strings.old c) }
{
    let used = c.strings;
    if strings.len() / SPAN_WIDTH < used {
        return Err(lost());
    }
    if !valid {
        return Err(refuse(c, refusals::BAD_TEXT, 0));
    }
    if strings.len() / SPAN_WIDTH <= used {
        return Err(refuse(c, refusals::NO_ROOM, loans::STRINGS));
    }
    put_span(strings, used, s);
    let mut after = c;
    after.strings = used + 1;
    Ok((s, after))
}

// ---- objects

// `row` enters the objects.
pub fn entered(objects: &mut [usize], c: Cursor, row: usize) -> Result<Cursor, Refusal>
    ensures { with1 (done_of result) objects.new ≡ leaving objects.old (d.entered row objects.old c) }
{
    let used = c.objects;
    if c.rows <= row {
        return Err(lost());
    }
    if objects.len() < used {
        return Err(lost());
    }
    if objects.len() <= used {
        return Err(refuse(c, refusals::NO_ROOM, loans::OBJECTS));
    }
    objects[used] = row;
    let mut after = c;
    after.objects = used + 1;
    Ok(after)
}

// Object `i` of the objects: its row.
pub fn old_object(objects: &[usize], c: Cursor, i: usize) -> Result<usize, Refusal>
    ensures { answer_in result c ≡ old_object i objects.now c }
{
    if objects.len() < c.objects {
        return Err(lost());
    }
    if c.objects <= i {
        return Err(refuse(c, refusals::NO_ENTRY, i));
    }
    Ok(objects[i])
}

// `row` becomes a reference to object `i`, whose row is `object`.
pub fn referred(
    rows: &mut [usize],
    c: Cursor,
    row: usize,
    i: usize,
    object: usize,
) -> Result<Cursor, Refusal>
    ensures { with1 (done_of result) rows.new ≡ leaving rows.old (referred_to row i object rows.old c) }
{
    if !rows::row_used(rows.len(), c.rows, object) {
        return Err(lost());
    }
    let end = rows::column(rows, object, columns::END);
    if c.rows < end {
        return Err(lost());
    }
    if end == 0 {
        return Err(refuse(c, refusals::OPEN_OBJECT, i));
    }
    if rows::row_used(rows.len(), c.rows, row) {
        rows[row * ROW_WIDTH + columns::KIND] = kinds::REFERENCE;
        rows[row * ROW_WIDTH + columns::NUMBER] = object;
        rows[row * ROW_WIDTH + columns::END] = c.rows;
        return Ok(c);
    }
    Err(lost())
}

// ---- traits

// Its class and its names are used.
fn trait_holds(c: Cursor, t: Trait) -> bool
    ensures { result ≡ d.trait_holds c t }
{
    wire::fits(c.store, t.begin, t.size) && wire::fits(c.names, t.first, t.count)
}

// Trait `i` of the traits.
pub fn old_trait(traits: &[usize], c: Cursor, i: usize) -> Result<Trait, Refusal>
    ensures { answer_in result c ≡ d.old_trait i traits.now c }
{
    if traits.len() / TRAIT_WIDTH < c.traits {
        return Err(lost());
    }
    if c.traits <= i {
        return Err(refuse(c, refusals::NO_ENTRY, i));
    }
    let t = Trait {
        begin: traits[i * TRAIT_WIDTH],
        size: traits[i * TRAIT_WIDTH + TRAIT_SIZE],
        dynamic: traits[i * TRAIT_WIDTH + TRAIT_DYNAMIC],
        first: traits[i * TRAIT_WIDTH + TRAIT_FIRST],
        count: traits[i * TRAIT_WIDTH + TRAIT_COUNT],
    };
    if trait_holds(c, t) {
        return Ok(t);
    }
    Err(lost())
}

// A new trait of `n` names whose class is whole; one with no names has first name 0.
pub fn trait_of(c: Cursor, s: Span, n: usize, dynamic: usize) -> Trait
    ensures { result ≡ d.trait_of s n dynamic c }
{
    let mut first = c.names;
    if n == 0 {
        first = 0;
    }
    Trait {
        begin: s.begin,
        size: s.size,
        dynamic,
        first,
        count: n,
    }
}

// A field name's span, as it is read.
pub fn named(names: &mut [usize], c: Cursor, s: Span) -> Result<(Span, Cursor), Refusal>
    ensures { with1 (out_of result) names.new ≡ leaving names.old (d.named s names.old c) }
{
    let used = c.names;
    if names.len() / SPAN_WIDTH < used {
        return Err(lost());
    }
    if names.len() / SPAN_WIDTH <= used {
        return Err(refuse(c, refusals::NO_ROOM, loans::NAMES));
    }
    put_span(names, used, s);
    let mut after = c;
    after.names = used + 1;
    Ok((s, after))
}

// A trait is entered after its last name.
pub fn trait_end(traits: &mut [usize], c: Cursor, t: Trait) -> Result<Cursor, Refusal>
    ensures { with1 (done_of result) traits.new ≡ leaving traits.old (d.trait_end t traits.old c) }
{
    let used = c.traits;
    if traits.len() / TRAIT_WIDTH < used {
        return Err(lost());
    }
    if !trait_holds(c, t) {
        return Err(lost());
    }
    if traits.len() / TRAIT_WIDTH <= used {
        return Err(refuse(c, refusals::NO_ROOM, loans::TRAITS));
    }
    traits[used * TRAIT_WIDTH] = t.begin;
    traits[used * TRAIT_WIDTH + TRAIT_SIZE] = t.size;
    traits[used * TRAIT_WIDTH + TRAIT_DYNAMIC] = t.dynamic;
    traits[used * TRAIT_WIDTH + TRAIT_FIRST] = t.first;
    traits[used * TRAIT_WIDTH + TRAIT_COUNT] = t.count;
    let mut after = c;
    after.traits = used + 1;
    Ok(after)
}

// The key of a sealed member: name `i` of the names.
pub fn sealed_key(names: &[usize], c: Cursor, i: usize) -> Result<Key, Refusal>
    ensures { answer_in result c ≡ d.sealed_key i names.now c }
{
    if names.len() / SPAN_WIDTH < c.names {
        return Err(lost());
    }
    if c.names <= i {
        return Err(lost());
    }
    let begin = names[i * SPAN_WIDTH];
    let size = names[i * SPAN_WIDTH + SPAN_SIZE];
    if wire::fits(c.store, begin, size) {
        return Ok(Key {
            mark: 1,
            begin,
            size,
        });
    }
    Err(lost())
}

// Whether a vector's class is `*`.
pub fn starred(store: &[u8], c: Cursor, s: Span) -> Result<bool, Refusal>
    ensures { answer_in result c ≡ d.starred s store.now c }
{
    if s.size != 1 {
        return Ok(false);
    }
    if store.len() < c.store {
        return Err(lost());
    }
    let begin = s.begin;
    if wire::fits(c.store, begin, s.size) {
        return Ok(store[begin] == b'*');
    }
    Err(lost())
}
