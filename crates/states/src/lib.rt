// The numbers of a state: any are one, and a state that waits is sound where they are numbers that a reading could have left.

#![tactic(auto)]

ghost use Rattle.std.specs.Prelude.{◌≡◌, false, ◌&&◌, List, ℕ, ◌+◌, ◌^◌, leb, ltb};
ghost use Rattle.rows.specs.Memory.{Memory, open_limit};
ghost use Rattle.format.specs.Codes.{mode_marker, mode_word, mode_number, mode_flag, mode_text, mode_raw};
ghost use Rattle.format.specs.Numbers.{lent_of, frames_of, mode_of, with_use, with_word};
ghost use Rattle.format.specs.Numbers as n;
ghost use Rattle.format.specs.Refusals as no;
ghost use Rattle.states.specs.Counts.{counts_in};
ghost use Rattle.states.specs.Ends.{has_ended};
ghost use Rattle.wire.specs.Date.{refused_date};
ghost use Rattle.wire.specs.U29.{word_more, word_bits};
ghost use Rattle.wire.specs.Big.{number_more, number_bits};

use format::{Head, Lent, Work, modes, purposes, refusals, statuses};
use rows::{
    Cursor, MESSAGE_LIMIT, OBJECTS_MOST, OPEN_LIMIT, ROW_WIDTH, ROWS_MOST, SPAN_WIDTH, STORE_MOST,
    TRAIT_WIDTH, loans,
};
use wire::markers;

// The last marker; how many bytes there are; how many indices a reference can have.
const LAST_MARKER: usize = markers::DICTIONARY as usize;

const BYTES: usize = 0x100;

const INDICES: usize = 0x1000_0000;

// ---- the loans

// What is used lies within the loans, of these lengths.
fn counts_fit(c: Cursor, l: Lent) -> bool
    ensures { result ≡ counts_in c l }
{
    c.rows <= l.rows / ROW_WIDTH
        && c.store <= l.store
        && c.strings <= l.strings / SPAN_WIDTH
        && c.objects <= l.objects
        && c.traits <= l.traits / TRAIT_WIDTH
        && c.names <= l.names / SPAN_WIDTH
}

// ---- what the work is with

// A row is used, and a span.
fn place_fits(c: Cursor, row: usize, begin: usize, size: usize) -> bool
    ensures { result ≡ (ltb row c.rows && leb (begin + size) c.store) }
{
    row < c.rows && wire::fits(c.store, begin, size)
}

// The span is used, and what is left of it lies in it.
fn span_fits(c: Cursor, w: Work) -> bool
    ensures { result ≡ n.body_fits c w.span w.left }
{
    wire::fits(c.store, w.span.begin, w.span.size) && w.left < w.span.size
}

// The row is used, and the span with what is left of it.
fn body_fits(c: Cursor, w: Work) -> bool
    ensures { result ≡ (ltb w.row c.rows && n.body_fits c w.span w.left) }
{
    w.row < c.rows && span_fits(c, w)
}

// A trait in the making: its row and its class are used, and its first name is no more than the used names.
fn name_fits(c: Cursor, w: Work) -> bool
    ensures { result ≡ (ltb w.row c.rows && leb (w.kind.begin + w.kind.size) c.store && leb w.kind.first c.names) }
{
    place_fits(c, w.row, w.kind.begin, w.kind.size) && w.kind.first <= c.names
}

// A string's row is used, and what a name belongs to.
#[tactic(auto, unfolding(format::specs::Numbers::use_fits))]
fn use_fits(c: Cursor, w: Work) -> bool
    ensures { result ≡ with_use false w (n.use_fits c) }
{
    match w.purpose {
        purposes::STRING..=purposes::CLASS | purposes::VECTOR_CLASS => w.row < c.rows,
        purposes::EXTERNAL => true,
        purposes::NAME => name_fits(c, w),
        _ => false,
    }
}

// At a marker: the key's span is used, if there is a key.
#[tactic(auto, unfolding(format::specs::Numbers::mode_of, format::specs::Numbers::mode_fits))]
fn marker_fits(c: Cursor, w: Work) -> bool
    ensures { w.mode ≡ mode_marker → result ≡ n.mode_fits c (mode_of w) }
{
    w.purpose == 0 || wire::fits(c.store, w.span.begin, w.span.size)
}

// Numbers that a word has in the making: so many bytes may come after the next one, and those before it gave no more than they can.
fn word_part_fits(left: usize, part: usize) -> bool
    ensures { result ≡ n.part_fits word_more word_bits left part }
{
    wire::u29_byte(left, part, 0).is_some()
}

// The same of eight bytes.
fn number_part_fits(left: usize, part: usize) -> bool
    ensures { result ≡ n.part_fits number_more number_bits left part }
{
    wire::be64_byte(left, part, 0).is_some()
}

// A word's row is used.
#[tactic(auto, unfolding(format::specs::Numbers::word_fits))]
fn word_row_fits(c: Cursor, w: Work) -> bool
    ensures { result ≡ with_word false w (n.word_fits c) }
{
    match w.purpose {
        purposes::INTEGER..=purposes::DICTIONARY => w.row < c.rows,
        _ => use_fits(c, w),
    }
}

#[tactic(auto, unfolding(format::specs::Numbers::mode_of, format::specs::Numbers::mode_fits))]
fn word_fits(c: Cursor, w: Work) -> bool
    ensures { w.mode ≡ mode_word → result ≡ n.mode_fits c (mode_of w) }
{
    word_row_fits(c, w) && word_part_fits(w.left, w.part)
}

#[tactic(auto, unfolding(format::specs::Numbers::mode_of, format::specs::Numbers::mode_fits))]
fn number_fits(c: Cursor, w: Work) -> bool
    ensures { w.mode ≡ mode_number → result ≡ n.mode_fits c (mode_of w) }
{
    matches!(w.purpose, purposes::DOUBLE..=purposes::DATE_BITS)
        && w.row < c.rows
        && number_part_fits(w.left, w.part)
}

// A raw vector's flag has its span beside it.
#[tactic(auto, unfolding(format::specs::Numbers::mode_of, format::specs::Numbers::mode_fits))]
fn flag_fits(c: Cursor, w: Work) -> bool
    ensures { w.mode ≡ mode_flag → result ≡ n.mode_fits c (mode_of w) }
{
    match w.purpose {
        purposes::FOURS..=purposes::EIGHTS => place_fits(c, w.row, w.span.begin, w.span.size),
        purposes::OBJECT_VECTOR..=purposes::DICTIONARY => w.row < c.rows,
        _ => false,
    }
}

#[tactic(auto, unfolding(format::specs::Numbers::mode_of, format::specs::Numbers::mode_fits))]
fn text_fits(c: Cursor, w: Work) -> bool
    ensures { w.mode ≡ mode_text → result ≡ n.mode_fits c (mode_of w) }
{
    let row = if w.purpose == purposes::XML {
        w.row < c.rows
    } else {
        use_fits(c, w)
    };
    row && span_fits(c, w) && w.part <= utf8::BROKEN
}

#[tactic(auto, unfolding(format::specs::Numbers::mode_of, format::specs::Numbers::mode_fits))]
fn raw_fits(c: Cursor, w: Work) -> bool
    ensures { w.mode ≡ mode_raw → result ≡ n.mode_fits c (mode_of w) }
{
    matches!(w.purpose, purposes::BYTE_ARRAY..=purposes::EIGHTS) && body_fits(c, w)
}

// The mode is one of ours, and what it holds lies in what is used.
#[tactic(auto, unfolding(format::specs::Numbers::mode_of, format::specs::Numbers::mode_fits))]
fn mode_fits(c: Cursor, w: Work) -> bool
    ensures { result ≡ n.mode_fits c (mode_of w) }
{
    match w.mode {
        modes::MARKER => marker_fits(c, w),
        modes::WORD => word_fits(c, w),
        modes::NUMBER => number_fits(c, w),
        modes::FLAG => flag_fits(c, w),
        modes::TEXT => text_fits(c, w),
        modes::RAW => raw_fits(c, w),
        _ => false,
    }
}

// Pairs done are below the used rows, since each has a row of its own.
#[tactic(auto, unfolding(format::specs::Numbers::mode_of))]
pub fn pairs_fit(c: Cursor, w: Work) -> bool
    ensures { result ≡ n.pairs_fit c (mode_of w) }
{
    match (w.mode, w.purpose) {
        (modes::WORD | modes::TEXT, purposes::KEY | purposes::DYNAMIC_KEY) => w.done < c.rows,
        _ => true,
    }
}

// ---- how many values are open

// The mode has a value in work, and its purpose is one of that mode.
#[tactic(auto, unfolding(format::specs::Numbers::mode_of))]
fn at_work(w: Work) -> bool
    ensures { (w.mode ≡ mode_marker → ⊥) → (d : ℕ) → n.depth_fits (mode_of w) d ≡ (result && ltb d open_limit) }
{
    match w.mode {
        modes::WORD => matches!(w.purpose, purposes::INTEGER..purposes::END),
        modes::NUMBER => matches!(w.purpose, purposes::DOUBLE..=purposes::DATE_BITS),
        modes::FLAG => matches!(w.purpose, purposes::FOURS..=purposes::DICTIONARY),
        modes::TEXT => matches!(w.purpose, purposes::XML | purposes::STRING..purposes::END),
        modes::RAW => matches!(w.purpose, purposes::BYTE_ARRAY..=purposes::EIGHTS),
        _ => false,
    }
}

// No more values are open than can be; one less where one is in work. False where the mode is none of ours.
#[tactic(auto, unfolding(format::specs::Numbers::mode_of, rows::specs::Memory::open_limit))]
fn depth_fits(w: Work, depth: usize) -> bool
    ensures { result ≡ n.depth_fits (mode_of w) depth }
{
    if w.mode == modes::MARKER {
        depth <= OPEN_LIMIT
    } else {
        at_work(w) && depth < OPEN_LIMIT
    }
}

// ---- a state

// A state that waits is one that a reading could have left, for loans of these lengths.
pub fn sound(h: Head, l: Lent) -> bool
    ensures { (F : List ℕ) (m : Memory) → lent_of m ≡ l → result ≡ n.sound h.lent (mode_of h.work) (frames_of F h.depth) h.cursor m }
{
    l == h.lent
        && l.fault().is_none()
        && h.cursor.at <= MESSAGE_LIMIT
        && depth_fits(h.work, h.depth)
        && counts_fit(h.cursor, l)
        && mode_fits(h.cursor, h.work)
        && pairs_fit(h.cursor, h.work)
}

// ---- a state that has ended

// One of the loans of a reading.
fn is_loan(loan: usize) -> bool
    ensures { result ≡ no.is_loan loan }
{
    matches!(loan, loans::ROWS..=loans::NAMES)
}

// A byte that is no marker.
fn unknown_marker(b: usize) -> bool
    ensures { result ≡ (ltb 0x11 b && ltb b (2 ^ 8)) }
{
    LAST_MARKER < b && b < BYTES
}

// Bits that no date has.
fn refused_bits(bits: usize) -> bool
    ensures { result ≡ (ltb bits (2 ^ 64) && refused_date bits) }
{
    !wire::is_date(bits)
}

// What refusal `n`, which a byte decided, tells.
#[tactic(auto, unfolding(format::specs::Refusals::tells))]
fn tells(n: usize, told: usize) -> bool
    ensures { result ≡ no.tells n told }
{
    match n {
        refusals::BAD_MARKER => unknown_marker(told),
        refusals::NO_ENTRY => told < INDICES,
        refusals::OPEN_OBJECT => told < OBJECTS_MOST,
        refusals::EXTERNALIZABLE => told == 0,
        refusals::BAD_DATE => refused_bits(told),
        refusals::BAD_TEXT => told == 0,
        refusals::TOO_DEEP => told == 0,
        refusals::NO_ROOM => is_loan(told),
        _ => false,
    }
}

// Some reading refuses so.
#[tactic(auto, unfolding(format::specs::Refusals::sayable))]
fn sayable(n: usize, told: usize, place: usize) -> bool
    ensures { result ≡ no.sayable n told place }
{
    match n {
        refusals::UNEXPECTED_END => told == 0,
        refusals::BAD_LOAN => is_loan(told) && place == 0,
        refusals::TOO_LONG => told == 0 && place == MESSAGE_LIMIT,
        refusals::LOST => told == 0 && place == 0,
        _ => tells(n, told) && matches!(place, 1..=MESSAGE_LIMIT),
    }
}

// A finished reading uses no more than can be lent.
fn finishable(c: Cursor) -> bool
    ensures { result ≡ n.finishable c }
{
    c.rows <= ROWS_MOST && c.store <= STORE_MOST
}

// The state has ended as a reading can: finished, or refused.
#[tactic(auto, unfolding(crate::specs::Ends::has_ended))]
pub fn has_ended(h: Head) -> bool
    ensures { result ≡ has_ended h }
{
    match h.status {
        statuses::FINISHED => finishable(h.cursor),
        statuses::REFUSED => sayable(h.number, h.told, h.place),
        _ => false,
    }
}
