// Strings, numbers and bodies, and the beginnings of the other values, read from a message.

#![tactic(auto)]

ghost use Rattle.std.specs.Prelude.{◌≡◌, true, ℕ, ◌+◌, ◌^◌, ◌≤◌, ◌<◌, IfOk, IfSome, length};
ghost use Rattle.rows.specs.Memory.{row_used};
ghost use Rattle.wire.specs.declared.Size.TheVariants.{New};
ghost use Rattle.decide.specs.Outcomes.{width_in};
ghost use Rattle.decide.specs.Spared.{NotObjects, OnlyBody, OnlyNameTexts, OnlyRowText, OnlyRows, OnlyRowsObjects, OnlyText};
ghost use Rattle.format.specs.Decide as d;
ghost use Rattle.format.specs.Reading as r;
ghost use Rattle.scan.specs.Reads.{Reads, Back, memory_in};
ghost use Rattle.parts.specs.Heads.{size_head, last_body, object_head, inline_trait, new_trait, known_trait, external_trait, vector_head};

use decide::Width;
use format::{Refusal, refusals};
use rows::{Span, Trait};
use scan::Reading;
use wire::{Shape, Size};

// ---- texts

// The span is the row's body, and the row ends.
fn shown(reading: &mut Reading, row: usize, s: Span) -> Result<(), Refusal>
    ensures reads { Reads result reading.old reading.new (last_body row s) }
    ensures spares { OnlyRows (memory_in reading.old) (memory_in reading.new) }
{
    reading.bodied(row, s)?;
    reading.closed(row)
}

// A new string value of `n` bytes: its row shows its body as soon as its room is reserved.
fn new_string(reading: &mut Reading, row: usize, n: usize) -> Result<Span, Refusal>
    ensures reads { Reads result reading.old reading.new (r.text_of (λ s. r.by (d.on_rows (d.bodied row s))) (New n)) }
    ensures spares { OnlyRowText (memory_in reading.old) (memory_in reading.new) }
{
    if n == 0 {
        return Ok(Span::default());
    }
    let s = reading.reserved(n)?;
    reading.bodied(row, s)?;
    let valid = reading.checked(s)?;
    reading.text_end(s, valid)
}

// A string value, or where it was read before.
fn string_text(reading: &mut Reading, row: usize) -> Result<Span, Refusal>
    ensures reads { Reads result reading.old reading.new (r.text (λ s. r.by (d.on_rows (d.bodied row s)))) }
    ensures spares { OnlyRowText (memory_in reading.old) (memory_in reading.new) }
{
    let w = reading.word()?;
    match wire::size_of(w) {
        Size::Old(i) => reading.old_text(i),
        Size::New(n) => new_string(reading, row, n),
    }
}

// The steps of a string value: a refusal leaves the cursor where it stands.
fn string_steps(reading: &mut Reading, row: usize) -> Result<(), Refusal>
    ensures reads { (value : r.Values) → Reads result reading.old reading.new (r.marked value row d.string) }
    ensures spares { OnlyRowText (memory_in reading.old) (memory_in reading.new) }
{
    let s = string_text(reading, row)?;
    shown(reading, row, s)
}

// A string value.
pub fn string(reading: &mut Reading, row: usize) -> Result<(), Refusal>
    ensures reads { (value : r.Values) → Reads result reading.old reading.new (r.marked value row d.string) }
    ensures spares { OnlyRowText (memory_in reading.old) (memory_in reading.new) }
    ensures back { Back result reading.old reading.new }
{
    let before = reading.cursor;
    let a = string_steps(reading, row);
    reading.settled(before, a)
}

// ---- numbers

// An integer.
pub fn integer(reading: &mut Reading, row: usize) -> Result<(), Refusal>
    ensures reads { (value : r.Values) → Reads result reading.old reading.new (r.marked value row d.integer) }
    ensures spares { OnlyRows (memory_in reading.old) (memory_in reading.new) }
    ensures back { Back result reading.old reading.new }
{
    let before = reading.cursor;
    let w = reading.word()?;
    let a = reading.integer_end(row, w);
    reading.settled(before, a)
}

// A double.
pub fn double(reading: &mut Reading, row: usize) -> Result<(), Refusal>
    ensures reads { (value : r.Values) → Reads result reading.old reading.new (r.marked value row d.double) }
    ensures spares { OnlyRows (memory_in reading.old) (memory_in reading.new) }
    ensures back { Back result reading.old reading.new }
{
    let before = reading.cursor;
    let bits = reading.eight()?;
    let a = reading.numbered(row, bits);
    reading.settled(before, a)
}

// A new date.
pub fn date(reading: &mut Reading, row: usize) -> Result<(), Refusal>
    ensures reads { (value : r.Values) (n : ℕ) → Reads result reading.old reading.new (r.new_of value row d.date n) }
    ensures spares { OnlyRows (memory_in reading.old) (memory_in reading.new) }
    ensures back { Back result reading.old reading.new }
{
    let before = reading.cursor;
    let bits = reading.eight()?;
    let a = reading.date_end(row, bits);
    reading.settled(before, a)
}

// ---- bodies

// Room for a body of `n` bytes, which its row shows at once; an empty one needs none.
fn room(reading: &mut Reading, row: usize, n: usize) -> Result<Span, Refusal>
    ensures reads { Reads result reading.old reading.new (r.room row n) }
    ensures spares { OnlyRows (memory_in reading.old) (memory_in reading.new) }
{
    if n == 0 {
        return Ok(Span::default());
    }
    let s = reading.reserved(n)?;
    reading.bodied(row, s)?;
    Ok(s)
}

// The steps of an XML text: a refusal leaves the cursor where it stands.
fn xml_steps(reading: &mut Reading, row: usize, n: usize) -> Result<(), Refusal>
    ensures reads { (value : r.Values) → Reads result reading.old reading.new (r.new_of value row d.xml n) }
    ensures spares { OnlyBody (memory_in reading.old) (memory_in reading.new) }
{
    let s = room(reading, row, n)?;
    let valid = reading.checked(s)?;
    reading.judged(valid)?;
    reading.closed(row)
}

// A new XML text of `n` bytes.
pub fn xml(reading: &mut Reading, row: usize, n: usize) -> Result<(), Refusal>
    ensures reads { (value : r.Values) → Reads result reading.old reading.new (r.new_of value row d.xml n) }
    ensures spares { OnlyBody (memory_in reading.old) (memory_in reading.new) }
    ensures back { Back result reading.old reading.new }
{
    let before = reading.cursor;
    let a = xml_steps(reading, row, n);
    reading.settled(before, a)
}

// The steps of a byte array: a refusal leaves the cursor where it stands.
fn bytes_steps(reading: &mut Reading, row: usize, n: usize) -> Result<(), Refusal>
    ensures reads { (value : r.Values) → Reads result reading.old reading.new (r.new_of value row d.bytes n) }
    ensures spares { OnlyBody (memory_in reading.old) (memory_in reading.new) }
{
    let s = room(reading, row, n)?;
    reading.copied(s)?;
    reading.closed(row)
}

// A new byte array of `n` bytes.
pub fn bytes(reading: &mut Reading, row: usize, n: usize) -> Result<(), Refusal>
    ensures reads { (value : r.Values) → Reads result reading.old reading.new (r.new_of value row d.bytes n) }
    ensures spares { OnlyBody (memory_in reading.old) (memory_in reading.new) }
    ensures back { Back result reading.old reading.new }
{
    let before = reading.cursor;
    let a = bytes_steps(reading, row, n);
    reading.settled(before, a)
}

// The steps of an object vector's beginning: a refusal leaves the cursor where it stands.
fn vector_head_steps(reading: &mut Reading, row: usize) -> Result<(), Refusal>
    ensures reads { Reads result reading.old reading.new (vector_head row) }
    ensures spares { OnlyRowText (memory_in reading.old) (memory_in reading.new) }
{
    let b = reading.byte()?;
    reading.flagged(row, decide::fixed(b))?;
    let s = reading.text()?;
    let star = reading.starred(s)?;
    reading.vector_class(row, star, s)
}

// An object vector's flag and class.
pub fn vector_head(reading: &mut Reading, row: usize) -> Result<(), Refusal>
    ensures reads { Reads result reading.old reading.new (vector_head row) }
    ensures spares { OnlyRowText (memory_in reading.old) (memory_in reading.new) }
    ensures back { Back result reading.old reading.new }
{
    let before = reading.cursor;
    let a = vector_head_steps(reading, row);
    reading.settled(before, a)
}

// A raw body, copied as a whole; the count follows.
fn raw_copied(reading: &mut Reading, row: usize, w: Width, s: Span) -> Result<(), Refusal>
    requires { (0 < s.size → (s.begin + s.size ≤ reading.old.cursor.store) × (reading.old.cursor.store ≤ length reading.old.store.now))
        × (row_used reading.old.rows.now reading.old.cursor row ≡ true) }
    ensures reads { Reads result reading.old reading.new (r.filled (λ left. r.by (d.on_rows (d.grown row (width_in w) s left))) s s.size) }
    ensures spares { OnlyBody (memory_in reading.old) (memory_in reading.new) }
{
    if s.size == 0 {
        return Ok(());
    }
    reading.copied(s)?;
    reading.grown(row, w, s, 0)
}

// The steps of a raw vector: a refusal leaves the cursor where it stands.
fn raw_steps(reading: &mut Reading, row: usize, w: Width, n: usize) -> Result<(), Refusal>
    requires { n < 2 ^ 29 }
    ensures reads { (value : r.Values) → Reads result reading.old reading.new (r.new_of value row (d.raw (width_in w)) n) }
    ensures spares { OnlyBody (memory_in reading.old) (memory_in reading.new) }
{
    let s = room(reading, row, n * decide::width_of(w))?;
    let b = reading.byte()?;
    reading.flagged(row, decide::fixed(b))?;
    raw_copied(reading, row, w, s)?;
    reading.closed(row)
}

// A vector of `n` raw entries: the room for them is judged before its flag.
pub fn raw(reading: &mut Reading, row: usize, w: Width, n: usize) -> Result<(), Refusal>
    requires { n < 2 ^ 29 }
    ensures reads { (value : r.Values) → Reads result reading.old reading.new (r.new_of value row (d.raw (width_in w)) n) }
    ensures spares { OnlyBody (memory_in reading.old) (memory_in reading.new) }
    ensures back { Back result reading.old reading.new }
{
    let before = reading.cursor;
    let a = raw_steps(reading, row, w, n);
    reading.settled(before, a)
}

// ---- beginnings

// The steps of a size word: a refusal leaves the cursor where it stands.
fn size_head_steps(reading: &mut Reading, row: usize) -> Result<Option<usize>, Refusal>
    ensures reads { Reads result reading.old reading.new (size_head row) × IfOk result (λ o. IfSome o (λ n. n < 2 ^ 29)) }
    ensures spares { OnlyRowsObjects (memory_in reading.old) (memory_in reading.new) }
{
    let w = reading.word()?;
    match wire::size_of(w) {
        Size::Old(i) => {
            reading.referred(row, i)?;
            Ok(None)
        }
        Size::New(n) => {
            reading.entered(row)?;
            Ok(Some(n))
        }
    }
}

// A size word: a reference, or a new value of a size, which enters the objects.
pub fn size_head(reading: &mut Reading, row: usize) -> Result<Option<usize>, Refusal>
    ensures reads { Reads result reading.old reading.new (size_head row) × IfOk result (λ o. IfSome o (λ n. n < 2 ^ 29)) }
    ensures spares { OnlyRowsObjects (memory_in reading.old) (memory_in reading.new) }
    ensures back { Back result reading.old reading.new }
{
    let before = reading.cursor;
    let a = size_head_steps(reading, row);
    reading.settled(before, a)
}

// So many names of a trait.
fn name_list(reading: &mut Reading, n: usize) -> Result<(), Refusal>
    ensures reads { Reads result reading.old reading.new (r.names n) }
    ensures spares { OnlyNameTexts (memory_in reading.old) (memory_in reading.new) }
{
    for _ in 0..n {
        let s = reading.text()?;
        let _ = reading.named(s)?;
    }
    Ok(())
}

// A trait whose class is whole: its names, and its place in the traits.
fn inline_trait(reading: &mut Reading, row: usize, t: Trait) -> Result<Option<Trait>, Refusal>
    ensures reads { Reads result reading.old reading.new (inline_trait row t) }
    ensures spares { NotObjects (memory_in reading.old) (memory_in reading.new) }
{
    reading.object_class(row, t)?;
    name_list(reading, t.count)?;
    reading.trait_end(t)?;
    Ok(Some(t))
}

// A trait that was read before.
fn known_trait(reading: &mut Reading, row: usize, i: usize) -> Result<Option<Trait>, Refusal>
    ensures reads { Reads result reading.old reading.new (known_trait row i) }
    ensures spares { OnlyRows (memory_in reading.old) (memory_in reading.new) }
{
    let t = reading.old_trait(i)?;
    reading.object_class(row, t)?;
    Ok(Some(t))
}

// A new trait of `n` names: its class, and the rest.
fn new_trait(
    reading: &mut Reading,
    row: usize,
    n: usize,
    dynamic: usize,
) -> Result<Option<Trait>, Refusal>
    ensures reads { Reads result reading.old reading.new (new_trait row n dynamic) }
    ensures spares { NotObjects (memory_in reading.old) (memory_in reading.new) }
{
    let s = reading.text()?;
    let t = decide::trait_of(reading.cursor, s, n, dynamic);
    inline_trait(reading, row, t)
}

// An externalizable class is refused after its name.
fn external(reading: &mut Reading) -> Result<Option<Trait>, Refusal>
    ensures reads { Reads result reading.old reading.new external_trait }
    ensures spares { OnlyText (memory_in reading.old) (memory_in reading.new) }
{
    let _ = reading.text()?;
    Err(decide::refuse(reading.cursor, refusals::EXTERNALIZABLE, 0))
}

// The steps of an object's word: a refusal leaves the cursor where it stands.
fn object_head_steps(reading: &mut Reading, row: usize) -> Result<Option<Trait>, Refusal>
    ensures { Reads result reading.old reading.new (object_head row) }
{
    let w = reading.word()?;
    let shape = wire::shape_of(w);
    if let Shape::Object(i) = shape {
        reading.referred(row, i)?;
        return Ok(None);
    }
    reading.entered(row)?;
    match shape {
        Shape::Object(_) => Err(decide::lost()),
        Shape::Known(i) => known_trait(reading, row, i),
        Shape::External => external(reading),
        Shape::Inline(n, dynamic) => new_trait(reading, row, n, dynamic),
    }
}

// An object's word: a reference, or an object, which enters the objects, and its trait.
pub fn object_head(reading: &mut Reading, row: usize) -> Result<Option<Trait>, Refusal>
    ensures reads { Reads result reading.old reading.new (object_head row) }
    ensures back { Back result reading.old reading.new }
{
    let before = reading.cursor;
    let a = object_head_steps(reading, row);
    reading.settled(before, a)
}
