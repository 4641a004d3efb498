// The readers of a value, an array, an object, a vector and a dictionary, and the loops over their entries, in one cycle of calls over the remaining
// depth.

#![tactic(auto)]

ghost use Rattle.std.specs.Prelude.{◌^◌, ◌<◌};
ghost use Rattle.rows.specs.Memory.{no_key, col_count};
ghost use Rattle.decide.specs.Outcomes.{body_in};
ghost use Rattle.format.specs.Decide as d;
ghost use Rattle.format.specs.Reading as r;
ghost use Rattle.scan.specs.Reads.{Reads, Back};
ghost use Rattle.parts.specs.Heads.{sealed_member};

use decide::{Body, Kind, Width};
use format::Refusal;
use rows::{Key, Trait, columns};
use scan::Reading;

// ---- entries

// Values with no key.
#[cycle(reading)]
fn items(
    reading: &mut Reading,
    row: usize,
    col: usize,
    n: usize,
    left: usize,
) -> Result<(), Refusal>
    ensures { Reads result reading.old reading.new (r.entries (λ done. r.value left no_key) row col n 0) }
{
    for i in 0..n {
        nested(reading, Key::default(), left)?;
        reading.counted(row, col, i)?;
    }
    Ok(())
}

// Entries of a key and a value, both values.
#[cycle(reading)]
fn couples(reading: &mut Reading, row: usize, n: usize, left: usize) -> Result<(), Refusal>
    ensures { Reads result reading.old reading.new (r.entries (r.couple (r.value left) row) row col_count n 0) }
{
    for i in 0..n {
        nested(reading, Key::default(), left)?;
        reading.key_end(row, i)?;
        nested(reading, Key::default(), left)?;
        reading.counted(row, columns::COUNT, i)?;
    }
    Ok(())
}

// Sealed members, their keys the names of the trait.
#[cycle(reading)]
fn sealed(reading: &mut Reading, row: usize, t: Trait, left: usize) -> Result<(), Refusal>
    ensures { Reads result reading.old reading.new (r.entries (sealed_member (r.value left) t) row col_count t.count 0) }
{
    for i in 0..t.count {
        let key = reading.sealed_key(t.first + i)?;
        nested(reading, key, left)?;
        reading.counted(row, columns::COUNT, i)?;
    }
    Ok(())
}

// Pairs of a key and a value, up to the empty key, wherever that stands; each key takes at least a byte.
#[cycle(reading)]
fn pairs(reading: &mut Reading, row: usize, col: usize, left: usize) -> Result<(), Refusal>
    ensures { Reads result reading.old reading.new (r.pairs (r.value left) row col 0) }
{
    let mut done = 0;
    loop {
        let s = reading.text()?;
        if s.size == 0 {
            return Ok(());
        }
        nested(reading, Key::from(s), left)?;
        reading.counted(row, col, done)?;
        done += 1;
    }
}

// ---- containers

// A new array of `n` values, behind its pairs.
#[cycle(reading)]
fn array(reading: &mut Reading, row: usize, n: usize, left: usize) -> Result<(), Refusal>
    ensures { Reads result reading.old reading.new (r.new_of (r.value left) row d.array n) }
{
    pairs(reading, row, columns::COUNT, left)?;
    items(reading, row, columns::COUNT2, n, left)?;
    reading.closed(row)
}

// Dynamic members, if there are to be any.
#[cycle(reading)]
fn dynamics(reading: &mut Reading, row: usize, dynamic: usize, left: usize) -> Result<(), Refusal>
    ensures { Reads result reading.old reading.new (r.dynamics (r.value left) row dynamic) }
{
    if dynamic == 0 {
        return Ok(());
    }
    pairs(reading, row, columns::COUNT2, left)
}

// An object's members, by its trait, and its end.
#[cycle(reading)]
fn object_members(reading: &mut Reading, row: usize, t: Trait, left: usize) -> Result<(), Refusal>
    ensures { Reads result reading.old reading.new (r.members (r.value left) row t) }
{
    sealed(reading, row, t, left)?;
    dynamics(reading, row, t.dynamic, left)?;
    reading.closed(row)
}

// An object, or a reference to one.
#[cycle(reading)]
fn object(reading: &mut Reading, row: usize, left: usize) -> Result<(), Refusal>
    ensures { Reads result reading.old reading.new (r.marked (r.value left) row d.object) }
{
    let Some(t) = parts::object_head(reading, row)? else {
        return Ok(());
    };
    object_members(reading, row, t, left)
}

// A vector of objects.
#[cycle(reading)]
fn vector(reading: &mut Reading, row: usize, n: usize, left: usize) -> Result<(), Refusal>
    ensures { Reads result reading.old reading.new (r.new_of (r.value left) row d.objects n) }
{
    parts::vector_head(reading, row)?;
    items(reading, row, columns::COUNT, n, left)?;
    reading.closed(row)
}

// A dictionary of `n` pairs.
#[cycle(reading)]
fn dictionary(reading: &mut Reading, row: usize, n: usize, left: usize) -> Result<(), Refusal>
    ensures { Reads result reading.old reading.new (r.new_of (r.value left) row d.dictionary n) }
{
    let b = reading.byte()?;
    reading.flagged(row, decide::weak(b))?;
    couples(reading, row, n, left)?;
    reading.closed(row)
}

// ---- values

// A new value, its size word read.
#[cycle(reading)]
fn new_value(
    reading: &mut Reading,
    row: usize,
    body: Body,
    n: usize,
    left: usize,
) -> Result<(), Refusal>
    requires { n < 2 ^ 29 }
    ensures { Reads result reading.old reading.new (r.new_of (r.value left) row (body_in body) n) }
{
    match body {
        Body::Xml => parts::xml(reading, row, n),
        Body::Date => parts::date(reading, row),
        Body::Array => array(reading, row, n, left),
        Body::Bytes => parts::bytes(reading, row, n),
        Body::Objects => vector(reading, row, n, left),
        Body::Dictionary => dictionary(reading, row, n, left),
        Body::RawFour => parts::raw(reading, row, Width::Four, n),
        Body::RawEight => parts::raw(reading, row, Width::Eight, n),
    }
}

// A value that begins with a size word, or a reference to one.
#[cycle(reading)]
fn sized_value(reading: &mut Reading, row: usize, body: Body, left: usize) -> Result<(), Refusal>
    ensures { Reads result reading.old reading.new (r.marked (r.value left) row (d.sized (body_in body))) }
{
    let Some(n) = parts::size_head(reading, row)? else {
        return Ok(());
    };
    new_value(reading, row, body, n, left)
}

// What a marker is followed by.
#[cycle(reading)]
fn marked(reading: &mut Reading, row: usize, b: usize, left: usize) -> Result<(), Refusal>
    ensures { Reads result reading.old reading.new (r.marked (r.value left) row (d.kind_of b)) }
{
    match decide::kind_of(b) {
        Kind::Leaf => Ok(()),
        Kind::Integer => parts::integer(reading, row),
        Kind::Double => parts::double(reading, row),
        Kind::String => parts::string(reading, row),
        Kind::Object => object(reading, row, left),
        Kind::Sized(body) => sized_value(reading, row, body, left),
    }
}

// A value, also one within another, where `left` may still open: a refusal leaves the cursor where it stands.
#[cycle(reading)]
fn nested(reading: &mut Reading, key: Key, left: usize) -> Result<(), Refusal>
    ensures { Reads result reading.old reading.new (r.value left key) }
{
    let b = reading.byte()?;
    let row = reading.marker(key, left, b)?;
    if left == 0 {
        return Err(decide::lost());
    }
    marked(reading, row, b, left - 1)
}

// A value, where `left` may still open.
pub fn value(reading: &mut Reading, key: Key, left: usize) -> Result<(), Refusal>
    ensures reads { Reads result reading.old reading.new (r.value left key) }
    ensures back { Back result reading.old reading.new }
{
    let before = reading.cursor;
    let a = nested(reading, key, left);
    reading.settled(before, a)
}
