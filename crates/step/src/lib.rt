// One byte's step of a reading that waits: what each mode makes of it, by the decisions. The frames of the open values are written at most once, when the
// step ends waiting.

#![tactic(auto)]

ghost use Rattle.std.specs.Prelude.{◌≡◌, true, suc, ◌<◌};
ghost use Rattle.rows.specs.Memory.{open_most, no_span};
ghost use Rattle.decide.specs.Outcomes.{body_in};
ghost use Rattle.decide.specs.Spared.{NotObjects, OnlyBody, OnlyMembersObjects, OnlyRows};
ghost use Rattle.format.specs.Decide as d;
ghost use Rattle.format.specs.Step as s;
ghost use Rattle.format.specs.Numbers.{work_of, mode_of, work, no_trait, no_work, body_purpose, work_key, depth_fits};
ghost use Rattle.format.specs.Numbers.{with_text, with_word, with_number, with_flag, with_raw};
ghost use Rattle.states.specs.Purposes.{IsText, IsWord, IsNumber, IsFlag, IsRaw};
ghost use Rattle.resume.specs.Steps.{Steps, Back, Decides, grown_by, loans_of};

use decide::{Body, Kind, Width};
use format::{Frame, Refusal, Work, modes, purposes, tasks};
use resume::{Feeding, NUMBER_MORE, Next, WORD_MORE};
use rows::{Key, OPEN_LIMIT, Span, Trait};
use wire::Part;

// The work of a row alone: so many bytes come after the next one, and those before it gave `part`.
fn row_work(mode: usize, purpose: usize, row: usize, left: usize, part: usize) -> Work
    ensures { result ≡ work mode purpose row left part no_span no_trait 0 0 }
{
    Work {
        mode,
        purpose,
        row,
        left,
        part,
        ..Work::default()
    }
}

// ---- numbers, flags and bytes

// Eight bytes are whole.
fn number_done(f: &mut Feeding, w: Work, bits: usize) -> Result<Next, Refusal>
    requires open { f.old.depth < open_most }
    requires number { IsNumber w }
    ensures steps { Steps result f.old f.new (λ ts c m. with_number (s.broken m) w (λ x. s.number_done ts x bits c m)) }
    ensures spares { OnlyRows (loans_of f.old) (loans_of f.new) }
    ensures back { Back result f.old f.new }
{
    if w.purpose == purposes::DOUBLE {
        f.numbered(w.row, bits)?;
    } else {
        f.date_end(w.row, bits)?;
    }
    f.pop()
}

// A flag is there.
fn flag_done(f: &mut Feeding, w: Work, b: usize) -> Result<Next, Refusal>
    requires open { f.old.depth < open_most }
    requires flag { IsFlag w }
    ensures steps { Steps result f.old f.new (λ ts c m. with_flag (s.broken m) w (λ x. s.flag_done ts x b c m)) }
    ensures spares { OnlyRows (loans_of f.old) (loans_of f.new) }
    ensures back { Back result f.old f.new }
{
    if w.purpose == purposes::DICTIONARY {
        f.flagged(w.row, decide::weak(b))?;
        return f.onward(Frame {
            task: tasks::KEYS,
            row: w.row,
            left: w.count,
            ..Frame::default()
        });
    }
    f.flagged(w.row, decide::fixed(b))?;
    if w.purpose == purposes::OBJECT_VECTOR {
        return Ok(Next::Wait(resume::string_work(
            purposes::VECTOR_CLASS,
            w.row,
            Trait::default(),
            w.count,
            0,
        )));
    }
    words::filling(f, w.purpose, w.row, w.span, w.span.size)
}

// A raw byte is stored, so many left after it.
pub fn raw_grown(f: &mut Feeding, w: Work) -> Result<(), Refusal>
    requires { IsRaw w.purpose }
    ensures decided { Decides result f.old f.new (grown_by w) }
    ensures spares { OnlyRows (loans_of f.old) (loans_of f.new) }
    ensures still { f.new.cursor ≡ f.old.cursor }
{
    match w.purpose {
        purposes::FOURS => f.grown(w.row, Width::Four, w.span, w.left),
        purposes::EIGHTS => f.grown(w.row, Width::Eight, w.span, w.left),
        _ => Ok(()),
    }
}

// A byte of a raw body.
fn raw_byte(f: &mut Feeding, w: Work, b: u8) -> Result<Next, Refusal>
    requires open { f.old.depth < open_most }
    requires bytes { IsRaw w.purpose }
    ensures steps { Steps result f.old f.new (λ ts c m. with_raw (s.broken m) w.purpose w.row (λ r. s.act (s.at_raw r w.span w.left) b ts c m)) }
    ensures spares { OnlyBody (loans_of f.old) (loans_of f.new) }
    ensures back { Back result f.old f.new }
{
    f.stored(w.span, w.left, b)?;
    raw_grown(f, w)?;
    words::filling(f, w.purpose, w.row, w.span, w.left)
}

// The work of a text, which goes on with so many bytes left.
fn text_work(w: Work, left: usize, part: usize) -> Work
    requires { IsText w }
    ensures { result ≡ with_text no_work w (λ y. work_of (s.at_text y w.span left part)) }
{
    if w.purpose == purposes::XML {
        return Work {
            span: w.span,
            ..row_work(modes::TEXT, purposes::XML, w.row, left, part)
        };
    }
    words::use_work(w, modes::TEXT, left, part, w.span)
}

// A byte of a text.
fn text_byte(f: &mut Feeding, w: Work, b: u8) -> Result<Next, Refusal>
    requires open { f.old.depth < open_most }
    requires text { IsText w }
    ensures steps { Steps result f.old f.new (λ ts c m. with_text (s.broken m) w (λ x. s.act (s.at_text x w.span w.left w.part) b ts c m)) }
    ensures spares { NotObjects (loans_of f.old) (loans_of f.new) }
    ensures back { Back result f.old f.new }
{
    f.stored(w.span, w.left, b)?;
    let part = utf8::step(w.part, b);
    if w.left == 0 {
        return f.text_done(w, part == 0);
    }
    Ok(Next::Wait(text_work(w, w.left - 1, part)))
}

// The work of a word, which goes on with so many bytes left.
fn word_work(w: Work, left: usize, part: usize) -> Work
    requires { IsWord w }
    ensures { result ≡ with_word no_work w (λ y. work_of (s.at_word y left part)) }
{
    if w.purpose <= purposes::DICTIONARY {
        return row_work(modes::WORD, w.purpose, w.row, left, part);
    }
    words::use_work(w, modes::WORD, left, part, Span::default())
}

// A byte of a word.
fn word_byte(f: &mut Feeding, w: Work, b: u8) -> Result<Next, Refusal>
    requires open { f.old.depth < open_most }
    requires word { IsWord w }
    ensures steps { Steps result f.old f.new (λ ts c m. with_word (s.broken m) w (λ x. s.act (s.at_word x w.left w.part) b ts c m)) }
    ensures spares { OnlyMembersObjects (loans_of f.old) (loans_of f.new) }
    ensures back { Back result f.old f.new }
{
    match wire::u29_byte(w.left, w.part, b) {
        None => Err(decide::lost()),
        Some(Part::More(n)) => Ok(Next::Wait(word_work(w, w.left - 1, n))),
        Some(Part::Whole(n)) => words::worded(f, w, n),
    }
}

// A byte of eight.
fn number_byte(f: &mut Feeding, w: Work, b: u8) -> Result<Next, Refusal>
    requires open { f.old.depth < open_most }
    requires number { IsNumber w }
    ensures steps { Steps result f.old f.new (λ ts c m. with_number (s.broken m) w (λ x. s.act (s.at_number x w.left w.part) b ts c m)) }
    ensures spares { OnlyRows (loans_of f.old) (loans_of f.new) }
    ensures back { Back result f.old f.new }
{
    match wire::be64_byte(w.left, w.part, b) {
        None => Err(decide::lost()),
        Some(Part::More(n)) => Ok(Next::Wait(row_work(
            modes::NUMBER,
            w.purpose,
            w.row,
            w.left - 1,
            n,
        ))),
        Some(Part::Whole(n)) => number_done(f, w, n),
    }
}

// ---- markers

// The purpose of a size word. Not From: a bare number would not say that it is a purpose.
#[tactic(auto, unfolding(format::specs::Numbers::body_purpose))]
fn purpose_of(body: Body) -> usize
    ensures { result ≡ body_purpose (body_in body) }
{
    match body {
        Body::Xml => purposes::XML,
        Body::Date => purposes::DATE,
        Body::Array => purposes::ARRAY,
        Body::Bytes => purposes::BYTE_ARRAY,
        Body::Objects => purposes::OBJECT_VECTOR,
        Body::Dictionary => purposes::DICTIONARY,
        Body::RawFour => purposes::FOURS,
        Body::RawEight => purposes::EIGHTS,
    }
}

// A value has its row.
fn begun(f: &mut Feeding, row: usize, b: usize) -> Result<Next, Refusal>
    requires { f.old.depth < open_most }
    ensures steps { Steps result f.old f.new (λ ts. s.begun ts row (d.kind_of b)) }
    ensures spares { OnlyRows (loans_of f.old) (loans_of f.new) }
    ensures back { Back result f.old f.new }
{
    let purpose = match decide::kind_of(b) {
        Kind::Leaf => return f.pop(),
        Kind::Double => {
            let double = row_work(modes::NUMBER, purposes::DOUBLE, row, NUMBER_MORE, 0);
            return Ok(Next::Wait(double));
        }
        Kind::Integer => purposes::INTEGER,
        Kind::String => purposes::STRING,
        Kind::Object => purposes::OBJECT,
        Kind::Sized(body) => purpose_of(body),
    };
    Ok(Next::Wait(row_work(modes::WORD, purpose, row, WORD_MORE, 0)))
}

// The key that a new row shows: with mark 0 it has none.
#[tactic(auto, unfolding(format::specs::Step::shown))]
fn shown(w: Work) -> Key
    ensures { result ≡ s.shown (work_key w) }
{
    if w.purpose == 0 {
        return Key::default();
    }
    Key {
        mark: w.purpose,
        begin: w.span.begin,
        size: w.span.size,
    }
}

// A marker.
fn marking(f: &mut Feeding, w: Work, b: usize) -> Result<Next, Refusal>
    requires { f.old.depth < suc open_most }
    ensures steps { Steps result f.old f.new (s.act (s.at_marker (work_key w)) b) }
    ensures spares { OnlyRows (loans_of f.old) (loans_of f.new) }
{
    let row = f.marker(shown(w), OPEN_LIMIT - f.depth, b)?;
    begun(f, row, b)
}

// The same, and a refusal leaves the cursor and the open values as they were.
fn marker_byte(f: &mut Feeding, w: Work, b: usize) -> Result<Next, Refusal>
    requires { f.old.depth < suc open_most }
    ensures steps { Steps result f.old f.new (s.act (s.at_marker (work_key w)) b) }
    ensures spares { OnlyRows (loans_of f.old) (loans_of f.new) }
    ensures back { Back result f.old f.new }
{
    let (cursor, depth) = (f.cursor, f.depth);
    let a = marking(f, w, b);
    f.put_back(cursor, depth, a)
}

// Byte `b` for the work of a sound state, the cursor already past it.
pub fn act(f: &mut Feeding, w: Work, b: u8) -> Result<Next, Refusal>
    requires { depth_fits (mode_of w) f.old.depth ≡ true }
    ensures steps { Steps result f.old f.new (s.act (mode_of w) b) }
    ensures back { Back result f.old f.new }
{
    match w.mode {
        modes::MARKER => marker_byte(f, w, b as usize),
        modes::WORD => word_byte(f, w, b),
        modes::NUMBER => number_byte(f, w, b),
        modes::FLAG => flag_done(f, w, b as usize),
        modes::TEXT => text_byte(f, w, b),
        modes::RAW => raw_byte(f, w, b),
        _ => Err(decide::lost()),
    }
}
