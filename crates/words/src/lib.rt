// What a reading that waits goes on with once a word is whole: a string, a body, an object or an integer.

#![tactic(auto)]

ghost use Rattle.std.specs.Prelude.{◌≡◌, ◌≢◌, ◌*◌, ◌^◌, ◌<◌};
ghost use Rattle.rows.specs.Memory.{open_most, no_span};
ghost use Rattle.wire.specs.declared.Size.TheVariants.{New};
ghost use Rattle.wire.specs.Word.{size_of, shape_of};
ghost use Rattle.decide.specs.Spared.{OnlyMembers, OnlyMembersObjects, OnlyRows, OnlyRowsObjects};
ghost use Rattle.format.specs.Decide as d;
ghost use Rattle.format.specs.Step as s;
ghost use Rattle.format.specs.Numbers.{with_body, work, no_trait, of_dynamic, no_work, use_work, body_purpose, with_use, with_word, with_raw};
ghost use Rattle.format.specs.Codes.{mode_flag, purpose_integer};
ghost use Rattle.decide.specs.Outcomes.{body_in, width_in};
ghost use Rattle.states.specs.Purposes.{IsUse, IsWord, IsRaw};
ghost use Rattle.resume.specs.Steps.{Steps, Back, Decides, Rooms, reserved_by, loans_of};

use decide::{Body, Width};
use format::{Refusal, Work, modes, purposes};
use resume::{Feeding, Next};
use rows::{Span, Trait};
use wire::{Shape, Size};

// ---- strings

// The work of a use, which goes on with so many bytes left.
pub fn use_work(w: Work, mode: usize, left: usize, part: usize, span: Span) -> Work
    requires { IsUse w }
    ensures { result ≡ with_use no_work w (λ u. use_work mode u left part span) }
{
    let plain = Work {
        mode,
        purpose: w.purpose,
        row: w.row,
        left,
        part,
        span,
        ..Work::default()
    };
    match w.purpose {
        purposes::KEY => Work {
            count: w.count,
            done: w.done,
            ..plain
        },
        purposes::DYNAMIC_KEY => Work {
            done: w.done,
            ..plain
        },
        purposes::CLASS => Work {
            kind: of_dynamic(w.kind.dynamic),
            count: w.count,
            ..plain
        },
        purposes::EXTERNAL => Work { row: 0, ..plain },
        purposes::NAME => Work {
            kind: w.kind,
            count: w.count,
            ..plain
        },
        purposes::VECTOR_CLASS => Work {
            count: w.count,
            ..plain
        },
        _ => plain,
    }
}

// A trait of which only this is known.
fn of_dynamic(dynamic: usize) -> Trait
    ensures { result ≡ of_dynamic dynamic }
{
    Trait {
        dynamic,
        ..Trait::default()
    }
}

// A string's span is reserved: a string value's row shows it at once.
fn reserved_for(f: &mut Feeding, w: Work, p: Span) -> Result<(), Refusal>
    ensures decided { Decides result f.old f.new (reserved_by w p) }
    ensures spares { OnlyRows (loans_of f.old) (loans_of f.new) }
{
    if w.purpose == purposes::STRING {
        f.bodied(w.row, p)?;
    }
    Ok(())
}

// Room for the text of a new string.
fn string_new(f: &mut Feeding, w: Work, n: usize) -> Result<Next, Refusal>
    requires used { IsUse w }
    requires some { 0 < n }
    ensures steps { Steps result f.old f.new (λ ts c m. with_use (s.broken m) w (λ u. s.string_sized ts u (New n) c m)) }
    ensures spares { OnlyRows (loans_of f.old) (loans_of f.new) }
{
    let p = f.reserved(n)?;
    reserved_for(f, w, p)?;
    Ok(Next::Wait(use_work(w, modes::TEXT, n - 1, 0, p)))
}

// A string's size word is whole.
fn string_sized(f: &mut Feeding, w: Work, n: usize) -> Result<Next, Refusal>
    requires open { f.old.depth < open_most }
    requires used { IsUse w }
    ensures steps { Steps result f.old f.new (λ ts c m. with_use (s.broken m) w (λ u. s.string_sized ts u (size_of n) c m)) }
    ensures spares { OnlyMembers (loans_of f.old) (loans_of f.new) }
{
    match wire::size_of(n) {
        Size::Old(i) => {
            let p = f.old_text(i)?;
            f.had(w, p)
        }
        Size::New(0) => f.had(w, Span::default()),
        Size::New(k) => string_new(f, w, k),
    }
}

// ---- bodies

// Room for a body of `n` bytes.
fn roomy(f: &mut Feeding, row: usize, n: usize) -> Result<Span, Refusal>
    ensures rooms { Rooms result f.old f.new row n }
    ensures spares { OnlyRows (loans_of f.old) (loans_of f.new) }
{
    if n == 0 {
        return Ok(Span::default());
    }
    let p = f.reserved(n)?;
    f.bodied(row, p)?;
    Ok(p)
}

// An XML's text of `n` bytes is next.
fn texting(f: &mut Feeding, row: usize, p: Span, n: usize) -> Result<Next, Refusal>
    requires { f.old.depth < open_most }
    ensures steps { Steps result f.old f.new (λ ts. s.texting ts row p n) }
    ensures spares { OnlyRows (loans_of f.old) (loans_of f.new) }
{
    if n == 0 {
        return f.close(row);
    }
    Ok(Next::Wait(Work {
        mode: modes::TEXT,
        purpose: purposes::XML,
        row,
        left: n - 1,
        span: p,
        ..Work::default()
    }))
}

// A raw body of `n` bytes is next.
pub fn filling(
    f: &mut Feeding,
    purpose: usize,
    row: usize,
    p: Span,
    n: usize,
) -> Result<Next, Refusal>
    requires open { f.old.depth < open_most }
    requires bytes { IsRaw purpose }
    ensures steps { Steps result f.old f.new (λ ts c m. with_raw (s.broken m) purpose row (λ r. s.filling ts r p n c m)) }
    ensures spares { OnlyRows (loans_of f.old) (loans_of f.new) }
    ensures back { Back result f.old f.new }
{
    if n == 0 {
        return f.close(row);
    }
    Ok(Next::Wait(Work {
        mode: modes::RAW,
        purpose,
        row,
        left: n - 1,
        span: p,
        ..Work::default()
    }))
}

// A raw vector's purpose.
fn raw_purpose(width: Width) -> usize
    ensures { result ≡ body_purpose (d.raw (width_in width)) }
{
    match width {
        Width::Four => purposes::FOURS,
        Width::Eight => purposes::EIGHTS,
    }
}

// The flag of a value of `n` entries is next.
fn flag_work(purpose: usize, row: usize, n: usize) -> Work
    ensures { result ≡ work mode_flag purpose row 0 0 no_span no_trait n 0 }
{
    Work {
        mode: modes::FLAG,
        purpose,
        row,
        count: n,
        ..Work::default()
    }
}

// The room of a raw vector is judged before its flag.
fn open_raw(f: &mut Feeding, row: usize, width: Width, n: usize) -> Result<Next, Refusal>
    requires { n < 2 ^ 30 }
    ensures steps { Steps result f.old f.new (λ ts. s.opened ts row (d.raw (width_in width)) n) }
    ensures spares { OnlyRows (loans_of f.old) (loans_of f.new) }
{
    let p = roomy(f, row, n * decide::width_of(width))?;
    Ok(Next::Wait(Work {
        mode: modes::FLAG,
        purpose: raw_purpose(width),
        row,
        span: p,
        ..Work::default()
    }))
}

// A new value, its size word read.
fn open_body(f: &mut Feeding, row: usize, body: Body, n: usize) -> Result<Next, Refusal>
    requires open { f.old.depth < open_most }
    requires small { n < 2 ^ 30 }
    ensures steps { Steps result f.old f.new (λ ts. s.opened ts row (body_in body) n) }
    ensures spares { OnlyRows (loans_of f.old) (loans_of f.new) }
{
    match body {
        Body::Xml => {
            let p = roomy(f, row, n)?;
            texting(f, row, p, n)
        }
        Body::Date => Ok(Next::Wait(Work {
            mode: modes::NUMBER,
            purpose: purposes::DATE_BITS,
            row,
            left: resume::NUMBER_MORE,
            ..Work::default()
        })),
        Body::Array => Ok(Next::Wait(resume::string_work(
            purposes::KEY,
            row,
            Trait::default(),
            n,
            0,
        ))),
        Body::Bytes => {
            let p = roomy(f, row, n)?;
            filling(f, purposes::BYTE_ARRAY, row, p, n)
        }
        Body::Objects => Ok(Next::Wait(flag_work(purposes::OBJECT_VECTOR, row, n))),
        Body::Dictionary => Ok(Next::Wait(flag_work(purposes::DICTIONARY, row, n))),
        Body::RawFour => open_raw(f, row, Width::Four, n),
        Body::RawEight => open_raw(f, row, Width::Eight, n),
    }
}

// A reference to object `i`.
fn refer(f: &mut Feeding, row: usize, i: usize) -> Result<Next, Refusal>
    requires { f.old.depth < open_most }
    ensures steps { Steps result f.old f.new (λ ts. s.ends ts (λ m. d.on_rows (d.referred row i m.objects) m)) }
    ensures spares { OnlyRows (loans_of f.old) (loans_of f.new) }
{
    f.referred(row, i)?;
    f.pop()
}

// A size word is whole.
fn body_sized(f: &mut Feeding, row: usize, body: Body, w: usize) -> Result<Next, Refusal>
    requires open { f.old.depth < open_most }
    requires small { w < 2 ^ 30 }
    ensures steps { Steps result f.old f.new (λ ts. s.body_sized ts row (body_in body) (size_of w)) }
    ensures spares { OnlyRowsObjects (loans_of f.old) (loans_of f.new) }
{
    match wire::size_of(w) {
        Size::Old(i) => refer(f, row, i),
        Size::New(n) => {
            f.entered(row)?;
            open_body(f, row, body, n)
        }
    }
}

// ---- objects

// An object of a trait that was read before.
fn object_known(f: &mut Feeding, row: usize, i: usize) -> Result<Next, Refusal>
    requires { f.old.depth < open_most }
    ensures steps { Steps result f.old f.new
        (λ ts c m. s.on (d.looking (λ m. d.old_trait i m.traits) m c) m (λ t c m. s.on (d.on_rows (d.object_class row t) m c) m (λ y. s.members ts row t))) }
    ensures spares { OnlyRows (loans_of f.old) (loans_of f.new) }
{
    let t = f.old_trait(i)?;
    f.object_class(row, t)?;
    f.members_of(row, t)
}

// An object's word is whole.
fn object_shaped(f: &mut Feeding, row: usize, w: usize) -> Result<Next, Refusal>
    requires { f.old.depth < open_most }
    ensures steps { Steps result f.old f.new (λ ts. s.object_shaped ts row (shape_of w)) }
    ensures spares { OnlyRowsObjects (loans_of f.old) (loans_of f.new) }
{
    match wire::shape_of(w) {
        Shape::Object(i) => refer(f, row, i),
        Shape::Known(i) => {
            f.entered(row)?;
            object_known(f, row, i)
        }
        Shape::External => {
            f.entered(row)?;
            let external = resume::string_work(purposes::EXTERNAL, 0, Trait::default(), 0, 0);
            Ok(Next::Wait(external))
        }
        Shape::Inline(n, dynamic) => {
            f.entered(row)?;
            let class = resume::string_work(purposes::CLASS, row, of_dynamic(dynamic), n, 0);
            Ok(Next::Wait(class))
        }
    }
}

// ---- words

// What a size word is of, by its purpose. Not From: a bare number would not say that it is a purpose.
fn body_for(purpose: usize) -> Body
    ensures { body_in result ≡ with_body d.xml purpose (λ b. b) }
{
    match purpose {
        purposes::DATE => Body::Date,
        purposes::ARRAY => Body::Array,
        purposes::BYTE_ARRAY => Body::Bytes,
        purposes::FOURS => Body::RawFour,
        purposes::EIGHTS => Body::RawEight,
        purposes::OBJECT_VECTOR => Body::Objects,
        purposes::DICTIONARY => Body::Dictionary,
        _ => Body::Xml,
    }
}

// A word that is no integer is whole.
fn wording(f: &mut Feeding, w: Work, n: usize) -> Result<Next, Refusal>
    requires open { f.old.depth < open_most }
    requires word { IsWord w }
    requires other { w.purpose ≢ purpose_integer }
    requires small { n < 2 ^ 30 }
    ensures steps { Steps result f.old f.new (λ ts c m. with_word (s.broken m) w (λ x. s.worded ts x n c m)) }
    ensures spares { OnlyMembersObjects (loans_of f.old) (loans_of f.new) }
{
    if w.purpose == purposes::OBJECT {
        return object_shaped(f, w.row, n);
    }
    if w.purpose <= purposes::DICTIONARY {
        return body_sized(f, w.row, body_for(w.purpose), n);
    }
    string_sized(f, w, n)
}

// A word is whole.
pub fn worded(f: &mut Feeding, w: Work, n: usize) -> Result<Next, Refusal>
    requires open { f.old.depth < open_most }
    requires word { IsWord w }
    requires small { n < 2 ^ 30 }
    ensures steps { Steps result f.old f.new (λ ts c m. with_word (s.broken m) w (λ x. s.worded ts x n c m)) }
    ensures spares { OnlyMembersObjects (loans_of f.old) (loans_of f.new) }
    ensures back { Back result f.old f.new }
{
    if w.purpose == purposes::INTEGER {
        f.integer_end(w.row, n)?;
        return f.pop();
    }
    let (cursor, depth) = (f.cursor, f.depth);
    let a = wording(f, w, n);
    f.put_back(cursor, depth, a)
}
