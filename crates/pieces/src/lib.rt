// One byte on any state, and a piece of a message: any numbers are a state, a byte is taken only where they hold together, and a piece is its bytes one
// after another.

#![tactic(auto)]

ghost use Rattle.std.specs.Prelude.{◌≡◌, true, false, List, ℕ, ◌≤◌, ◌<◌, length};
ghost use Rattle.rows.specs.declared.Cursor.{Cursor};
ghost use Rattle.rows.specs.Memory.{message_limit};
ghost use Rattle.rows.specs.Lent.{memory_of, SameLoans};
ghost use Rattle.format.specs.Numbers.{mode_of, held, byte_step};
ghost use Rattle.format.specs.Numbers as n;
ghost use Rattle.format.specs.Step as steps;
ghost use Rattle.states.specs.Ends.{has_ended};
ghost use Rattle.resume.specs.Steps.{Steps, Refused, loans_of, turn_of, after, settled};
ghost use Rattle.pieces.specs.States.{Takes, Fillable, Filled, Drives, RunsAll, numbers, head_of, cost_of, ran, run_of, Nearly, Bulk, work_past};

use format::{Frames, Head, Lent, Refusal, Work, modes, refusals, statuses};
use resume::{Feeding, Next};
use rows::{Cursor, Loans, MESSAGE_LIMIT};

// ---- the step

// Byte `b` for a sound state that waits: refused with 11 where it has taken all.
fn go_on(f: &mut Feeding, w: Work, b: u8) -> Result<Next, Refusal>
    requires { n.depth_fits (mode_of w) f.old.depth ≡ true }
    ensures { Steps result f.old f.new (λ ts c m. steps.step b (steps.wait (mode_of w) ts c m)) }
{
    if MESSAGE_LIMIT <= f.cursor.at {
        return Err(decide::refuse(f.cursor, refusals::TOO_LONG, 0));
    }
    f.cursor.at += 1;
    step::act(f, w, b)
}

// What a state that has not ended makes of a byte: one that was never begun, or is not sound, is refused with 12, and one that has taken all with 11.
fn next(h: Head, f: &mut Feeding, b: u8) -> Result<Next, Refusal>
    requires depth { f.old.depth ≡ h.depth }
    requires cursor { f.old.cursor ≡ h.cursor }
    ensures { Takes result f.old f.new b h }
{
    let lent = Lent {
        rows: f.rows.len(),
        store: f.store.len(),
        strings: f.strings.len(),
        objects: f.objects.len(),
        traits: f.traits.len(),
        names: f.names.len(),
    };
    if h.status != statuses::WAITING || !states::sound(h, lent) {
        return Err(decide::lost());
    }
    go_on(f, h.work, b)
}

// A refusal leaves every loan zero.
fn settle(loans: &mut Loans, a: Result<Next, Refusal>)
    ensures settled { (F : List ℕ) (c : Cursor) (d : ℕ) → after (turn_of a c d) F (memory_of loans.new) ≡ settled (after (turn_of a c d) F (memory_of loans.old)) }
    ensures same { SameLoans loans.old loans.new }
{
    if a.is_err() {
        loans.clear();
    }
}

// The head of an answer, over loans of these lengths, with this cursor and so many values open.
pub fn head_after(lent: Lent, a: Result<Next, Refusal>, cursor: Cursor, depth: usize) -> Head
    ensures { result ≡ head_of lent (turn_of a cursor depth) }
{
    match a {
        Ok(Next::Wait(work)) => Head {
            status: statuses::WAITING,
            lent,
            cursor,
            depth,
            work,
            ..Head::default()
        },
        Ok(Next::Finished) => Head {
            status: statuses::FINISHED,
            lent,
            cursor,
            ..Head::default()
        },
        Err(r) => Head {
            status: statuses::REFUSED,
            number: r.number,
            told: r.told,
            place: r.place,
            lent,
            ..Head::default()
        },
    }
}

// ---- a piece

// The head after a piece, and the bytes taken.
#[derive(Drop)]
pub struct Ran {
    pub head: Head,
    pub taken: usize,
}

// The byte that was refused was taken, but for 11 and 12.
fn cost(r: Refusal) -> usize
    ensures { result ≡ cost_of (Refused r) }
{
    usize::from(!matches!(r.number, refusals::TOO_LONG | refusals::LOST))
}

// How many of `n` bytes can be filled in at once: all but the last of a text or a raw body, 0 where a step is due.
fn bulk(c: Cursor, w: Work, n: usize) -> usize
    requires { c.at ≤ message_limit }
    ensures { 0 < result → Bulk w c n result }
{
    if w.mode < modes::TEXT {
        return 0;
    }
    w.left.min(n).min(MESSAGE_LIMIT - c.at)
}

// Fills bytes into the span of a text or a raw body, as a step for each would. The answer is the work after them.
fn fill(f: &mut Feeding, w: Work, bytes: &[u8]) -> Work
    requires { Fillable f.old w (length bytes.now) }
    ensures work { result ≡ work_past w (length bytes.now) bytes.now }
    ensures filled { Filled f.old f.new w bytes.now }
{
    let k = bytes.len();
    let mut past = w;
    past.left = w.left - k;
    f.cursor.at += k;
    rows::copy(f.store, w.span.begin + (w.span.size - (w.left + 1)), bytes);
    if w.mode == modes::TEXT {
        past.part = utf8::run(w.part, bytes);
        return past;
    }
    let mut last = w;
    last.left = past.left + 1;
    // The row is used, so that this refuses nothing.
    let _ = step::raw_grown(f, last);
    past
}

// How many numbers the frames have: what their type says, which a proof has from this alone.
fn frame_numbers(frames: &Frames) -> usize
    ensures { length frames.now ≡ n.frames_size }
{
    let numbers: &[usize] = frames;
    numbers.len()
}

// The bytes of a piece after its first, on a sound state that waits: the answer of the last step, and the bytes taken. The steps are of one byte or of many, so
// that `i` is counted by hand.
fn drive(f: &mut Feeding, w0: Work, piece: &[u8]) -> (Result<Next, Refusal>, usize)
    requires ready { Nearly w0 f.old.cursor f.old.depth f.old.frames.now (loans_of f.old) }
    requires some { 0 < length piece.now }
    ensures { Drives result f.old f.new w0 piece.now }
{
    frame_numbers(f.frames);
    let mut w = w0;
    let mut i = 1;
    while i < piece.len() {
        if !states::pairs_fit(f.cursor, w) {
            return (Err(decide::lost()), i);
        }
        let k = bulk(f.cursor, w, piece.len() - i);
        if 0 < k {
            w = fill(f, w, &piece[i..i + k]);
            i += k;
        } else {
            match go_on(f, w, piece[i]) {
                Ok(Next::Wait(on)) => w = on,
                Ok(Next::Finished) => return (Ok(Next::Finished), i + 1),
                Err(r) => return (Err(r), i + cost(r)),
            }
            i += 1;
        }
    }
    (Ok(Next::Wait(w)), i)
}

// A piece on a state that has not ended: the answer of the last step, and the bytes taken. Whether the state holds together is tested once, with the first byte.
fn take(h: Head, f: &mut Feeding, piece: &[u8]) -> (Result<Next, Refusal>, usize)
    requires depth { f.old.depth ≡ h.depth }
    requires cursor { f.old.cursor ≡ h.cursor }
    requires going { has_ended h ≡ false }
    requires some { 0 < length piece.now }
    ensures { RunsAll result f.old f.new h piece.now }
{
    frame_numbers(f.frames);
    match next(h, f, piece[0]) {
        Ok(Next::Wait(w)) => drive(f, w, piece),
        Ok(Next::Finished) => (Ok(Next::Finished), 1),
        Err(r) => (Err(r), cost(r)),
    }
}

// A piece on any state: its bytes one after another. What has ended takes none.
pub fn run(h: Head, frames: &mut Frames, loans: &mut Loans, piece: &[u8]) -> Ran
    ensures ran { ran (held (numbers result.head frames.new) (memory_of loans.new)) result.taken ≡ run_of (held (numbers h frames.old) (memory_of loans.old)) piece.now }
    ensures same { SameLoans loans.old loans.new }
{
    if piece.is_empty() || states::has_ended(h) {
        return Ran { head: h, taken: 0 };
    }
    let mut f = Feeding {
        frames: &mut *frames,
        depth: h.depth,
        rows: &mut *loans.rows,
        store: &mut *loans.store,
        strings: &mut *loans.strings,
        objects: &mut *loans.objects,
        traits: &mut *loans.traits,
        names: &mut *loans.names,
        cursor: h.cursor,
    };
    let (a, taken) = take(h, &mut f, piece);
    let head = head_after(h.lent, a, f.cursor, f.depth);
    settle(loans, a);
    Ran { head, taken }
}

// One byte on any state. What has ended stays as it is, and its loans untouched.
pub fn step(h: Head, frames: &mut Frames, loans: &mut Loans, b: u8) -> Head
    ensures held { held (numbers result frames.new) (memory_of loans.new) ≡ byte_step b (held (numbers h frames.old) (memory_of loans.old)) }
    ensures same { SameLoans loans.old loans.new }
{
    run(h, frames, loans, &[b]).head
}
