// The calls on a state by value: a reading begins, a piece is fed, the end is declared.

#![tactic(auto)]

ghost use Rattle.std.specs.Prelude.{◌≡◌, List, ℕ};
ghost use Rattle.rows.specs.Memory.{Memory};
ghost use Rattle.rows.specs.Lent.{memory_of, SameLoans};
ghost use Rattle.format.specs.Numbers.{state_of, held};
ghost use Rattle.format.specs.Answers as answers;
ghost use Rattle.format.specs.Answers.{fed, answer_of, begin_call, feed_call, end_call};
ghost use Rattle.pieces.specs.States.{numbers};
ghost use Rattle.feed.specs.Calls.{end_refusal, state_numbers};

use format::{Answer, FRAMES_SIZE, Frames, Head, Refusal, Work, modes, refusals, statuses};
use resume::Next;
use rows::{Cursor, Loans};

// ---- the calls, on a state by value

// A state that is lent to the feed: a head, and the frames of the open values. Any numbers are one.
#[repr(C)]
#[derive(Clone, Copy)]
pub struct State {
    pub head: Head,
    pub frames: Frames,
}

// The state after a call, and the answer.
#[derive(Clone, Copy)]
pub struct Fed {
    pub state: State,
    pub answer: Answer,
}

// What a head answers, so many bytes taken.
fn answer_of(h: Head, taken: usize) -> Answer
    ensures { (F : List ℕ) (m : Memory) → result ≡ answer_of (state_of (numbers h F) m) taken }
{
    if h.status == statuses::WAITING {
        return Answer::Waiting { taken };
    }
    if !states::has_ended(h) {
        return Answer::Refused {
            no: refusals::LOST,
            told: 0,
            place: 0,
            taken,
        };
    }
    if h.status == statuses::FINISHED {
        return Answer::Finished {
            rows: h.cursor.rows,
            bytes: h.cursor.store,
            taken,
        };
    }
    Answer::Refused {
        no: h.number,
        told: h.told,
        place: h.place,
        taken,
    }
}

// A state of these numbers, and what it answers.
fn answered(head: Head, frames: Frames, taken: usize) -> Fed
    ensures { (m : Memory) → fed result.answer (state_numbers result.state) m ≡ answers.answered (held (numbers head frames) m) taken }
{
    Fed {
        state: State { head, frames },
        answer: answer_of(head, taken),
    }
}

// The beginning of a reading: a marker is next, and nothing is used. A loan that 1 refuses leaves all of them as they are.
pub fn begun(loans: &mut Loans) -> Fed
    ensures call { fed result.answer (state_numbers result.state) (memory_of loans.new) ≡ begin_call (memory_of loans.old) }
    ensures same { SameLoans loans.old loans.new }
{
    let lent = loans.lent();
    let frames = [0; FRAMES_SIZE];
    if let Some(loan) = lent.fault() {
        let wrong = Refusal {
            number: refusals::BAD_LOAN,
            told: loan,
            place: 0,
        };
        let refused = pieces::head_after(lent, Err(wrong), Cursor::default(), 0);
        return answered(refused, frames, 0);
    }
    loans.clear();
    let marker = Work {
        mode: modes::MARKER,
        ..Work::default()
    };
    let waiting = pieces::head_after(lent, Ok(Next::Wait(marker)), Cursor::default(), 0);
    answered(waiting, frames, 0)
}

// The head after a piece, and the answer.
#[derive(Clone, Copy)]
pub struct Headed {
    pub head: Head,
    pub answer: Answer,
}

// A piece on a head and its frames.
pub fn fed_in(h: Head, frames: &mut Frames, loans: &mut Loans, piece: &[u8]) -> Headed
    ensures call { fed result.answer (numbers result.head frames.new) (memory_of loans.new) ≡ feed_call (numbers h frames.old) (memory_of loans.old) piece.now }
    ensures same { SameLoans loans.old loans.new }
{
    let ran = pieces::run(h, frames, loans, piece);
    let head = ran.head;
    Headed {
        head,
        answer: answer_of(head, ran.taken),
    }
}

// The same on a state by value.
pub fn fed_on(s: State, loans: &mut Loans, piece: &[u8]) -> Fed
    ensures call { fed result.answer (state_numbers result.state) (memory_of loans.new) ≡ feed_call (state_numbers s) (memory_of loans.old) piece.now }
    ensures same { SameLoans loans.old loans.new }
{
    let mut frames = s.frames;
    let Headed { head, answer } = fed_in(s.head, &mut frames, loans, piece);
    Fed {
        state: State { head, frames },
        answer,
    }
}

// Why a state that has not ended is refused at the end: 2 where it waits, 12 where it was never begun.
#[tactic(auto, unfolding(crate::specs::Calls::end_refusal))]
fn end_refusal(h: Head) -> Refusal
    ensures { result ≡ end_refusal h }
{
    if h.status == statuses::WAITING {
        return decide::refuse(h.cursor, refusals::UNEXPECTED_END, 0);
    }
    decide::lost()
}

// The end is declared: what waits is refused with 2.
pub fn ended(s: State, loans: &mut Loans) -> Fed
    ensures call { fed result.answer (state_numbers result.state) (memory_of loans.new) ≡ end_call (state_numbers s) (memory_of loans.old) }
    ensures same { SameLoans loans.old loans.new }
{
    let h = s.head;
    let frames = s.frames;
    if states::has_ended(h) {
        return answered(h, frames, 0);
    }
    loans.clear();
    let refused = pieces::head_after(h.lent, Err(end_refusal(h)), h.cursor, 0);
    answered(refused, frames, 0)
}
