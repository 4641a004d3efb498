// The answers of the public calls, and the types of a state that is lent to the feed: plain numbers, any of which is a state. What they mean is
// specs/Answers.antt and specs/Numbers.antt.

#![tactic(auto)]

pub mod modes;
pub mod purposes;
pub mod refusals;
pub mod statuses;
pub mod tasks;

pub use rows::Lent;
use rows::{Cursor, OPEN_LIMIT, Span, Trait};

// ---- frames

// The numbers of a frame, and of the frames of as many values as can be open.
pub const FRAME_WIDTH: usize = 6;

pub const FRAMES_SIZE: usize = OPEN_LIMIT * FRAME_WIDTH;

// The frames of the open values, outermost first.
pub type Frames = [usize; FRAMES_SIZE];

// What a reading answers: it waits; it is finished, with so many rows and store bytes used; or it is refused. `taken` counts bytes taken.
// Three answers side by side, not a Result: each tells the bytes taken, and C gets all three as `Coded`.
#[derive(Clone, Copy, PartialEq, Eq)]
pub enum Answer {
    Waiting {
        taken: usize,
    },
    Finished {
        rows: usize,
        bytes: usize,
        taken: usize,
    },
    Refused {
        no: usize,
        told: usize,
        place: usize,
        taken: usize,
    },
}

// A refusal: its number, the value that it tells, and the place.
#[derive(Clone, Copy, PartialEq, Eq)]
pub struct Refusal {
    pub number: usize,
    pub told: usize,
    pub place: usize,
}

// What a writing answers: so many bytes written, or refused.
pub type Written = Result<usize, Refusal>;

// What the next byte is for: a mode and the numbers that it works with. The default is no work.
#[repr(C)]
#[derive(Clone, Copy, PartialEq, Eq, Default)]
pub struct Work {
    pub mode: usize,
    pub purpose: usize,
    pub row: usize,
    pub left: usize,
    pub part: usize,
    pub span: Span,
    pub kind: Trait,
    pub count: usize,
    pub done: usize,
}

// A state beside its frames: whether it waits, a refusal, the loans' lengths, what is used, how many values are open, and the work.
#[repr(C)]
#[derive(Clone, Copy, PartialEq, Eq, Default)]
pub struct Head {
    pub status: usize,
    pub number: usize,
    pub told: usize,
    pub place: usize,
    pub lent: Lent,
    pub cursor: Cursor,
    pub depth: usize,
    pub work: Work,
}

// What an open value still has to read.
#[derive(Clone, Copy, PartialEq, Eq, Default)]
pub struct Frame {
    pub task: usize,
    pub row: usize,
    pub left: usize,
    pub done: usize,
    pub first: usize,
    pub dynamic: usize,
}
