// Whether a state waits, is finished or refused; any other number was never begun.
// Numbers, not an enum: C lends the state, and any number in it has an answer (`apart-lost` of promises/proofs/Demands).

pub const WAITING: usize = 1;

pub const FINISHED: usize = 2;

pub const REFUSED: usize = 3;
