// What the next byte of a reading that waits is of.
// Numbers, not an enum: C lends the state, and any number in it has an answer (`apart-lost` of promises/proofs/Demands).

pub const MARKER: usize = 1;

pub const WORD: usize = 2;

pub const NUMBER: usize = 3;

pub const FLAG: usize = 4;

pub const TEXT: usize = 5;

pub const RAW: usize = 6;
