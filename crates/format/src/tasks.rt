// What an open value still has to read.
// Numbers, not an enum: C lends the state, and any number in it has an answer (`apart-lost` of promises/proofs/Demands).

pub const PAIRS: usize = 1;

pub const DYNAMICS: usize = 2;

pub const DENSE: usize = 3;

pub const VECTOR: usize = 4;

pub const MEMBERS: usize = 5;

pub const KEYS: usize = 6;

pub const VALUES: usize = 7;
