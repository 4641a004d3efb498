// Whose the next byte is. An integer's word and a double's bytes have one number, and so have an object's word and a date's bytes.
// Numbers, not an enum: C lends the state, and any number in it has an answer (`apart-lost` of promises/proofs/Demands).

pub const INTEGER: usize = 1;

pub const DOUBLE: usize = 1;

pub const OBJECT: usize = 2;

pub const DATE_BITS: usize = 2;

pub const XML: usize = 3;

pub const DATE: usize = 4;

pub const ARRAY: usize = 5;

pub const BYTE_ARRAY: usize = 6;

pub const FOURS: usize = 7;

pub const EIGHTS: usize = 8;

pub const OBJECT_VECTOR: usize = 9;

pub const DICTIONARY: usize = 10;

pub const STRING: usize = 11;

pub const KEY: usize = 12;

pub const DYNAMIC_KEY: usize = 13;

pub const CLASS: usize = 14;

pub const EXTERNAL: usize = 15;

pub const NAME: usize = 16;

pub const VECTOR_CLASS: usize = 17;

// Behind the last.
pub const END: usize = VECTOR_CLASS + 1;
