// The kinds of rows.
// Numbers, not an enum: C lends the rows, and a row of any kind has an answer (`test-says` of promises/proofs/Demands).

pub const UNDEFINED: usize = 1;

pub const NULL: usize = 2;

pub const BOOLEAN: usize = 3;

pub const INTEGER: usize = 4;

pub const DOUBLE: usize = 5;

pub const STRING: usize = 6;

pub const XML_DOCUMENT: usize = 7;

pub const DATE: usize = 8;

pub const ARRAY: usize = 9;

pub const OBJECT: usize = 10;

pub const XML: usize = 11;

pub const BYTE_ARRAY: usize = 12;

pub const INT_VECTOR: usize = 13;

pub const UINT_VECTOR: usize = 14;

pub const DOUBLE_VECTOR: usize = 15;

pub const OBJECT_VECTOR: usize = 16;

pub const DICTIONARY: usize = 17;

pub const REFERENCE: usize = 18;
