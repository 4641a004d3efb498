// The loans, by number; the output counts as the seventh.
// Numbers, not an enum: refusals 1 and 10 tell C the loan by its number.

pub const ROWS: usize = 1;

pub const STORE: usize = 2;

pub const STRINGS: usize = 3;

pub const OBJECTS: usize = 4;

pub const TRAITS: usize = 5;

pub const NAMES: usize = 6;

pub const OUTPUT: usize = 7;
