// The refusals, by document 01's numbers.
// Numbers, not an enum: C and the calls tell a refusal by its number.

// A loan is over its maximum or not whole entries; tells the loan.
pub const BAD_LOAN: usize = 1;

// The bytes end before the value.
pub const UNEXPECTED_END: usize = 2;

// A marker above 11 hex; tells it.
pub const BAD_MARKER: usize = 3;

// A reference past its table; tells the index.
pub const NO_ENTRY: usize = 4;

// A reference to an object still open; tells the index.
pub const OPEN_OBJECT: usize = 5;

// An externalizable class.
pub const EXTERNALIZABLE: usize = 6;

// A date that is no date; tells the 64 bits.
pub const BAD_DATE: usize = 7;

// Text that is not valid.
pub const BAD_TEXT: usize = 8;

// A value with as many open around it as can be.
pub const TOO_DEEP: usize = 9;

// No room; tells the loan.
pub const NO_ROOM: usize = 10;

// A byte past the limit is needed.
pub const TOO_LONG: usize = 11;

// The state doesn't hold together.
pub const LOST: usize = 12;

// A row is malformed; tells the row.
pub const MALFORMED: usize = 13;

// A row can't be written; tells the row.
pub const UNWRITABLE: usize = 14;
