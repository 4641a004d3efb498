// The columns of a row.
// Numbers, not a struct: rows are numbers that C lends, and a loan holds any of them.

pub const KIND: usize = 0;

pub const KEY_MARK: usize = 1;

pub const KEY_BEGIN: usize = 2;

pub const KEY_SIZE: usize = 3;

pub const BODY_BEGIN: usize = 4;

pub const BODY_SIZE: usize = 5;

pub const CLASS_MARK: usize = 6;

pub const FLAG: usize = 7;

pub const NUMBER: usize = 8;

pub const COUNT: usize = 9;

pub const COUNT2: usize = 10;

pub const END: usize = 11;
