// The markers of values.

pub const UNDEFINED: u8 = 0x00;

pub const NULL: u8 = 0x01;

pub const FALSE: u8 = 0x02;

pub const TRUE: u8 = 0x03;

pub const INTEGER: u8 = 0x04;

pub const DOUBLE: u8 = 0x05;

pub const STRING: u8 = 0x06;

pub const XML_DOCUMENT: u8 = 0x07;

pub const DATE: u8 = 0x08;

pub const ARRAY: u8 = 0x09;

pub const OBJECT: u8 = 0x0A;

pub const XML: u8 = 0x0B;

pub const BYTE_ARRAY: u8 = 0x0C;

pub const INT_VECTOR: u8 = 0x0D;

pub const UINT_VECTOR: u8 = 0x0E;

pub const DOUBLE_VECTOR: u8 = 0x0F;

pub const OBJECT_VECTOR: u8 = 0x10;

pub const DICTIONARY: u8 = 0x11;
