// The kinds of rule 4 by the ids that a document has, as raw.rs of the crate numbers them. END is no kind: it ends a compound, and an
// empty list has it for its elements.
pub const END: u8 = 0;

pub const BYTE: u8 = 1;

pub const SHORT: u8 = 2;

pub const INT: u8 = 3;

pub const LONG: u8 = 4;

pub const FLOAT: u8 = 5;

pub const DOUBLE: u8 = 6;

pub const BYTE_ARRAY: u8 = 7;

pub const STRING: u8 = 8;

pub const LIST: u8 = 9;

pub const COMPOUND: u8 = 10;

pub const INT_ARRAY: u8 = 11;

pub const LONG_ARRAY: u8 = 12;
