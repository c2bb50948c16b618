// The kinds of rule 4 as a record's words have them.
pub const END: usize = form::kinds::END as usize;

pub const BYTE: usize = form::kinds::BYTE as usize;

pub const SHORT: usize = form::kinds::SHORT as usize;

pub const INT: usize = form::kinds::INT as usize;

pub const LONG: usize = form::kinds::LONG as usize;

pub const FLOAT: usize = form::kinds::FLOAT as usize;

pub const DOUBLE: usize = form::kinds::DOUBLE as usize;

pub const BYTE_ARRAY: usize = form::kinds::BYTE_ARRAY as usize;

pub const STRING: usize = form::kinds::STRING as usize;

pub const LIST: usize = form::kinds::LIST as usize;

pub const COMPOUND: usize = form::kinds::COMPOUND as usize;

pub const INT_ARRAY: usize = form::kinds::INT_ARRAY as usize;

pub const LONG_ARRAY: usize = form::kinds::LONG_ARRAY as usize;
