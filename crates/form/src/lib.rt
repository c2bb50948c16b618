// The paper in definitions: specs/ has what a reader must believe, proofs/ the laws about it. The code is
// what every layer shares: the limits of document 01, its refusals and its kinds by name, and the form that a document is written in.
#![tactic(auto)]

pub mod forms;
pub mod kinds;
pub mod refusals;
pub mod ways;

// The most bytes that a document has.
pub const DOCUMENT: usize = 16777216;

// The most bytes that a text has.
pub const TEXT: usize = 1048576;

// The most steps that a query has.
pub const STEPS: usize = 16;

// The most records that a table has.
pub const RECORDS: usize = 1048576;

// The most containers that stand within each other, the root counted.
pub const DEPTH: usize = 512;

// The most bytes that a string has.
pub const STRING: usize = 65535;

// The most bytes of a string that has no more than those in every form: a character takes six bytes at most (02, [2]).
pub const SHORT_STRING: usize = 10922;
