// Bytes of a slice: a cursor and runs of bytes, numbers of four and eight bytes, parts, and memory that a caller lends.
#![tactic(auto)]

pub mod bytes;
pub mod cursor;
pub mod lent;
pub mod little;
