// reader.rs: reading fields, numbers and strings of a chunk, from a cursor on.
// What reads at a cursor asks nothing: its contract holds for any slice and any cursor, and is an equation with a reader of `format`. What counts as well (`tally_..`) asks for room in the tally that is lent.
#![tactic(auto)]

pub mod field;
pub mod string;
pub mod varint;
