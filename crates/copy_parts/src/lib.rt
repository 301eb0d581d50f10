// chunk.rs, encoding: a function before and behind the functions that nest in it, read at its place in the chunk and put into lent memory.
#![tactic(auto)]

pub mod ends;
mod front;
pub mod parts;
