// chunk.rs, encoding: the entries of a function and its lists, read at their place in the chunk and put into lent memory.
#![tactic(auto)]

pub mod entry;
mod list;
pub mod listed;
