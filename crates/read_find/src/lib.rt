// chunk.rs, decoding: one function of a chunk, found by its number in one walk over the file, and its row.
#![tactic(auto)]

pub mod find;
mod row;
mod spot;
