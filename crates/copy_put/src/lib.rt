// chunk.rs, encoding: numbers, bytes and strings, put into lent memory.
// A writer puts its bytes at a place if all of them have room there. It returns the place behind them either way, so that without room it measures.
#![tactic(auto)]

pub mod header;
pub mod number;
pub mod raw;
pub mod shortest;
pub mod text;
