// A function of a chunk by its number, and where its lists stand: what the exported calls go on from. No call here has a `requires`.
#![tactic(auto)]

pub mod place;
pub mod row;
