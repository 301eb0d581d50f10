// chunk.rs, decoding: the lists of a function. Each is passed over, and its entries are read.
// Every contract holds for any slice and any cursor, and is an equation with a reader of `format`; what counts on the way asks for room in the tally that is lent (`Room`), which `[0; 4]` has anywhere.
#![tactic(auto)]

pub mod constant;
pub mod debug;
pub mod pass;
pub mod runs;
