// validator.rs: the findings of a chunk, one at a time.
#![tactic(auto)]

pub mod scan;
pub mod search;
