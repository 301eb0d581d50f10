// validator.rs: the findings of a chunk, counted, and the verdict.
#![tactic(auto)]

pub mod tally;
pub mod verdict;
