// How a chunk is spelt, where a copy spells the same reading otherwise: specs/, counted along the grammar and along the readers; that these are one: proofs/. The code counts.
#![tactic(auto)]

pub mod tally;
