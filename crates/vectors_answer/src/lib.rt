// Answers as numbers: what a call returns, and where that is 0 the numbers of its array. A string stands as its
// length and its bytes, since the Rust shows no place. And the low bits of a request's numbers, for calls that take
// fewer than 64.
#![tactic(auto)]

pub mod answer;
pub mod argument;
pub mod lent;
