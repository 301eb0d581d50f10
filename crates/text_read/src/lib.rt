// What a line of a request spells: its words, numbers and bytes.
#![tactic(auto)]

pub mod hex;
mod number;
pub mod spelt;
pub mod token;
