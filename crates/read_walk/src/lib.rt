// The walk that judges a chunk's functions: it counts them, and keeps no row; and a function's source, by the place at which it is spelt.
#![tactic(auto)]

pub mod source;
pub mod walk;
