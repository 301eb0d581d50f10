// chunk.rs, decoding: a function but for those that nest in it: its front, the lists before and behind them, and its row.
#![tactic(auto)]

pub mod front;
pub mod parts;
pub mod pass;
pub mod row;
