// The format of a Lua 5.4 chunk, as the rest of the library cites it: limits, refusals and what is shown as types, and in specs/ the definitions.
#![tactic(auto)]

pub mod entry;
pub mod header;
pub mod limits;
pub mod refusal;
pub mod spelling;
