// What a line on standard input says (docs/PROTOCOL.md, 'Lines'): a chunk, limits, or a call with the numbers that
// are wanted; and the count of the answers that agree.
#![tactic(auto)]

pub mod line;
pub mod state;
