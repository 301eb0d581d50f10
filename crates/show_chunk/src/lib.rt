// What a chunk shows as a whole, and of each function its fields. Every call takes the chunk and the limits, has no `requires`, and says everything about its
// answer, as an equation with the definitions in specs/. Refusals come in 01's order: 21, 22, 1 to 20, 23.
#![tactic(auto)]

pub mod bytes;
pub mod fields;
pub mod summary;
