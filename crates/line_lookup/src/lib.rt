// model.rs: the line of an instruction, by the chunk, the limits, the function's number and any pc.
// One lookup passes once over the function's anchors and at most once over its deltas.
#![tactic(auto)]

pub mod deltas;
pub mod line;
