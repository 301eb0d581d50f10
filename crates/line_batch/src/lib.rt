// model.rs: the lines of a list of pcs that never falls, by the chunk, the limits and the function's number.
// One pass over the chunk, two over the function's anchors, one over the pcs that judges and one that writes; each delta that a lookup walks over is read once, and no other.
#![tactic(auto)]

pub mod anchors;
pub mod judge;
pub mod list;
pub mod numbered;
pub mod walk;
