// The exported calls behind C: numbers and slices only. Each takes the chunk, the nine limits in the order of `ResourceLimits`, and a lent array for its answer, and returns
// 0, or a refusal as one number (crates/c_boundary/specs/Status.antt); the array is then as it was. include/lafzimdo.h says what each array holds.
#![tactic(auto)]

pub mod entry;
pub mod finding;
pub mod full;
pub mod function;
pub mod part;
pub mod space;
pub mod stricter;
pub mod summary;
pub mod version;
pub mod whole;
pub mod word;
