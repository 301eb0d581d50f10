// The numbers of a chunk's summary and of a function's fields, as the calls behind C put them into their arrays (include/lafzimdo.h).
#![tactic(auto)]

pub mod fields;
pub mod summary;
