// The numbers of a function's entries and of strings, as the calls behind C put them into their arrays (include/lafzimdo.h).
#![tactic(auto)]

pub mod entry;
pub mod strings;
